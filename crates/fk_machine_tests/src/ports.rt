//! Tests of the ports, for each of their types.
use fk_ports::{
    Failed, HostSink, HostSource, HostStore, MemSink, MemSource, MemStore, Sink, Source, Store,
    StoreFault, SureSink, SureSource, SureStore, give_all, take_all,
};
use std::alloc::{AllocError, Global};
use std::io::{BufReader, Read, Write};
use std::process::Abort;
use std::test::Fail;
use std::{env, fmt, fs, io};

// More bytes than one piece holds, each of them its index modulo 251.
fn long_bytes(alloc: Global) -> Result<Vec<u8>, AllocError> {
    let mut bytes = Vec::new(alloc);
    for place in 0..200_000_u32 {
        bytes.push((place % 251) as u8)?;
    }
    Ok(bytes)
}

// Whether a fetch gives these bytes.
fn fetches<F: Store>(alloc: Global, files: &mut F, name: &str, most: usize, wanted: &[u8]) -> bool {
    let mut bytes = Vec::new(alloc);
    files.fetch(name, most, &mut bytes) == Ok(()) && bytes.as_slice() == wanted
}

// Whether a fetch fails with `StoreFault::Fault`.
fn fetch_faults<F: Store>(alloc: Global, files: &mut F, name: &str) -> bool {
    let mut bytes = Vec::new(alloc);
    files.fetch(name, 9, &mut bytes) == Err(StoreFault::Fault)
}

// Whether the source gives these bytes.
fn takes<S: Source>(alloc: Global, source: &mut S, most: usize, wanted: &[u8]) -> bool {
    match take_all(alloc, source, most) {
        Ok(bytes) => bytes.as_slice() == wanted,
        Err(_) => false,
    }
}

fn take_faults<S: Source>(alloc: Global, source: &mut S, most: usize) -> bool {
    take_all(alloc, source, most) == Err(StoreFault::Fault)
}

fn gives<K: Sink>(sink: &mut K, bytes: &[u8]) -> bool {
    give_all(sink, bytes) == Ok(())
}

// Whether the bytes can be put.
fn puts<F: Store>(files: &mut F, name: &str, bytes: &[u8]) -> bool {
    files.put(name, bytes) == Ok(())
}

fn source_of(alloc: Global, bytes: &[u8], fails: &[u64]) -> Result<MemSource, AllocError> {
    Ok(MemSource::new(bytes.to_vec(alloc)?, fails.to_vec(alloc)?))
}

fn sink_of(alloc: Global, room: usize, fails: &[u64]) -> Result<MemSink, AllocError> {
    MemSink::new(alloc, room, fails.to_vec(alloc)?)
}

fn store_of(
    alloc: Global,
    name: &str,
    bytes: &[u8],
    fails: &[u64],
) -> Result<MemStore, AllocError> {
    let mut files = Vec::new(alloc);
    files.push((String::from_str(alloc, name)?, bytes.to_vec(alloc)?))?;
    Ok(MemStore::new(files, fails.to_vec(alloc)?))
}

#[test]
fn takes_the_first_bytes_or_answers_the_fault(rt: HostRuntime) -> Result<(), Fail> {
    let alloc = rt.alloc();
    assert!(rt; take_faults(alloc, &mut source_of(alloc, b"abc", &[2])?, 4));
    let mut source = source_of(alloc, b"abc", &[])?;
    assert!(rt; takes(alloc, &mut source, 2, b"ab"));
    assert!(rt; takes(alloc, &mut source, 9, b"c"));
    Ok(())
}

#[test]
fn gives_all_or_a_prefix(rt: HostRuntime) -> Result<(), Fail> {
    let alloc = rt.alloc();
    let mut sink = sink_of(alloc, 5, &[2])?;
    assert!(rt; gives(&mut sink, b"abc"));
    assert!(rt; !gives(&mut sink, b"d"), "the second call");
    assert!(rt; !gives(&mut sink, b"def"), "a full sink");
    assert!(rt; sink.bytes() == b"abcde".as_slice());
    Ok(())
}

#[test]
fn keeps_files_in_memory(rt: HostRuntime) -> Result<(), Fail> {
    let alloc = rt.alloc();
    let mut store = store_of(alloc, "a", b"old", &[3])?;
    assert!(rt; puts(&mut store, "a", b"new"));
    assert!(rt; puts(&mut store, "b", b"other"));
    assert!(rt; fetch_faults(alloc, &mut store, "a"), "the third call");
    assert!(rt; fetches(alloc, &mut store, "a", 2, b"ne"));
    assert!(rt; fetch_faults(alloc, &mut store, "c"), "no such name");
    assert!(rt; store.bytes("b") == Some(b"other".as_slice()));
    Ok(())
}

#[test]
fn never_fails_where_it_is_sure(rt: HostRuntime) -> Result<(), Fail> {
    let alloc = rt.alloc();
    let mut source = SureSource::new(b"abc".to_vec(alloc)?);
    assert!(rt; takes(alloc, &mut source, 9, b"abc"));
    let mut sink = SureSink::new();
    assert!(rt; gives(&mut sink, b"abc"));
    assert!(rt; sink.count() == 3);
    let mut store = SureStore::new(b"same".to_vec(alloc)?);
    assert!(rt; puts(&mut store, "a", b"new"));
    assert!(rt; fetches(alloc, &mut store, "a", 9, b"same"));
    Ok(())
}

// Whether these bytes, which begin with 0, 1 and 2, can be put, and fetched as a whole and in part.
fn keeps<F: Store>(alloc: Global, files: &mut F, name: &str, bytes: &[u8]) -> bool {
    puts(files, name, bytes)
        && fetches(alloc, files, name, usize::MAX, bytes)
        && fetches(alloc, files, name, 3, &[0, 1, 2])
}

#[test]
fn keeps_files_of_the_system(rt: HostRuntime) -> Result<(), Fail> {
    let alloc = rt.alloc();
    let mut path = env::temp_dir(&rt)?;
    path.push("fk_ports_keeps_files_of_the_system")?;
    let bytes = long_bytes(alloc)?;
    let mut store = HostStore::new(&rt);
    let is_kept = keeps(alloc, &mut store, path.as_str(), &bytes);
    fs::remove_file(&rt, path.as_str())?;
    assert!(rt; is_kept);
    assert!(rt;
        fetch_faults(alloc, &mut store, path.as_str()),
        "no such file"
    );
    Ok(())
}

// Reads one byte, and then fails.
#[derive(Drop)]
struct BreaksOff {
    has_read: bool,
}

impl Read for BreaksOff {
    fn read(&mut self, buf: &mut [u8]) -> io::Result<usize> {
        if self.has_read || buf.is_empty() {
            return Err(io::Error::from(io::ErrorKind::BrokenPipe));
        }
        buf[0] = b'a';
        self.has_read = true;
        Ok(1)
    }
}

#[test]
fn takes_from_a_reader(rt: HostRuntime) -> Result<(), Fail> {
    let alloc = rt.alloc();
    let bytes = long_bytes(alloc)?;
    // The pieces have 4096 and 904 bytes in turn.
    let reader = BufReader::with_capacity(alloc, 5000, bytes.as_slice())?;
    let mut source = HostSource::new(reader);
    assert!(rt; takes(alloc, &mut source, usize::MAX, &bytes));
    let mut broken = HostSource::new(BreaksOff { has_read: false });
    assert!(rt; take_faults(alloc, &mut broken, 9));
    Ok(())
}

// Takes at most a thousand bytes at once.
#[derive(Drop)]
struct Narrow {
    taken: Vec<u8>,
}

impl Write for Narrow {
    fn write(&mut self, buf: &[u8]) -> io::Result<usize> {
        let count = buf.len().min(1000);
        self.taken.extend_from_slice(&buf[..count])?;
        Ok(count)
    }

    fn flush(&mut self) -> io::Result<()> {
        Ok(())
    }
}

#[test]
fn gives_to_a_writer(rt: HostRuntime) -> Result<(), Fail> {
    let alloc = rt.alloc();
    let bytes = long_bytes(alloc)?;
    let mut writer = Narrow {
        taken: Vec::new(alloc),
    };
    assert!(rt; gives(&mut HostSink::new(&mut writer), &bytes));
    assert!(rt; writer.taken.as_slice() == bytes.as_slice());
    let mut room = [0; 4];
    let mut sink = HostSink::new(room.as_mut_slice());
    assert!(rt; gives(&mut sink, b"abc"));
    assert!(rt; !gives(&mut sink, b"def"), "a write that takes nothing");
    Ok(())
}

// Checks the text of an error.
fn is_told<E: fmt::Display>(
    rt: &impl Abort,
    alloc: Global,
    error: &E,
    words: &str,
) -> Result<(), AllocError> {
    let text = format!(in alloc; "{error}")?;
    assert!(rt; text.as_str() == words);
    Ok(())
}

#[test]
fn says_why(rt: HostRuntime) -> Result<(), AllocError> {
    let alloc = rt.alloc();
    is_told(&rt, alloc, &Failed, "the other side failed")?;
    is_told(&rt, alloc, &StoreFault::Fault, "the other side failed")?;
    is_told(&rt, alloc, &StoreFault::Memory, "out of memory")
}
