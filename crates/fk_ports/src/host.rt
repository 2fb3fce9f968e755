//! Files, standard input, standard output and standard error. What they give and take is trusted.
ghost use Rattle.std.specs.Prelude.{◌≡◌, ◌<◌, ◌≤◌, IfOk, IsOkUnless, None, OnErr, OnOk};
ghost use Rattle.std.specs.Prelude.{if◌then◌else◌, is_err, length};
ghost use Rattle.std.specs.Io.KnownBytes.{ReadConsumes, WriteAppends};
ghost use Rattle.fk_ports.specs.Faults.{one_more};
ghost use Rattle.fk_ports.specs.Files.{AppendsAtMost};
ghost use Rattle.fk_ports.specs.Host.{reader_of, sink_faults, source_faults, store_fetch_faults};
ghost use Rattle.fk_ports.specs.Host.{store_put_faults, writer_of};

use crate::faults::{Failed, StoreFault};
use crate::sink::Sink;
use crate::source::{Source, append_or_keep};
use crate::store::Store;
use std::fs;
use std::io::{Read, Write};
use std::rt::Files;

/// The files of the system. It counts the errors of reading and those of writing separately.
#[derive(Drop)]
pub struct HostStore<R> {
    rt: R,
    fetch_faults: u64,
    put_faults: u64,
}

impl<R: Files> HostStore<R> {
    /// A store over the files of a runtime.
    pub fn new(rt: R) -> HostStore<R>
        ensures fetch_faults { store_fetch_faults result ≡ 0 }
        ensures put_faults { store_put_faults result ≡ 0 }
    {
        HostStore {
            rt,
            fetch_faults: 0,
            put_faults: 0,
        }
    }
}

impl<R: Files> Store for HostStore<R> {
    ghost fetch_faults = { store_fetch_faults };

    ghost put_faults = { store_put_faults };

    ghost files = { λ _. None };

    fn fetch(&mut self, name: &str, most: usize, into: &mut Vec<u8>) -> Result<(), StoreFault> {
        let result = read_file(&self.rt, name, most, into);
        if let Err(StoreFault::Fault) = result {
            self.fetch_faults = self.fetch_faults.saturating_add(1);
        }
        result
    }

    /// Makes these the bytes of the name. It takes no memory: each refusal is a fault.
    fn put(&mut self, name: &str, bytes: &[u8]) -> Result<(), StoreFault>
        ensures refusal { IsOkUnless result StoreFault.Fault }
        ensures faults { store_put_faults self.new ≡ (if is_err result
            then one_more (store_put_faults self.old) else store_put_faults self.old) }
        ensures never_falls { store_put_faults self.old ≤ store_put_faults self.new }
        ensures other_count { store_fetch_faults self.new ≡ store_fetch_faults self.old }
    {
        let result = write_file(&self.rt, name, bytes);
        if result.is_err() {
            self.put_faults = self.put_faults.saturating_add(1);
        }
        result
    }
}

/// The named file, to be read. Each error of the system is a fault.
fn opened<R: Files>(files: &R, name: &str) -> Result<R::File, StoreFault>
    ensures { IsOkUnless result StoreFault.Fault }
{
    Ok(fs::open(files, name)?)
}

/// Appends the first `most` bytes of the named file, or all of it where it has fewer.
fn read_file<R: Files>(
    files: &R,
    name: &str,
    most: usize,
    into: &mut Vec<u8>,
) -> Result<(), StoreFault>
    ensures at_most { OnOk result (AppendsAtMost most into.old.items into.new.items) }
    ensures kept { OnErr result (into.new.items ≡ into.old.items) }
{
    let file = opened(files, name)?;
    append_or_keep(&mut HostSource::new(file), most, into)
}

/// Makes these the bytes of the name. Each error of the system is a fault.
fn write_file<R: Files>(files: &R, name: &str, bytes: &[u8]) -> Result<(), StoreFault>
    ensures { IsOkUnless result StoreFault.Fault }
{
    Ok(fs::write(files, name, bytes)?)
}

/// A source over a reader, as standard input. It counts the errors, and tells nothing.
#[derive(Drop)]
pub struct HostSource<R> {
    reader: R,
    faults: u64,
}

impl<R: Read> HostSource<R> {
    /// A source of what a reader gives.
    pub fn new(reader: R) -> HostSource<R>
        ensures reader { reader_of result ≡ reader }
        ensures faults { source_faults result ≡ 0 }
    {
        HostSource { reader, faults: 0 }
    }
}

impl<R: Read> Source for HostSource<R> {
    ghost faults = { source_faults };

    ghost left = { λ _. None };

    /// Reads once. Each error is a fault.
    fn take(&mut self, into: &mut [u8]) -> Result<usize, Failed>
        ensures room { IfOk result (λ n. n ≤ length into.new) }
        ensures read { ReadConsumes (R.remaining (reader_of self.old))
            (R.remaining (reader_of self.new)) result into.new }
        ensures faults { source_faults self.new ≡ (if is_err result
            then one_more (source_faults self.old) else source_faults self.old) }
        ensures never_falls { source_faults self.old ≤ source_faults self.new }
    {
        match self.reader.read(into) {
            Ok(count) => Ok(count),
            Err(_) => {
                self.faults = self.faults.saturating_add(1);
                Err(Failed)
            }
        }
    }
}

/// A sink over a writer, such as standard output and standard error. It counts the errors, and a
/// write that takes nothing as one. What it took isn't known.
#[derive(Drop)]
pub struct HostSink<W> {
    writer: W,
    faults: u64,
}

impl<W: Write> HostSink<W> {
    /// A sink that gives what it takes to a writer.
    pub fn new(writer: W) -> HostSink<W>
        ensures writer { writer_of result ≡ writer }
        ensures faults { sink_faults result ≡ 0 }
    {
        HostSink { writer, faults: 0 }
    }
}

impl<W: Write> Sink for HostSink<W> {
    ghost faults = { sink_faults };

    ghost taken = { λ _. None };

    /// Writes once. Each error is a fault, and so is a write that takes nothing.
    fn give(&mut self, bytes: &[u8]) -> Result<usize, Failed>
        ensures some { IfOk result (λ n. 0 < n) }
        ensures within { IfOk result (λ n. n ≤ length bytes.now) }
        ensures written { WriteAppends (W.contents (writer_of self.old))
            (W.contents (writer_of self.new)) result bytes.now }
        ensures faults { sink_faults self.new
            ≡ (if is_err result then one_more (sink_faults self.old) else sink_faults self.old) }
        ensures never_falls { sink_faults self.old ≤ sink_faults self.new }
    {
        match self.writer.write(bytes) {
            Ok(count) if count > 0 => Ok(count),
            _ => {
                self.faults = self.faults.saturating_add(1);
                Err(Failed)
            }
        }
    }
}
