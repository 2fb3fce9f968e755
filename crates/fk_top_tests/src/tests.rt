//! A whole call over objects that never fail. All other calls are in `tools/commands.py`, also
//! those over files, inputs and outputs that fail.

ghost use Rattle.std.specs.Prelude.{◌≢◌};

use fk_ports::{MemSink, SureSink, SureSource, SureStore};
use fk_top::{Status, fork95};
use std::alloc::{AllocError, Global};
use std::test::Fail;

const RUN: [&str; 6] = ["run", "five", "--harts", "2", "--cycles", "9999"];

fn owned(alloc: Global, words: &[&str]) -> Result<Vec<String>, AllocError> {
    let mut all = Vec::new(alloc);
    for word in words {
        all.push(String::from_str(alloc, word)?)?;
    }
    Ok(all)
}

// Runs a call over a store, a source and sinks that never fail. It returns no fault of these.
fn call_surely(
    alloc: Global,
    words: &[String],
    files: &mut SureStore,
    input: &mut SureSource,
    out: &mut SureSink,
    err: &mut SureSink,
) -> Status
    ensures reads { result ≢ Status.ReadFault }
    ensures writes { result ≢ Status.WriteFault }
{
    fork95(alloc, words, files, input, out, err)
}

#[test]
fn a_call_that_meets_no_fault_is_done(rt: HostRuntime) -> Result<(), Fail> {
    let alloc = rt.alloc();
    let words = owned(alloc, &RUN)?;
    let mut files = SureStore::new(b"void main(void) { }".to_vec(alloc)?);
    let mut input = SureSource::new(Vec::new(alloc));
    let (mut out, mut err) = (SureSink::new(), SureSink::new());
    let status = call_surely(alloc, &words, &mut files, &mut input, &mut out, &mut err);
    assert_eq!(rt; status, Status::Done);
    Ok(())
}

const PRINT: [&str; 6] = ["run", "two", "--harts", "1", "--cycles", "9999"];

// Runs a program that prints two lines, with an output that has room for so many bytes and that
// fails in these calls. It returns the status and what the output took.
fn printed(alloc: Global, room: usize, fails: Vec<u64>) -> Result<(Status, MemSink), AllocError> {
    let words = owned(alloc, &PRINT)?;
    let source = b"void main(void) { putint(1); putint(2); }".to_vec(alloc)?;
    let mut files = SureStore::new(source);
    let mut input = SureSource::new(Vec::new(alloc));
    let mut out = MemSink::new(alloc, room, fails)?;
    let mut err = SureSink::new();
    let status = fork95(alloc, &words, &mut files, &mut input, &mut out, &mut err);
    Ok((status, out))
}

#[test]
fn output_goes_as_far_as_there_is_room(rt: HostRuntime) -> Result<(), Fail> {
    let alloc = rt.alloc();
    let (status, out) = printed(alloc, 3, Vec::new(alloc))?;
    assert_eq!(rt; status, Status::WriteFault);
    assert!(rt; out.bytes() == b"1\n2".as_slice());
    Ok(())
}

#[test]
fn each_cycle_gives_its_bytes(rt: HostRuntime) -> Result<(), Fail> {
    let alloc = rt.alloc();
    let (status, out) = printed(alloc, 9, [2].to_vec(alloc)?)?;
    assert_eq!(rt; status, Status::WriteFault);
    assert!(rt; out.bytes() == b"1\n".as_slice());
    Ok(())
}
