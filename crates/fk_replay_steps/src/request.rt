//! Requests.

ghost use Rattle.std.specs.Prelude.{◌≡◌, ◌+◌, ◌^◌, ◌<◌, IfOk, OnOk, reverse, slice_index, vec_len};
ghost use Rattle.fk_meaning_store.specs.View.{store_of, processors_of};
ghost use Rattle.fk_meaning.specs.Request as r;
ghost use Rattle.fk_meaning_state.specs.View.{processor_of};
ghost use Rattle.fk_replay_steps.specs.Served.{CanAsk, IsServed};

use crate::values::{drop_last, last, put_last, value_before};
use fk_meaning_operation::{FaultKind, Operation};
use fk_meaning_state::{Call, Processor};
use fk_meaning_store::{Request, Store32, serve};
use std::alloc::{AllocError, Global};
use std::mem;

/// The most bytes that a request prints.
const LINE_BYTES: u32 = 12;

/// The room that is made at once for bytes of output.
const ROOM: u32 = 4096;

/// What an operation requests.
fn request_of(operation: Operation, processor: &Processor) -> Request
    requires depth { vec_len processor.now.callers + 1 < 2 ^ 32 }
    ensures { result ≡ r.request operation (processor_of processor.now) }
{
    let value = last(processor);
    let address = value_before(processor, 1);
    match operation {
        Operation::Check(shared_alone) => Request::Check(value, shared_alone),
        Operation::Read => Request::Read(value),
        Operation::Write => Request::Write(address, value),
        Operation::Combine(by) => Request::Multi(by.kind(), address, value),
        Operation::PrintNumber => Request::Print(value),
        Operation::PrintByte => Request::Byte(value),
        Operation::Heap => Request::Heap(value),
        _ => Request::Depth(processor.callers.len() as u32 + 1),
    }
}

/// The first private words of a call, which are the last `count` values in their order. Words for
/// values that aren't there are 0.
fn arguments(alloc: Global, values: &[u32], count: usize) -> Result<Vec<u32>, AllocError>
    ensures { IfOk result (λ words.
        slice_index words.items ≡ r.arguments count (reverse values.now)) }
{
    let left = values.len().saturating_sub(count);
    let mut words = vec![in alloc; 0; count - (values.len() - left)]?;
    words.extend_from_slice(&values[left..])?;
    Ok(words)
}

/// Begins a call: its arguments become its first private words.
fn enter(alloc: Global, processor: &mut Processor, count: u32) -> Result<(), AllocError>
    ensures { OnOk result (processor_of processor.new
        ≡ r.entered count (processor_of processor.old)) }
{
    let privates = arguments(alloc, &processor.call.values, count as usize)?;
    drop_last(processor, count as usize);
    let call = Call {
        values: Vec::new(alloc),
        privates,
        frames: Vec::new(alloc),
    };
    let caller = mem::replace(&mut processor.call, call);
    processor.callers.push(caller)?;
    Ok(())
}

/// What a processor does with the answer to its request.
fn take_answer(
    alloc: Global,
    operation: Operation,
    answer: u32,
    processor: &mut Processor,
) -> Result<(), AllocError>
    ensures { OnOk result (processor_of processor.new
        ≡ r.with_answer operation answer (processor_of processor.old)) }
{
    match operation {
        Operation::Read | Operation::Heap => put_last(processor, answer),
        Operation::Write | Operation::Combine(_) => {
            drop_last(processor, 1);
            put_last(processor, answer)
        }
        Operation::PrintNumber | Operation::PrintByte => {
            drop_last(processor, 1);
            Ok(())
        }
        Operation::Enter(count) => enter(alloc, processor, count),
        _ => Ok(()),
    }
}

/// Does a request of a processor, or gives the fault with which it is refused.
pub fn do_request(
    alloc: Global,
    store: &mut Store32,
    operation: Operation,
    processor: &mut Processor,
) -> Result<Result<(), FaultKind>, AllocError>
    requires depth { vec_len processor.old.callers + 1 < 2 ^ 32 }
    requires number { processor.old.number < processors_of store.old }
    requires known { CanAsk operation (processor_of processor.old) }
    ensures served { IfOk result (IsServed operation (store_of store.old) (store_of store.new)
        (processor_of processor.old) (processor_of processor.new)) }
    ensures processors { processors_of store.new ≡ processors_of store.old }
{
    if store.spare() < LINE_BYTES {
        store.reserve(ROOM)?;
    }
    match serve(store, request_of(operation, processor), processor.number) {
        Ok(answer) => take_answer(alloc, operation, answer, processor)?,
        Err(fault) => return Ok(Err(fault)),
    }
    Ok(Ok(()))
}
