//! Local operations.

ghost use Rattle.std.specs.Prelude.{◌≡◌, ◌+◌, ◌*◌, IsTrue, OnOk, true};
ghost use Rattle.fk_num.specs.Op as op;
ghost use Rattle.fk_num.specs.Word.{word};
ghost use Rattle.fk_meaning.specs.Processor as p;
ghost use Rattle.fk_meaning.specs.Local as l;
ghost use Rattle.fk_meaning_store.specs.Store as memory;
ghost use Rattle.fk_meaning_store.specs.Serve as served;
ghost use Rattle.fk_meaning_state.specs.View.{processor_of, setting_of};
ghost use Rattle.fk_replay_steps.specs.Steps.{CanGiveBack, GivesBack};

use crate::values::{drop_last, last, push, put_last, put_word, value_before, word_in};
use fk_meaning_operation::{Operation, OwnValue, Unary, Variable};
use fk_meaning_state::{Processor, Setting};
use fk_num::{Op, apply};
use fk_space::Space;
use std::alloc::AllocError;

/// The address of the first word of shared data.
const SHARED: u32 = 0x1000_0000;

/// The address of the first word of every private heap.
const PRIVATE: u32 = 0x2001_0000;

/// The number of words of a private heap.
const PRIVATE_WORDS: u32 = 16_384;

const WORD_BYTES: u32 = 4;

/// The address of a word of shared data.
pub(crate) fn address_of(index: u32) -> u32
    ensures { result ≡ word (memory.address_of index) }
{
    SHARED.wrapping_add(index.wrapping_mul(WORD_BYTES))
}

/// The number of words of a size in bytes, which is read as a signed number.
pub(crate) fn words_of(bytes: u32) -> u32
    ensures { result ≡ served.words_of bytes }
{
    if bytes < 1 << 31 {
        bytes.div_ceil(WORD_BYTES)
    } else {
        0
    }
}

fn variable_of(processor: &Processor, variable: Variable) -> u32
    ensures { result ≡ l.value_of (processor_of processor.now) variable }
{
    match variable {
        Variable::Private(index) => word_in(&processor.call.privates, index),
        Variable::OfFile(index) => word_in(&processor.own, index),
    }
}

fn known(setting: Setting, processor: &Processor, value: OwnValue) -> u32
    ensures { result ≡ l.known (setting_of setting) (processor_of processor.now) value }
{
    match value {
        OwnValue::Value(variable) => variable_of(processor, variable),
        OwnValue::Rank => processor.level.rank,
        OwnValue::GroupNumber => processor.level.number,
        OwnValue::ProcessorNumber => processor.number,
        OwnValue::Processors => setting.processors,
        OwnValue::GroupSize => processor.level.size,
        OwnValue::InputLength => setting.inputs,
        OwnValue::FrameAddress(nesting, word) => {
            address_of(word_in(&processor.call.frames, nesting).wrapping_add(word))
        }
        OwnValue::InputAddress => address_of(setting.globals),
    }
}

fn store(processor: &mut Processor, variable: Variable, word: u32) -> Result<(), AllocError>
    ensures { OnOk result (processor_of processor.new
        ≡ l.stored word variable (processor_of processor.old)) }
{
    match variable {
        Variable::Private(index) => put_word(&mut processor.call.privates, index, word),
        Variable::OfFile(index) => put_word(&mut processor.own, index, word),
    }
}

fn applied(sign: Unary, word: u32) -> u32
    ensures { result ≡ l.applied_to sign word }
{
    match sign {
        Unary::Negate => apply(Op::Sub, 0, word),
        Unary::Complement => apply(Op::Xor, word, u32::MAX),
        Unary::Not => apply(Op::Eq, word, 0),
    }
}

/// Two values are replaced by one.
fn binary(processor: &mut Processor, sign: Op, turned: bool) -> Result<(), AllocError>
    ensures { OnOk result (processor_of processor.new
        ≡ p.with_values (processor_of processor.old)
        (l.joined (l.in_order turned (op.applied sign)) (p.values (processor_of processor.old)))) }
{
    if processor.call.values.len() < 2 {
        return Ok(());
    }
    let (a, b) = (value_before(processor, 1), value_before(processor, 0));
    drop_last(processor, 2);
    push(
        processor,
        if turned {
            apply(sign, b, a)
        } else {
            apply(sign, a, b)
        },
    )
}

/// An address and an index are replaced by the address of an element.
fn index(processor: &mut Processor, size: u32) -> Result<(), AllocError>
    ensures { OnOk result (processor_of processor.new
        ≡ p.with_values (processor_of processor.old)
        (l.joined (λ address i. word (address + i * size))
        (p.values (processor_of processor.old)))) }
{
    if processor.call.values.len() < 2 {
        return Ok(());
    }
    let (address, at) = (value_before(processor, 1), value_before(processor, 0));
    drop_last(processor, 2);
    push(processor, address.wrapping_add(at.wrapping_mul(size)))
}

/// `malloc`.
fn take(processor: &mut Processor) -> Result<(), AllocError>
    ensures { OnOk result (processor_of processor.new
        ≡ l.taken (served.words_of (p.last (p.values (processor_of processor.old))))
        (processor_of processor.old)) }
{
    let words = words_of(last(processor));
    let top = processor.top;
    if words == 0 || PRIVATE_WORDS.saturating_sub(top) < words {
        return put_last(processor, 0);
    }
    processor.top = top + words;
    put_last(processor, PRIVATE + top * WORD_BYTES)
}

/// Gives back the frames that the running call took.
fn give_back(processor: &mut Processor)
    requires back { CanGiveBack (processor_of processor.old) }
    ensures { processor_of processor.new ≡ l.unframed true (processor_of processor.old) }
{
    let frames = word_in(&processor.call.frames, 0);
    processor.level.space = Space {
        frames,
        ..processor.level.space
    };
}

/// The end of a call.
fn leave(processor: &mut Processor, gives: bool, framed: bool) -> Result<(), AllocError>
    requires back { IsTrue framed → CanGiveBack (processor_of processor.old) }
    ensures { OnOk result (processor_of processor.new
        ≡ l.to_caller gives (p.last (p.values (processor_of processor.old)))
        (l.unframed framed (processor_of processor.old)) (processor_of processor.old).callers) }
{
    let value = last(processor);
    if framed {
        give_back(processor);
    }
    let Some(caller) = processor.callers.pop() else {
        return Ok(());
    };
    processor.call = caller;
    if gives {
        push(processor, value)
    } else {
        Ok(())
    }
}

/// Whether a local operation takes its first way.
pub fn is_onward(operation: Operation, processor: &Processor) -> bool
    ensures { result ≡ l.is_onward operation (processor_of processor.now) }
{
    match operation {
        Operation::Branch(onward) => (last(processor) != 0) == onward,
        _ => true,
    }
}

/// Does a local operation.
pub fn do_local(
    setting: Setting,
    operation: Operation,
    processor: &mut Processor,
) -> Result<(), AllocError>
    requires back { GivesBack operation (processor_of processor.old) }
    ensures { OnOk result (processor_of processor.new
        ≡ l.local (setting_of setting) operation (processor_of processor.old)) }
{
    match operation {
        Operation::Push(number) => push(processor, number),
        Operation::Get(value) => {
            let word = known(setting, processor, value);
            push(processor, word)
        }
        Operation::Set(variable) => {
            let word = last(processor);
            store(processor, variable, word)
        }
        Operation::DropLast | Operation::Branch(_) => {
            drop_last(processor, 1);
            Ok(())
        }
        Operation::CopyLast => {
            let word = last(processor);
            push(processor, word)
        }
        Operation::Apply(sign) => {
            let word = applied(sign, last(processor));
            put_last(processor, word)
        }
        Operation::Binary(sign, turned) => binary(processor, sign, turned),
        Operation::Index(size) => index(processor, size),
        Operation::Take => take(processor),
        Operation::Leave { gives, framed } => leave(processor, gives, framed),
        _ => Ok(()),
    }
}
