//! Serving requests.

ghost use Rattle.std.specs.Prelude.{◌≡◌, ◌<◌, IsTrue, OnErr, if◌then◌else◌};
ghost use Rattle.fk_meaning_store.specs.Serve.{serve as served_by, can_serve, combined};
ghost use Rattle.fk_meaning_store.specs.Serve.{words_of as words_in, operator_of as operator_by};
ghost use Rattle.fk_meaning_store.specs.Serve.{Served};
ghost use Rattle.fk_meaning_store.specs.View.{store_of, processors_of, room_of, answer_of};
ghost use Rattle.fk_meaning_store.specs.View.{KeepsRoom};
ghost use Rattle.fk_meaning_operation.specs.Kinds.{multiprefix_of};

use crate::addresses::may_use;
use crate::request::Request;
use crate::store::Store32;
use fk_meaning_operation::{FaultKind, Multiprefix};
use fk_num::{Op, apply};

/// The depth at which a function can't begin a call.
const DEEPEST: u32 = 256;

/// The number of bytes of a word.
const WORD_BYTES: u32 = 4;

/// Serves one request of a processor, or returns its fault, which changes nothing. It takes no
/// memory. The answer is the word for a read, the value for a write, the former word for a
/// multiprefix, the address or 0 for a block, and 0 for all others.
pub fn serve(store: &mut Store32, request: Request, processor: u32) -> Result<u32, FaultKind>
    requires processor { processor < processors_of store.old }
    requires request { IsTrue (can_serve (room_of store.old) request) }
    ensures served { answer_of result (store_of store.new)
        ≡ served_by request (store_of store.old) processor }
    ensures fault { OnErr result (store_of store.new ≡ store_of store.old) }
    ensures room { KeepsRoom store.old store.new }
{
    match request {
        Request::Read(address) => Ok(store.read(address, processor)),
        Request::Write(address, value) => {
            store.write(address, processor, value);
            Ok(value)
        }
        Request::Multi(kind, address, value) => {
            Ok(combine(store, kind, address, value, processor))
        }
        Request::Print(word) => {
            store.print_number(word);
            Ok(0)
        }
        Request::Byte(word) => {
            store.print_byte(word);
            Ok(0)
        }
        Request::Heap(bytes) => Ok(store.hire(words_of(bytes))),
        Request::Check(address, shared_alone) => check(
            may_use(shared_alone, address),
            FaultKind::BadAddress,
        ),
        Request::Depth(depth) => check(depth < DEEPEST, FaultKind::CallDepth),
    }
}

// The answer 0 if a check holds, else a fault.
fn check(holds: bool, kind: FaultKind) -> Result<u32, FaultKind>
    ensures { result ≡ (if holds then Ok 0 else Err kind) }
{
    if holds { Ok(0) } else { Err(kind) }
}

// The number of words of a size in bytes, which is read as a signed number; 0 if that is negative.
fn words_of(bytes: u32) -> u32
    ensures { result ≡ words_in bytes }
{
    if bytes < 1 << 31 {
        bytes.div_ceil(WORD_BYTES)
    } else {
        0
    }
}

fn operator_of(by: Multiprefix) -> Op
    ensures { result ≡ operator_by by }
{
    match by {
        Multiprefix::MpAdd => Op::Add,
        Multiprefix::MpMax => Op::MaxS,
        Multiprefix::MpAnd => Op::And,
        Multiprefix::MpOr => Op::Or,
    }
}

// Does a multiprefix on the word at an address. Returns the former word.
fn combine(store: &mut Store32, kind: u8, address: u32, value: u32, processor: u32) -> u32
    requires processor { processor < processors_of store.old }
    requires request { IsTrue (can_serve (room_of store.old) (Request.Multi kind address value)) }
    ensures word { Served (store_of store.new) result
        ≡ combined (multiprefix_of kind) (store_of store.old) processor address value }
    ensures room { KeepsRoom store.old store.new }
{
    let Some(by) = Multiprefix::of_kind(kind) else {
        return 0;
    };
    let former = store.read(address, processor);
    store.write(address, processor, apply(operator_of(by), former, value));
    former
}
