ghost use Rattle.std.specs.Prelude.{◌<◌, IsTrue};
ghost use Rattle.fk_meaning_store.specs.Serve.{can_serve};
ghost use Rattle.fk_meaning_store.specs.View.{KeepsRoom, processors_of, room_of};

use fk_meaning_operation::FaultKind;
use fk_meaning_store::{Request, Store32, serve};
use std::alloc::AllocError;
use std::process::Abort;

const WORD_0: u32 = 0x1000_0000;

const LAST_WORD: u32 = 0x103F_FFFC;

const HEAP_0: u32 = 0x2001_0000;

const LAST_OF_HEAP: u32 = 0x2001_FFFC;

// Checks the answer to a processor's request.
pub(crate) fn answers(
    rt: &impl Abort,
    store: &mut Store32,
    request: Request,
    processor: u32,
    answer: Result<u32, FaultKind>,
)
    requires processor { processor < processors_of store.old }
    requires request { IsTrue (can_serve (room_of store.old) request) }
    ensures { KeepsRoom store.old store.new }
{
    assert!(rt; serve(store, request, processor) == answer);
}

#[test]
fn an_opening_has_the_globals_and_the_input(rt: HostRuntime) -> Result<(), AllocError> {
    let mut store = Store32::new(rt.alloc(), &[5, 6], &[7], 2)?;
    assert!(rt; store.processors() == 2);
    answers(&rt, &mut store, Request::Read(WORD_0 + 4), 0, Ok(6));
    answers(&rt, &mut store, Request::Read(WORD_0 + 8), 0, Ok(7));
    answers(&rt, &mut store, Request::Read(LAST_WORD), 1, Ok(0));
    // 3 words are taken, and the group space has 524,286 of the other 1,048,573.
    let block = WORD_0 + 4 * 524_289;
    answers(&rt, &mut store, Request::Heap(1), 0, Ok(block));
    Ok(())
}

#[test]
fn a_private_heap_is_ones_own(rt: HostRuntime) -> Result<(), AllocError> {
    let mut store = Store32::new(rt.alloc(), &[], &[], 2)?;
    assert!(rt; store.processors() == 2);
    answers(&rt, &mut store, Request::Write(LAST_OF_HEAP, 9), 0, Ok(9));
    answers(&rt, &mut store, Request::Write(HEAP_0, 8), 1, Ok(8));
    answers(&rt, &mut store, Request::Read(LAST_OF_HEAP), 0, Ok(9));
    answers(&rt, &mut store, Request::Read(LAST_OF_HEAP), 1, Ok(0));
    answers(&rt, &mut store, Request::Read(HEAP_0), 0, Ok(0));
    Ok(())
}

#[test]
fn a_multiprefix_answers_the_former_word(rt: HostRuntime) -> Result<(), AllocError> {
    let mut store = Store32::new(rt.alloc(), &[5], &[], 1)?;
    assert!(rt; store.processors() == 1);
    answers(&rt, &mut store, Request::Multi(15, WORD_0, 2), 0, Ok(5));
    // The greater one of 7 and -1 as signed numbers, then 7 & 12, then 4 | 3.
    answers(
        &rt,
        &mut store,
        Request::Multi(16, WORD_0, 0xFFFF_FFFF),
        0,
        Ok(7),
    );
    answers(&rt, &mut store, Request::Multi(17, WORD_0, 12), 0, Ok(7));
    answers(&rt, &mut store, Request::Multi(18, WORD_0, 3), 0, Ok(4));
    answers(&rt, &mut store, Request::Read(WORD_0), 0, Ok(7));
    Ok(())
}

// Checks the answer to the only processor for each address.
fn are_checked(
    rt: &impl Abort,
    store: &mut Store32,
    addresses: &[u32],
    shared_alone: bool,
    answer: Result<u32, FaultKind>,
) {
    for address in addresses {
        assert!(rt; store.processors() == 1);
        answers(rt, store, Request::Check(*address, shared_alone), 0, answer);
    }
}

#[test]
fn addresses_that_may_be_used(rt: HostRuntime) -> Result<(), AllocError> {
    let mut store = Store32::new(rt.alloc(), &[], &[], 1)?;
    let bad = Err(FaultKind::BadAddress);
    are_checked(&rt, &mut store, &[WORD_0, LAST_WORD], true, Ok(0));
    are_checked(&rt, &mut store, &[HEAP_0, LAST_OF_HEAP], false, Ok(0));
    are_checked(&rt, &mut store, &[HEAP_0, LAST_OF_HEAP], true, bad);
    // 0, an address between two words, the word after the last one, shared control, and the words
    // before and after the private heap.
    let others = [
        0,
        WORD_0 + 2,
        LAST_WORD + 4,
        0x1800_0000,
        HEAP_0 - 4,
        LAST_OF_HEAP + 4,
    ];
    are_checked(&rt, &mut store, &others, false, bad);
    Ok(())
}

#[test]
fn calls_have_a_depth(rt: HostRuntime) -> Result<(), AllocError> {
    let mut store = Store32::new(rt.alloc(), &[], &[], 1)?;
    assert!(rt; store.processors() == 1);
    answers(&rt, &mut store, Request::Depth(255), 0, Ok(0));
    answers(
        &rt,
        &mut store,
        Request::Depth(256),
        0,
        Err(FaultKind::CallDepth),
    );
    Ok(())
}

#[test]
fn output_takes_the_room_that_was_reserved(rt: HostRuntime) -> Result<(), AllocError> {
    let mut store = Store32::new(rt.alloc(), &[], &[], 1)?;
    store.reserve(25)?;
    assert!(rt; store.processors() == 1);
    assert!(rt; store.spare() >= 25);
    answers(&rt, &mut store, Request::Print(1 << 31), 0, Ok(0));
    assert!(rt; store.processors() == 1 && store.spare() >= 12);
    answers(&rt, &mut store, Request::Print(0), 0, Ok(0));
    assert!(rt; store.processors() == 1 && store.spare() >= 1);
    answers(&rt, &mut store, Request::Byte(0x141), 0, Ok(0));
    store.reserve(1)?;
    assert!(rt; store.output() == b"-2147483648\n0\nA".as_slice());
    Ok(())
}

// Checks the blocks that the only processor gets for requests of these numbers of bytes.
fn gives_blocks(rt: &impl Abort, store: &mut Store32, blocks: &[(u32, u32)]) {
    for (bytes, block) in blocks {
        assert!(rt; store.processors() == 1);
        answers(rt, store, Request::Heap(*bytes), 0, Ok(*block));
    }
}

#[test]
fn the_heap_fills(rt: HostRuntime) -> Result<(), AllocError> {
    // 524,288 words: sizes are rounded up, and a size of 0 or less gives no block.
    let blocks = [
        (0, 0),
        (0xFFFF_FFFF, 0),
        (2_097_148, WORD_0 + 4 * 524_288),
        (1, WORD_0 + 4 * 1_048_575),
        (1, 0),
        (4, 0),
    ];
    let mut store = Store32::new(rt.alloc(), &[], &[], 1)?;
    gives_blocks(&rt, &mut store, &blocks);
    // A block that doesn't fit makes the heap full.
    let mut store = Store32::new(rt.alloc(), &[], &[], 1)?;
    gives_blocks(&rt, &mut store, &[(0x7FFF_FFFF, 0), (4, 0)]);
    Ok(())
}
