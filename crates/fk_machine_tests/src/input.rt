//! Tables of input texts, made by hand from the rule of input texts.
use fk_top_input::{InputFault, read_input};
use std::alloc::{AllocError, Global};
use std::process::Abort;
use std::test::Fail;

static NUMBERS: [(&[u8], &[u32]); 7] = [
    (b"", &[]),
    (b" \t\r\n ", &[]),
    (b"1 2\t3\r\n4\n\n5", &[1, 2, 3, 4, 5]),
    (b"-1 -0 0 -2147483648", &[0xffff_ffff, 0, 0, 0x8000_0000]),
    (b"4294967295 2147483648", &[0xffff_ffff, 0x8000_0000]),
    (b"007 -00000000000000000000001", &[7, 0xffff_ffff]),
    (b"  12", &[12]),
];

// Each text has the greatest number of numbers that is allowed.
static FAULTS: [(&[u8], u32, InputFault); 16] = [
    (b"12 x", 9, InputFault::NotANumber(2)),
    (b"4294967296", 9, InputFault::OutOfRange(1)),
    (b"1 -2147483649 x", 9, InputFault::OutOfRange(2)),
    (b"99999999999999999999999999", 9, InputFault::OutOfRange(1)),
    (b"-99999999999999999999999999", 9, InputFault::OutOfRange(1)),
    (b"-", 9, InputFault::NotANumber(1)),
    (b"- 1", 9, InputFault::NotANumber(1)),
    (b"+1", 9, InputFault::NotANumber(1)),
    (b"--1", 9, InputFault::NotANumber(1)),
    (b"1-", 9, InputFault::NotANumber(1)),
    (b"0x10", 9, InputFault::NotANumber(1)),
    (b"1 2\x0c3", 9, InputFault::NotANumber(2)),
    (b"1 2 3", 2, InputFault::TooMany(3)),
    (b"1 2 x", 2, InputFault::TooMany(3)),
    (b"1 x 3", 2, InputFault::NotANumber(2)),
    (b"x", 0, InputFault::TooMany(1)),
];

// Whether a text is read as these numbers.
fn is_read(alloc: Global, text: &[u8], numbers: &[u32]) -> Result<bool, InputFault> {
    Ok(read_input(alloc, text, 65_536)?.as_slice() == numbers)
}

#[test]
fn numbers_are_read_in_order(rt: HostRuntime) -> Result<(), InputFault> {
    for (text, numbers) in &NUMBERS {
        assert!(rt; is_read(rt.alloc(), text, numbers)?, "{text:?}");
    }
    Ok(())
}

// Whether a text has this fault if at most `limit` numbers are allowed.
fn has_fault(alloc: Global, text: &[u8], limit: u32, fault: InputFault) -> bool {
    read_input(alloc, text, limit).err() == Some(fault)
}

#[test]
fn the_first_word_at_fault_counts(rt: HostRuntime) {
    for (text, limit, fault) in &FAULTS {
        assert!(rt; has_fault(rt.alloc(), text, *limit, *fault), "{text:?}");
    }
}

// A text of `count` copies of this piece.
pub(crate) fn repeated(alloc: Global, piece: &[u8], count: u32) -> Result<Vec<u8>, AllocError> {
    let mut text = Vec::new(alloc);
    for _ in 0..count {
        text.extend_from_slice(piece)?;
    }
    Ok(text)
}

// Whether a text is read as `count` numbers, where no more are allowed.
fn has_count(alloc: Global, text: &[u8], count: u32) -> Result<bool, InputFault> {
    Ok(read_input(alloc, text, count)?.len() == count as usize)
}

// Checks that a text has `numbers` numbers, and that with one more byte it has a fault.
fn are_as_many(
    rt: &impl Abort,
    alloc: Global,
    text: &mut Vec<u8>,
    numbers: u32,
    more: u8,
    fault: InputFault,
) -> Result<(), Fail> {
    assert!(rt; has_count(alloc, text, numbers)?);
    text.push(more)?;
    assert!(rt; has_fault(alloc, text, 65_536, fault));
    Ok(())
}

#[test]
fn a_long_text_is_too_many(rt: HostRuntime) -> Result<(), Fail> {
    let alloc = rt.alloc();
    let mut zeros = repeated(alloc, b"0 ", 65_536)?;
    are_as_many(
        &rt,
        alloc,
        &mut zeros,
        65_536,
        b'x',
        InputFault::TooMany(65_537),
    )?;
    let mut blanks = repeated(alloc, b" ", 1_048_576)?;
    are_as_many(&rt, alloc, &mut blanks, 0, b' ', InputFault::TooMany(0))
}
