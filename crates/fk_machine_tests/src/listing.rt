//! Tests of the texts of instructions.
use fk_asm::listing::{listing, listing_line};
use std::process::Abort;

mod texts;

use texts::TEXTS;

// Words of images, and one that isn't an instruction.
static IN_IMAGES: [(u32, &[u8]); 3] = [
    (0x3000_02b7, b"lui t0, 0x30000"),
    (0x0002_a623, b"sw zero, 12(t0)"),
    (0, b".word 0x00000000"),
];

// Checks the texts of words.
fn have_texts(rt: &impl Abort, texts: &[(u32, &[u8])]) {
    for (word, text) in texts {
        assert!(rt; listing(*word).as_slice() == *text, "of {word:x}");
    }
}

#[test]
fn writes_what_objdump_reads(rt: HostRuntime) {
    have_texts(&rt, &IN_IMAGES);
    have_texts(&rt, &TEXTS);
}

#[test]
fn writes_a_line(rt: HostRuntime) {
    let line = listing_line(0, 0x00b6_252f);
    assert!(rt; line.as_slice() == b"00000000: 00b6252f  amoadd.w a0, a1, (a2)\n".as_slice());
}
