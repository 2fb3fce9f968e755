//! Tests of the operators and of decimal texts.
use fk_num::{Op, apply, read_unsigned, signed_text, unsigned_text};
use std::process::Abort;

// From the suites rv32um and rv32ui of riscv-tests: the operator, its operands and the resulting
// word.
const RISCV_TESTS: [(Op, u32, u32, u32); 41] = [
    (Op::Mul, 0x0000_7e00, 0xb6db_6db7, 0x0000_1200),
    (Op::Mul, 0xaaaa_aaab, 0x0002_fe7d, 0x0000_ff7f),
    (Op::Mul, 0xffff_ffff, 0xffff_ffff, 0x0000_0001),
    (Op::MulHS, 0x8000_0000, 0xffff_8000, 0x0000_4000),
    (Op::MulHS, 0xaaaa_aaab, 0x0002_fe7d, 0xffff_0081),
    (Op::MulHS, 0xff00_0000, 0xff00_0000, 0x0001_0000),
    (Op::MulHS, 0xffff_ffff, 0x0000_0001, 0xffff_ffff),
    (Op::MulHSU, 0x8000_0000, 0xffff_8000, 0x8000_4000),
    (Op::MulHSU, 0x0002_fe7d, 0xaaaa_aaab, 0x0001_fefe),
    (Op::MulHSU, 0xff00_0000, 0xff00_0000, 0xff01_0000),
    (Op::MulHSU, 0xffff_ffff, 0xffff_ffff, 0xffff_ffff),
    (Op::MulHU, 0x8000_0000, 0xffff_8000, 0x7fff_c000),
    (Op::MulHU, 0xaaaa_aaab, 0x0002_fe7d, 0x0001_fefe),
    (Op::MulHU, 0xffff_ffff, 0xffff_ffff, 0xffff_fffe),
    (Op::DivS, 0xffff_ffec, 0x0000_0006, 0xffff_fffd),
    (Op::DivS, 0x0000_0014, 0xffff_fffa, 0xffff_fffd),
    (Op::DivS, 0xffff_ffec, 0xffff_fffa, 0x0000_0003),
    (Op::DivS, 0x8000_0000, 0xffff_ffff, 0x8000_0000),
    (Op::DivS, 0x8000_0000, 0x0000_0000, 0xffff_ffff),
    (Op::DivU, 0xffff_ffec, 0x0000_0006, 0x2aaa_aaa7),
    (Op::DivU, 0x8000_0000, 0xffff_ffff, 0x0000_0000),
    (Op::DivU, 0x8000_0000, 0x0000_0000, 0xffff_ffff),
    (Op::RemS, 0xffff_ffec, 0x0000_0006, 0xffff_fffe),
    (Op::RemS, 0x0000_0014, 0xffff_fffa, 0x0000_0002),
    (Op::RemS, 0xffff_ffec, 0xffff_fffa, 0xffff_fffe),
    (Op::RemS, 0x8000_0000, 0xffff_ffff, 0x0000_0000),
    (Op::RemS, 0x8000_0000, 0x0000_0000, 0x8000_0000),
    (Op::RemU, 0xffff_ffec, 0x0000_0006, 0x0000_0002),
    (Op::RemU, 0x0000_0014, 0xffff_fffa, 0x0000_0014),
    (Op::RemU, 0x8000_0000, 0x0000_0000, 0x8000_0000),
    (Op::Sub, 0x0000_0000, 0xffff_8000, 0x0000_8000),
    (Op::Xor, 0xff00_ff00, 0x0f0f_0f0f, 0xf00f_f00f),
    (Op::Or, 0xff00_ff00, 0x0f0f_0f0f, 0xff0f_ff0f),
    (Op::And, 0xff00_ff00, 0x0f0f_0f0f, 0x0f00_0f00),
    (Op::Shl, 0x2121_2121, 0xffff_ffce, 0x4848_4000),
    (Op::ShrU, 0x2121_2121, 0xffff_ffce, 0x0000_8484),
    (Op::ShrS, 0x8181_8181, 0xffff_ffce, 0xfffe_0606),
    (Op::LtS, 0x8000_0000, 0x0000_7fff, 0x0000_0001),
    (Op::LtS, 0x7fff_ffff, 0xffff_8000, 0x0000_0000),
    (Op::LtU, 0x8000_0000, 0x0000_7fff, 0x0000_0000),
    (Op::LtU, 0x7fff_ffff, 0xffff_8000, 0x0000_0001),
];

const LEAST: u32 = 0x8000_0000;

const GREATEST: u32 = 0x7fff_ffff;

const COMPARED_BY_SIGN: [(Op, u32, u32, u32); 8] = [
    (Op::MinS, GREATEST, LEAST, LEAST),
    (Op::MaxS, GREATEST, LEAST, GREATEST),
    (Op::MinU, GREATEST, LEAST, GREATEST),
    (Op::MaxU, GREATEST, LEAST, LEAST),
    (Op::LeS, LEAST, GREATEST, 1),
    (Op::LeU, LEAST, GREATEST, 0),
    (Op::Eq, LEAST, LEAST, 1),
    (Op::Ne, LEAST, LEAST, 0),
];

// Checks the word that each operator gives.
fn give(rt: &impl Abort, rows: &[(Op, u32, u32, u32)]) {
    for (op, a, b, given) in rows {
        assert!(rt; apply(*op, *a, *b) == *given, "{a:x} and {b:x}");
    }
}

#[test]
fn gives_what_riscv_tests_expect(rt: HostRuntime) {
    give(&rt, &RISCV_TESTS);
}

#[test]
fn compares_and_chooses_by_sign(rt: HostRuntime) {
    give(&rt, &COMPARED_BY_SIGN);
}

// Words with their signed values in decimal.
static SIGNED: [(u32, &[u8]); 4] = [
    (0, b"0"),
    (0x7fff_ffff, b"2147483647"),
    (0x8000_0000, b"-2147483648"),
    (0xffff_ffff, b"-1"),
];

#[test]
fn prints_decimal(rt: HostRuntime) {
    for (word, text) in &SIGNED {
        assert!(rt; signed_text(*word).as_slice() == *text, "{word:x}");
    }
    assert!(rt; unsigned_text(0xffff_ffff).as_slice() == b"4294967295".as_slice());
}

// Texts, and the words as which they are read, if they can be read.
static READ: [(&[u8], Option<u32>); 4] = [
    (b"00000000004294967295", Some(0xffff_ffff)),
    (b"4294967296", None),
    (b"", None),
    (b"+1", None),
];

#[test]
fn reads_decimal(rt: HostRuntime) {
    for (text, word) in &READ {
        assert!(rt; read_unsigned(text) == *word, "{text:?}");
    }
}
