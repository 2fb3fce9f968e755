//! Tests of a step, with words of the GNU assembler.
ghost use Rattle.std.specs.Prelude.{◌<◌};

use fk_isa::{Effect, FlatMemory, Hart, decode, step};
use std::process::Abort;

// From the suite rv32um of riscv-tests: a word with rd x3, rs1 x1 and rs2 x2, the values of x1 and
// x2, and the resulting value of x3.
const PRODUCTS: [(u32, u32, u32, u32); 16] = [
    (0x0220_81b3, 0xaaaa_aaab, 0x0002_fe7d, 0x0000_ff7f), // mul
    (0x0220_81b3, 0xffff_ffff, 0xffff_ffff, 0x0000_0001),
    (0x0220_91b3, 0xaaaa_aaab, 0x0002_fe7d, 0xffff_0081), // mulh
    (0x0220_91b3, 0xff00_0000, 0xff00_0000, 0x0001_0000),
    (0x0220_a1b3, 0x8000_0000, 0xffff_8000, 0x8000_4000), // mulhsu
    (0x0220_a1b3, 0xffff_ffff, 0xffff_ffff, 0xffff_ffff),
    (0x0220_b1b3, 0x8000_0000, 0xffff_8000, 0x7fff_c000), // mulhu
    (0x0220_b1b3, 0xffff_ffff, 0xffff_ffff, 0xffff_fffe),
    (0x0220_c1b3, 0xffff_ffec, 0x0000_0006, 0xffff_fffd), // div
    (0x0220_c1b3, 0x8000_0000, 0xffff_ffff, 0x8000_0000),
    (0x0220_d1b3, 0xffff_ffec, 0x0000_0006, 0x2aaa_aaa7), // divu
    (0x0220_d1b3, 0x8000_0000, 0x0000_0000, 0xffff_ffff),
    (0x0220_e1b3, 0xffff_ffec, 0x0000_0006, 0xffff_fffe), // rem
    (0x0220_e1b3, 0x8000_0000, 0xffff_ffff, 0x0000_0000),
    (0x0220_f1b3, 0xffff_ffec, 0x0000_0006, 0x0000_0002), // remu
    (0x0220_f1b3, 0x8000_0000, 0x0000_0000, 0x8000_0000),
];

// From the suite rv32ua of riscv-tests: a word with rd x3, rs2 x2 and the address in x1; the word
// of memory before, the value of x2, and the word of memory after. x3 gets the word before.
const ATOMICS: [(u32, u32, u32, u32); 18] = [
    (0x0820_a1af, 0x8000_0000, 0xffff_f800, 0xffff_f800), // amoswap.w
    (0x0820_a1af, 0xffff_f800, 0x8000_0000, 0x8000_0000),
    (0x0020_a1af, 0x8000_0000, 0xffff_f800, 0x7fff_f800), // amoadd.w
    (0x0020_a1af, 0x7fff_f800, 0x8000_0000, 0xffff_f800),
    (0x2020_a1af, 0x8000_0000, 0xffff_f800, 0x7fff_f800), // amoxor.w
    (0x2020_a1af, 0x7fff_f800, 0xc000_0001, 0xbfff_f801),
    (0x6020_a1af, 0x8000_0000, 0xffff_f800, 0x8000_0000), // amoand.w
    (0x6020_a1af, 0x8000_0000, 0x8000_0000, 0x8000_0000),
    (0x4020_a1af, 0x8000_0000, 0xffff_f800, 0xffff_f800), // amoor.w
    (0x4020_a1af, 0xffff_f800, 0x0000_0001, 0xffff_f801),
    (0x8020_a1af, 0x8000_0000, 0xffff_f800, 0x8000_0000), // amomin.w
    (0x8020_a1af, 0x0000_0000, 0xffff_ffff, 0xffff_ffff),
    (0xa020_a1af, 0x8000_0000, 0xffff_f800, 0xffff_f800), // amomax.w
    (0xa020_a1af, 0x0000_0000, 0x0000_0001, 0x0000_0001),
    (0xc020_a1af, 0x8000_0000, 0xffff_f800, 0x8000_0000), // amominu.w
    (0xc020_a1af, 0x0000_0000, 0xffff_ffff, 0x0000_0000),
    (0xe020_a1af, 0x8000_0000, 0xffff_f800, 0xffff_f800), // amomaxu.w
    (0xe020_a1af, 0x0000_0000, 0x8000_0000, 0x8000_0000),
];

const SW: u32 = 0x0020_a023; // sw x2, 0(x1)

const SB: u32 = 0x0020_80a3; // sb x2, 1(x1)

const LR: u32 = 0x1000_a1af; // lr.w x3, (x1)

const SC: u32 = 0x1820_a1af; // sc.w x3, x2, (x1)

const LW: u32 = 0x0000_a183; // lw x3, 0(x1)

fn empty() -> FlatMemory {
    FlatMemory {
        bytes: [0; 256],
        reserved: [None; 2],
    }
}

// One step from address 0 with the given values of x1 and x2. Returns its effect, x3 and pc.
fn run(
    rt: &impl Abort,
    memory: &mut FlatMemory,
    number: u32,
    word: u32,
    x1: u32,
    x2: u32,
) -> (Effect, u32, u32)
    requires { number < 2 }
{
    let instruction = decode(word).expect(rt, "a row");
    let mut hart = Hart {
        registers: [0; 32],
        pc: 0,
        ended: false,
    };
    hart.registers[1] = x1;
    hart.registers[2] = x2;
    let effect = step(instruction, number, &mut hart, memory);
    assert!(rt; hart.registers[0] == 0);
    (effect, hart.registers[3], hart.pc)
}

// Checks that a step with a word and values of x1 and x2 goes to the next word, and leaves this
// value in x3.
fn gives(rt: &impl Abort, memory: &mut FlatMemory, number: u32, operands: (u32, u32, u32), x3: u32)
    requires { number < 2 }
{
    let (word, x1, x2) = operands;
    let (effect, value, pc) = run(rt, memory, number, word, x1, x2);
    let is_next = effect == Effect::Next && pc == 4;
    assert!(rt; is_next && value == x3, "{word:x} of {x1:x} and {x2:x}");
}

#[test]
fn multiplies_and_divides_as_riscv_tests_expect(rt: HostRuntime) {
    for (word, x1, x2, x3) in PRODUCTS {
        gives(&rt, &mut empty(), 0, (word, x1, x2), x3);
    }
}

// Checks that a word of memory and x2 are combined into this word, and that x3 gets the word
// before.
fn combines(rt: &impl Abort, word: u32, before: u32, x2: u32, after: u32) {
    let mut memory = empty();
    gives(rt, &mut memory, 0, (SW, 16, before), 0);
    gives(rt, &mut memory, 1, (word, 16, x2), before);
    gives(rt, &mut memory, 0, (LW, 16, 0), after);
}

#[test]
fn combines_words_of_memory_as_riscv_tests_expect(rt: HostRuntime) {
    for (word, before, x2, after) in ATOMICS {
        combines(&rt, word, before, x2, after);
    }
}

// The hart, its word, x1, x2 and the expected x3.
const CONDITIONAL_STORES: [(u32, u32, u32, u32, u32); 10] = [
    (0, SC, 16, 5, 1), // without a reservation
    (0, LW, 16, 0, 0),
    (0, LR, 16, 0, 0), // with one, and once only
    (0, SC, 16, 5, 0),
    (0, SC, 16, 6, 1),
    (0, LR, 16, 0, 5), // after a store of another hart to a byte of the word
    (1, SB, 16, 0x107, 0),
    (0, SC, 16, 6, 1),
    (0, LR, 16, 0, 0x705), // of another word
    (0, SC, 20, 6, 1),
];

#[test]
fn stores_conditionally_where_the_word_is_reserved(rt: HostRuntime) {
    let mut memory = empty();
    for (number, word, x1, x2, x3) in CONDITIONAL_STORES {
        gives(&rt, &mut memory, number % 2, (word, x1, x2), x3);
    }
}

// Loads from a word 0x1234fe80, and their results.
const LOADS: [(u32, u32); 5] = [
    (0x0000_8183, 0xffff_ff80), // lb
    (0x0000_c183, 0x0000_0080), // lbu
    (0x0000_9183, 0xffff_fe80), // lh
    (0x0000_d183, 0x0000_fe80), // lhu
    (0x0000_a183, 0x1234_fe80), // lw
];

#[test]
fn loads_with_and_without_sign(rt: HostRuntime) {
    let mut memory = empty();
    let _stored = run(&rt, &mut memory, 0, SW, 16, 0x1234_fe80);
    for (word, x3) in LOADS {
        gives(&rt, &mut memory, 0, (word, 16, 0), x3);
    }
}

// A word, x1, and the result of its step in an empty memory: the effect, x3 and pc.
const ENDS: [(u32, u32, Effect, u32, u32); 7] = [
    (0x0000_0073, 0, Effect::Trap(5), 0, 0), // ecall
    (0x0010_0073, 0, Effect::Trap(6), 0, 0), // ebreak
    (0x0060_01ef, 0, Effect::Trap(3), 0, 0), // jal to 6
    (0x0010_81e7, 2, Effect::Trap(3), 0, 0), // jalr to 2
    (0x0000_a183, 18, Effect::Trap(3), 0, 0), // lw across words
    (0x0000_a183, 256, Effect::Trap(4), 0, 0), // lw past the memory
    (0x0010_81e7, 8, Effect::Next, 4, 8), // jalr to 9 goes to 8
];

#[test]
fn traps_where_the_standard_does(rt: HostRuntime) {
    for (word, x1, effect, x3, pc) in ENDS {
        let (other, value, place) = run(&rt, &mut empty(), 0, word, x1, 0);
        assert!(rt; other == effect && value == x3 && place == pc, "{word:x}");
    }
}
