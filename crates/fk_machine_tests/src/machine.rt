//! Handmade images, in words as an assembler for RV32IMA writes them.

ghost use Rattle.std.specs.Prelude.{◌≡◌, IfOk};
ghost use Rattle.fk_machine.specs.View.{machine_of};

use crate::input::repeated;
use fk_image::{Image, read_image};
use fk_isa::encode;
use fk_machine::stand::{ACCESS, EBREAK, ECALL, FETCH, MISALIGNED, UNKNOWN};
use fk_machine::{Machine, Stand};
use fk_ports::MemSink;
use fk_trace::run_trace;
use std::alloc::{AllocError, Global};
use std::process::Abort;

/// An image, how it is run, and the expected result.
#[derive(Clone, Copy)]
struct Case {
    name: &'static str,
    code: &'static [u32],
    globals: &'static [u32],
    input: &'static [u32],
    harts: u32,
    /// The greatest number of cycles that it runs.
    bound: u32,
    /// The text printed by each cycle that prints, and the number of such cycles.
    text: &'static [u8],
    times: u32,
    stand: Stand,
    /// The number of begun cycles, if it is checked.
    cycles: Option<u32>,
    /// The first words of shared data.
    words: &'static [u32],
}

// A hart that ends and prints nothing.
const ALONE: Case = Case {
    name: "",
    code: &[],
    globals: &[],
    input: &[],
    harts: 1,
    bound: 20,
    text: b"",
    times: 0,
    stand: Stand::Finished,
    cycles: None,
    words: &[],
};

const TWO_PRINT: Case = Case {
    name: "two harts print in order",
    code: &[
        0x300002b7, // lui t0, 0x30000
        0x0142a303, // lw t1, 20(t0)
        0x0062a023, // sw t1, 0(t0)
        0x0002a623, // sw zero, 12(t0)
    ],
    harts: 2,
    text: b"0\n1\n",
    times: 1,
    cycles: Some(4),
    ..ALONE
};

const TWO_PRINT_TWICE: Case = Case {
    name: "two harts print twice",
    code: &[
        0x300002b7, // lui t0, 0x30000
        0x0142a303, // lw t1, 20(t0)
        0x0062a023, // sw t1, 0(t0)
        0x00000013, // addi zero, zero, 0
        0x0062a023, // sw t1, 0(t0)
        0x0002a623, // sw zero, 12(t0)
    ],
    harts: 2,
    bound: 100,
    text: b"0\n1\n",
    times: 2,
    cycles: Some(6),
    ..ALONE
};

const TWO_BEGIN: Case = Case {
    name: "two harts have printed once so far",
    bound: 3,
    times: 1,
    stand: Stand::Running,
    cycles: Some(3),
    ..TWO_PRINT_TWICE
};

const OUT_OF_CODE: Case = Case {
    name: "a jump out of the code",
    code: &[0x0100006f], // jal zero, .+16
    stand: Stand::Trapped(0, 16, FETCH),
    ..ALONE
};

const NO_INSTRUCTION: Case = Case {
    name: "no instruction",
    code: &[0x00000000],
    stand: Stand::Trapped(0, 0, UNKNOWN),
    ..ALONE
};

const ACROSS_WORDS: Case = Case {
    name: "across two words",
    code: &[0x00202303], // lw t1, 2(zero)
    stand: Stand::Trapped(0, 0, MISALIGNED),
    ..ALONE
};

const CODE_AS_DATA: Case = Case {
    name: "code as data",
    code: &[0x00002303], // lw t1, 0(zero)
    stand: Stand::Trapped(0, 0, ACCESS),
    ..ALONE
};

const BYTE_TO_DEVICE: Case = Case {
    name: "a byte to a device",
    code: &[
        0x300002b7, // lui t0, 0x30000
        0x00528223, // sb t0, 4(t0)
    ],
    stand: Stand::Trapped(0, 4, ACCESS),
    ..ALONE
};

const CALL: Case = Case {
    name: "ecall",
    code: &[0x00000073],
    stand: Stand::Trapped(0, 0, ECALL),
    ..ALONE
};

const BREAK: Case = Case {
    name: "ebreak",
    code: &[0x00100073],
    stand: Stand::Trapped(0, 0, EBREAK),
    ..ALONE
};

const FAULT: Case = Case {
    name: "a fault ends the machine",
    code: &[
        0x300002b7, // lui t0, 0x30000
        0x0142a303, // lw t1, 20(t0)
        0x04130393, // addi t2, t1, 65
        0x0072a223, // sw t2, 4(t0)
        0x0072a423, // sw t2, 8(t0)
    ],
    harts: 3,
    text: b"ABC",
    times: 1,
    stand: Stand::Faulted(65, 0),
    cycles: Some(5),
    ..ALONE
};

const PARTS_OF_WORDS: Case = Case {
    name: "parts of words",
    code: &[
        0x100002b7, // lui t0, 0x10000
        0x89abd337, // lui t1, 0x89abd
        0xdef30313, // addi t1, t1, -529
        0x0062a023, // sw t1, 0(t0)
        0x000280a3, // sb zero, 1(t0)
        0x0062a223, // sw t1, 4(t0)
        0x00029323, // sh zero, 6(t0)
        0x00328383, // lb t2, 3(t0)
        0x0072a423, // sw t2, 8(t0)
        0x0022d383, // lhu t2, 2(t0)
        0x0072a623, // sw t2, 12(t0)
        0x300002b7, // lui t0, 0x30000
        0x0002a623, // sw zero, 12(t0)
    ],
    words: &[0x89ab00ef, 0x0000cdef, 0xffffff89, 0x000089ab],
    ..ALONE
};

// Hart 0 reserves word 0 and hart 1 reserves word 1. Hart 0 stores to word 2 and hart 1 to word 0.
// Hart 0 has thus stored nothing to the word that it reserved.
const LOST_RESERVATION: Case = Case {
    name: "a reservation is lost to another hart",
    code: &[
        0x300002b7, // lui t0, 0x30000
        0x0142a303, // lw t1, 20(t0)
        0x00231313, // slli t1, t1, 2
        0x100003b7, // lui t2, 0x10000
        0x00638e33, // add t3, t2, t1
        0x40638eb3, // sub t4, t2, t1
        0x406e8eb3, // sub t4, t4, t1
        0x100e252f, // lr.w a0, (t3)
        0x005e84a3, // sb t0, 9(t4)
        0x185e25af, // sc.w a1, t0, (t3)
        0x00b2a023, // sw a1, 0(t0)
        0x0002a623, // sw zero, 12(t0)
    ],
    harts: 2,
    text: b"1\n0\n",
    times: 1,
    words: &[0, 0x30000000],
    ..ALONE
};

const DEVICES: Case = Case {
    name: "devices answer loads",
    code: &[
        0x300002b7, // lui t0, 0x30000
        0x10000337, // lui t1, 0x10000
        0x0102a383, // lw t2, 16(t0)
        0x00732023, // sw t2, 0(t1)
        0x0142a383, // lw t2, 20(t0)
        0x00732223, // sw t2, 4(t1)
        0x0182a383, // lw t2, 24(t0)
        0x00732423, // sw t2, 8(t1)
        0x01c2a383, // lw t2, 28(t0)
        0x00732623, // sw t2, 12(t1)
        0x0002a623, // sw zero, 12(t0)
    ],
    globals: &[100, 101, 102, 103, 104],
    input: &[105, 106],
    harts: 3,
    bound: 100,
    words: &[
        2, // cycles are finished at the load of CYCLE
        2, // is the last of the harts 0, 1 and 2
        3, // harts
        2, // input numbers
        104, // the last global
        105, // the first input number
        106, // the last input number
        0,
    ],
    ..ALONE
};

const ALL_HARTS: Case = Case {
    name: "as many harts as there may be",
    code: &[
        0x300002b7, // lui t0, 0x30000
        0x10000337, // lui t1, 0x10000
        0x00100393, // addi t2, zero, 1
        0x0073202f, // amoadd.w zero, t2, (t1)
        0x0002a623, // sw zero, 12(t0)
    ],
    harts: 1024,
    words: &[1024],
    ..ALONE
};

// Harts that come to a barrier at different times print in the same cycle after it, three times.
const BARRIER: Case = Case {
    name: "all print in one cycle",
    code: &[
        0x300002b7, // lui t0, 0x30000
        0x0142a503, // lw a0, 20(t0)
        0x0182ad83, // lw s11, 24(t0)
        0x18400cb7, // lui s9, 0x18400
        0x00300413, // addi s0, zero, 3
        0x00050593, // addi a1, a0, 0
        0x00058663, // beq a1, zero, +12
        0xfff58593, // addi a1, a1, -1
        0xff9ff06f, // jal zero, -8
        0x000c8393, // addi t2, s9, 0      the block
        0x300002b7, // lui t0, 0x30000
        0x0102a283, // lw t0, 16(t0)
        0x0012f293, // andi t0, t0, 1
        0x00100313, // addi t1, zero, 1
        0x00028463, // beq t0, zero, +8
        0x00000013, // addi zero, zero, 0
        0x0063a02f, // amoadd.w zero, t1, (t2)
        0x0003a283, // lw t0, 0(t2)
        0xffb29ee3, // bne t0, s11, -4
        0x0003a023, // sw zero, 0(t2)       all leave
        0x30000637, // lui a2, 0x30000
        0x00a62023, // sw a0, 0(a2)
        0xfff40413, // addi s0, s0, -1
        0xfa041ce3, // bne s0, zero, top
        0x00062623, // sw zero, 12(a2)
    ],
    harts: 5,
    bound: 400,
    text: b"0\n1\n2\n3\n4\n",
    times: 3,
    ..ALONE
};

// Five harts in lockstep, each with 8 times its number as its last value, agree on the value of the
// highest.
const HIGHEST: Case = Case {
    name: "the highest decides",
    code: &[
        0x300002b7, // lui t0, 0x30000
        0x0142a503, // lw a0, 20(t0)
        0x18400cb7, // lui s9, 0x18400
        0x200004b7, // lui s1, 0x20000
        0x10048493, // addi s1, s1, 256
        0x00351593, // slli a1, a0, 3
        0xfeb4ae23, // sw a1, -4(s1)
        0xffc4a283, // lw t0, -4(s1)        the block
        0x005ca423, // sw t0, 8(s9)
        0x008ca283, // lw t0, 8(s9)
        0xfe54ae23, // sw t0, -4(s1)
        0xffc4a583, // lw a1, -4(s1)
        0x30000637, // lui a2, 0x30000
        0x00b62023, // sw a1, 0(a2)
        0x00062623, // sw zero, 12(a2)
    ],
    harts: 5,
    text: b"32\n32\n32\n32\n32\n",
    times: 1,
    ..ALONE
};

static CASES: [Case; 17] = [
    TWO_PRINT,
    TWO_PRINT_TWICE,
    TWO_BEGIN,
    OUT_OF_CODE,
    NO_INSTRUCTION,
    ACROSS_WORDS,
    CODE_AS_DATA,
    BYTE_TO_DEVICE,
    CALL,
    BREAK,
    FAULT,
    PARTS_OF_WORDS,
    LOST_RESERVATION,
    DEVICES,
    ALL_HARTS,
    BARRIER,
    HIGHEST,
];

// A new machine with this code, these globals and this input.
pub(crate) fn machine_for(
    rt: &impl Abort,
    alloc: Global,
    code: &[u32],
    globals: &[u32],
    input: &[u32],
    harts: u32,
) -> Result<Machine, AllocError>
    ensures { IfOk result (λ machine. (machine_of machine).begun ≡ 0) }
{
    assert!(rt; 1 <= code.len() && code.len() <= 1000);
    assert!(rt; globals.len() <= 1000 && input.len() <= 1000);
    assert!(rt; 1 <= harts && harts <= 1024);
    let image = Image {
        code: code.to_vec(alloc)?,
        globals: globals.to_vec(alloc)?,
        sites: Vec::new(alloc),
        commits: Vec::new(alloc),
    };
    let machine = Machine::new(alloc, &image, input, harts)?;
    Ok(machine)
}

// A new machine for a case.
fn machine_of_case(rt: &impl Abort, alloc: Global, case: &Case) -> Result<Machine, AllocError>
    ensures { IfOk result (λ machine. (machine_of machine).begun ≡ 0) }
{
    machine_for(rt, alloc, case.code, case.globals, case.input, case.harts)
}

// The number of texts that the last cycle printed, if it printed nothing else.
fn texts_printed(machine: &Machine, text: &[u8]) -> Option<u32> {
    let bytes = machine.output();
    if bytes.len() == 0 {
        return Some(0);
    }
    if bytes == text { Some(1) } else { None }
}

// Runs a new machine cycle by cycle. Returns the number of cycles that printed the text of a case,
// if no cycle printed another text.
fn times_printed(machine: &mut Machine, case: &Case) -> Option<u32>
    requires { (machine_of machine.old).begun ≡ 0 }
{
    let mut times: u32 = 0;
    for _ in 0..case.bound {
        if machine.stand() != Stand::Running {
            break;
        }
        machine.cycle();
        times = times.wrapping_add(texts_printed(&*machine, case.text)?);
    }
    Some(times)
}

// Whether the shared data of a machine begins with these words.
fn begins_with(machine: &Machine, words: &[u32]) -> bool {
    for (index, word) in words.iter().enumerate() {
        if index >= 1000 || machine.word(index as u32) != *word {
            return false;
        }
    }
    true
}

// Whether a machine has the status, cycles and words that a case expects.
fn stands(machine: &Machine, case: &Case) -> bool {
    let cycles = match case.cycles {
        Some(cycles) => machine.cycles() == cycles,
        None => true,
    };
    cycles && machine.stand() == case.stand && begins_with(machine, case.words)
}

// Whether one call that runs a new machine gives all that a case prints.
fn gives(alloc: Global, machine: &mut Machine, case: &Case) -> Result<bool, AllocError> {
    let expected = repeated(alloc, case.text, case.times)?;
    let mut out = MemSink::new(alloc, expected.len(), Vec::new(alloc))?;
    let ran = machine.run_to(case.bound, &mut out).is_ok();
    Ok(ran && out.bytes() == expected.as_slice())
}

// Checks that a case has its expected result, both cycle by cycle and in one call.
fn comes_true(rt: &impl Abort, alloc: Global, case: &Case) -> Result<(), AllocError> {
    let mut machine = machine_of_case(rt, alloc, case)?;
    let times = times_printed(&mut machine, case);
    assert!(rt;
        times == Some(case.times) && stands(&machine, case),
        "{}",
        case.name
    );
    let mut machine = machine_of_case(rt, alloc, case)?;
    let all = gives(alloc, &mut machine, case)?;
    assert!(rt; all && stands(&machine, case), "{} at once", case.name);
    Ok(())
}

#[test]
fn images_run_as_they_are_told(rt: HostRuntime) -> Result<(), AllocError> {
    for case in &CASES {
        comes_true(&rt, rt.alloc(), case)?;
    }
    Ok(())
}

// Whether a machine has this word of code at this place, and the instruction that it is.
fn has_word(machine: &Machine, index: usize, word: u32) -> bool {
    if index >= 1000 {
        return false;
    }
    let address = 4 * index as u32;
    match machine.instruction(address) {
        Some(instruction) => machine.code(address) == Some(word) && encode(instruction) == word,
        None => false,
    }
}

// Whether a machine has these words of code, and none beside them.
fn has_code(machine: &Machine, code: &[u32]) -> bool {
    for (index, word) in code.iter().enumerate() {
        if !has_word(machine, index, *word) {
            return false;
        }
    }
    machine.code(2) == None
        && machine.code(0xffff_fffc) == None
        && machine.instruction(0xffff_fffc).is_none()
}

#[test]
fn the_code_and_the_harts_are_told(rt: HostRuntime) -> Result<(), AllocError> {
    let mut machine = machine_of_case(&rt, rt.alloc(), &TWO_PRINT)?;
    assert!(rt; has_code(&machine, TWO_PRINT.code));
    machine.cycle();
    machine.cycle();
    assert!(rt; machine.harts() == 2);
    let hart = machine.hart(1);
    assert!(rt; hart.pc == 8 && hart.word(6) == 1 && !hart.ended);
    Ok(())
}

/// An image of `lui t0, 0x30000` and `sw zero, 12(t0)`, which ends the hart. The second commits two
/// operations and a split.
const COMMITTING: [u8; 40] = [
    0x46, 0x4b, 0x39, 0x35, 0x01, 0x00, 0x00, 0x00, 0x02, 0x00, 0x00, 0x00, 0x00, 0x00, 0x00, 0x00,
    0x00, 0x00, 0x00, 0x00, 0x01, 0x00, 0x00, 0x00, 0xb7, 0x02, 0x00, 0x30, 0x23, 0xa6, 0x02, 0x00,
    0x04, 0x00, 0x00, 0x00, 0x02, 0x01, 0x00, 0x00,
];

#[test]
fn harts_commit_in_the_last_cycle(rt: HostRuntime) -> Result<(), AllocError> {
    let alloc = rt.alloc();
    let Ok(image) = read_image(alloc, &COMMITTING) else {
        return Err(AllocError);
    };
    let mut machine = Machine::new(alloc, &image, &[], 2)?;
    assert!(rt; machine.harts() == 2 && machine.committed(0).is_none());
    machine.cycle();
    assert!(rt; machine.committed(0).is_none() && machine.committed(1).is_none());
    machine.cycle();
    assert!(rt; machine.committed(0) == Some((2, 1)) && machine.committed(1) == Some((2, 1)));
    assert!(rt; machine.committed(2).is_none() && machine.stand() == Stand::Finished);
    Ok(())
}

const COMMITTING_TRACE: &[u8] = b"fork95 trace 1\nharts 2\nc 2 0-1*2\ng 2 split 0-1\nend 2\n";

#[test]
fn a_trace_tells_what_harts_commit(rt: HostRuntime) -> Result<(), AllocError> {
    let alloc = rt.alloc();
    let Ok(image) = read_image(alloc, &COMMITTING) else {
        return Err(AllocError);
    };
    let mut machine = Machine::new(alloc, &image, &[], 2)?;
    let mut out = MemSink::new(alloc, 200, Vec::new(alloc))?;
    assert!(rt; run_trace(&mut machine, 10, &mut out).is_ok());
    assert!(rt; out.bytes() == COMMITTING_TRACE);
    Ok(())
}
