//! Audits of handmade images.

use crate::machine::machine_for;
use fk_audit::{Clash, Marks, Verdict, run_audit};
use fk_machine::Stand;
use fk_machine::stand::MISALIGNED;
use std::alloc::{AllocError, Global};
use std::process::Abort;

/// The code of an image, how it is run, and the expected result.
#[derive(Clone, Copy)]
struct Case {
    name: &'static str,
    code: &'static [u32],
    harts: u32,
    /// The greatest number of cycles that it runs.
    bound: u32,
    stand: Stand,
    read: Option<Clash>,
    write: Option<Clash>,
}

// Two harts that end, and never clash.
const APART: Case = Case {
    name: "",
    code: &[],
    harts: 2,
    bound: 20,
    stand: Stand::Finished,
    read: None,
    write: None,
};

const TWO_READ: Case = Case {
    name: "two harts read a word in one cycle",
    code: &[
        0x100002b7, // lui t0, 0x10000
        0x0002a083, // lw ra, 0(t0)
        0x300002b7, // lui t0, 0x30000
        0x0002a623, // sw zero, 12(t0)
    ],
    read: Some(Clash {
        cycle: 2,
        address: 0x1000_0000,
    }),
    ..APART
};

const TWO_WRITE: Case = Case {
    name: "two harts write a word in one cycle",
    code: &[
        0x100002b7, // lui t0, 0x10000
        0x0002a023, // sw zero, 0(t0)
        0x300002b7, // lui t0, 0x30000
        0x0002a623, // sw zero, 12(t0)
    ],
    write: Some(Clash {
        cycle: 2,
        address: 0x1000_0000,
    }),
    ..APART
};

const READ_AND_WRITE: Case = Case {
    name: "one hart reads a word, the other writes it",
    code: &[
        0x300002b7, // lui t0, 0x30000
        0x0142a303, // lw t1, 20(t0)
        0x100003b7, // lui t2, 0x10000
        0x00030663, // beq t1, zero, .+12
        0x0003a023, // sw zero, 0(t2)
        0x0080006f, // jal zero, .+8
        0x0003a083, // lw ra, 0(t2)
        0x0002a623, // sw zero, 12(t0)
    ],
    write: Some(Clash {
        cycle: 5,
        address: 0x1000_0000,
    }),
    ..APART
};

const IN_TWO_CYCLES: Case = Case {
    name: "the same in two cycles",
    code: &[
        0x300002b7, // lui t0, 0x30000
        0x0142a303, // lw t1, 20(t0)
        0x100003b7, // lui t2, 0x10000
        0x00030663, // beq t1, zero, .+12
        0x0003a023, // sw zero, 0(t2)
        0x00c0006f, // jal zero, .+12
        0x00000013, // addi zero, zero, 0
        0x0003a083, // lw ra, 0(t2)
        0x0002a623, // sw zero, 12(t0)
    ],
    ..APART
};

const CONDITIONAL: Case = Case {
    name: "conditional stores that store nothing",
    code: &[
        0x100003b7, // lui t2, 0x10000
        0x1803a0af, // sc.w ra, zero, (t2)
        0x300002b7, // lui t0, 0x30000
        0x0002a623, // sw zero, 12(t0)
    ],
    write: Some(Clash {
        cycle: 2,
        address: 0x1000_0000,
    }),
    ..APART
};

const RESERVED: Case = Case {
    name: "two harts reserve a word",
    code: &[
        0x100003b7, // lui t2, 0x10000
        0x1003a0af, // lr.w ra, (t2)
        0x300002b7, // lui t0, 0x30000
        0x0002a623, // sw zero, 12(t0)
    ],
    read: Some(Clash {
        cycle: 2,
        address: 0x1000_0000,
    }),
    ..APART
};

const ATOMIC: Case = Case {
    name: "two harts add to a word",
    code: &[
        0x100003b7, // lui t2, 0x10000
        0x0003a0af, // amoadd.w ra, zero, (t2)
        0x300002b7, // lui t0, 0x30000
        0x0002a623, // sw zero, 12(t0)
    ],
    write: Some(Clash {
        cycle: 2,
        address: 0x1000_0000,
    }),
    ..APART
};

const LEAST: Case = Case {
    name: "harts 0 and 1 read a word, harts 2 and 3 the word below it",
    code: &[
        0x300002b7, // lui t0, 0x30000
        0x0142a303, // lw t1, 20(t0)
        0x00135313, // srli t1, t1, 1
        0x00134313, // xori t1, t1, 1
        0x00231313, // slli t1, t1, 2
        0x100003b7, // lui t2, 0x10000
        0x006383b3, // add t2, t2, t1
        0x0003a083, // lw ra, 0(t2)
        0x0002a623, // sw zero, 12(t0)
    ],
    harts: 4,
    read: Some(Clash {
        cycle: 8,
        address: 0x1000_0000,
    }),
    ..APART
};

const BYTES: Case = Case {
    name: "two bytes of one word",
    code: &[
        0x300002b7, // lui t0, 0x30000
        0x0142a303, // lw t1, 20(t0)
        0x100003b7, // lui t2, 0x10000
        0x006383b3, // add t2, t2, t1
        0x0003c083, // lbu ra, 0(t2)
        0x0002a623, // sw zero, 12(t0)
    ],
    read: Some(Clash {
        cycle: 5,
        address: 0x1000_0000,
    }),
    ..APART
};

const ALL_WRITE: Case = Case {
    name: "1,024 harts write a word",
    code: &[
        0x100002b7, // lui t0, 0x10000
        0x0002a023, // sw zero, 0(t0)
        0x300002b7, // lui t0, 0x30000
        0x0002a623, // sw zero, 12(t0)
    ],
    harts: 1024,
    write: Some(Clash {
        cycle: 2,
        address: 0x1000_0000,
    }),
    ..APART
};

const ALONE_WRITES: Case = Case {
    name: "one hart writes a word",
    code: &[
        0x100002b7, // lui t0, 0x10000
        0x0002a023, // sw zero, 0(t0)
        0x300002b7, // lui t0, 0x30000
        0x0002a623, // sw zero, 12(t0)
    ],
    harts: 1,
    ..APART
};

const CONTROL: Case = Case {
    name: "two harts write a control word",
    code: &[
        0x180003b7, // lui t2, 0x18000
        0x0003a023, // sw zero, 0(t2)
        0x300002b7, // lui t0, 0x30000
        0x0002a623, // sw zero, 12(t0)
    ],
    ..APART
};

const LOCAL: Case = Case {
    name: "two harts write words of their own",
    code: &[
        0x200003b7, // lui t2, 0x20000
        0x0003a023, // sw zero, 0(t2)
        0x300002b7, // lui t0, 0x30000
        0x0002a623, // sw zero, 12(t0)
    ],
    ..APART
};

const TRAPS: Case = Case {
    name: "hart 0 reads a word at whose second byte hart 1 traps",
    code: &[
        0x300002b7, // lui t0, 0x30000
        0x0142a303, // lw t1, 20(t0)
        0x00131313, // slli t1, t1, 1
        0x100003b7, // lui t2, 0x10000
        0x006383b3, // add t2, t2, t1
        0x0003a083, // lw ra, 0(t2)
    ],
    stand: Stand::Trapped(1, 20, MISALIGNED),
    ..APART
};

const TRAPS_ABOVE: Case = Case {
    name: "harts 0 and 1 read a word at whose second byte hart 2 traps",
    code: &[
        0x300002b7, // lui t0, 0x30000
        0x0142a303, // lw t1, 20(t0)
        0x00135313, // srli t1, t1, 1
        0x00131313, // slli t1, t1, 1
        0x100003b7, // lui t2, 0x10000
        0x006383b3, // add t2, t2, t1
        0x0003a083, // lw ra, 0(t2)
    ],
    harts: 4,
    stand: Stand::Trapped(2, 24, MISALIGNED),
    read: Some(Clash {
        cycle: 7,
        address: 0x1000_0000,
    }),
    ..APART
};

const FAULTS: Case = Case {
    name: "hart 0 writes a word, hart 1 faults, and hart 2 would write the word",
    code: &[
        0x300002b7, // lui t0, 0x30000
        0x0142a303, // lw t1, 20(t0)
        0x00137313, // andi t1, t1, 1
        0x20000e37, // lui t3, 0x20000
        0x008e0e13, // addi t3, t3, 8
        0x026e0e33, // mul t3, t3, t1
        0x100003b7, // lui t2, 0x10000
        0x01c383b3, // add t2, t2, t3
        0x0003a023, // sw zero, 0(t2)
    ],
    harts: 3,
    stand: Stand::Faulted(0, 1),
    ..APART
};

const FIRST: Case = Case {
    name: "a word is written before another one below it",
    code: &[
        0x100002b7, // lui t0, 0x10000
        0x0002a223, // sw zero, 4(t0)
        0x0002a023, // sw zero, 0(t0)
        0x300002b7, // lui t0, 0x30000
        0x0002a623, // sw zero, 12(t0)
    ],
    write: Some(Clash {
        cycle: 2,
        address: 0x1000_0004,
    }),
    ..APART
};

const BOTH: Case = Case {
    name: "a word is read and then written",
    code: &[
        0x100002b7, // lui t0, 0x10000
        0x0002a083, // lw ra, 0(t0)
        0x0002a023, // sw zero, 0(t0)
        0x300002b7, // lui t0, 0x30000
        0x0002a623, // sw zero, 12(t0)
    ],
    read: Some(Clash {
        cycle: 2,
        address: 0x1000_0000,
    }),
    write: Some(Clash {
        cycle: 3,
        address: 0x1000_0000,
    }),
    ..APART
};

const BOUNDED: Case = Case {
    name: "the bound is before the cycle",
    code: &[
        0x100002b7, // lui t0, 0x10000
        0x0002a083, // lw ra, 0(t0)
        0x300002b7, // lui t0, 0x30000
        0x0002a623, // sw zero, 12(t0)
    ],
    bound: 1,
    stand: Stand::Running,
    ..APART
};

static CASES: [Case; 19] = [
    TWO_READ,
    TWO_WRITE,
    READ_AND_WRITE,
    IN_TWO_CYCLES,
    CONDITIONAL,
    RESERVED,
    ATOMIC,
    LEAST,
    BYTES,
    ALL_WRITE,
    ALONE_WRITES,
    CONTROL,
    LOCAL,
    TRAPS,
    TRAPS_ABOVE,
    FAULTS,
    FIRST,
    BOTH,
    BOUNDED,
];

// Checks that the audit of a case has its expected result.
fn comes_true(rt: &impl Abort, alloc: Global, case: &Case) -> Result<(), AllocError> {
    let mut machine = machine_for(rt, alloc, case.code, &[], &[], case.harts)?;
    let marks = Marks::new(alloc)?;
    let verdict = Verdict {
        read: case.read,
        write: case.write,
    };
    let told = run_audit(&mut machine, case.bound, marks);
    assert!(rt; told == (case.stand, verdict), "{}", case.name);
    Ok(())
}

#[test]
fn the_first_clash_of_each_kind_is_told(rt: HostRuntime) -> Result<(), AllocError> {
    let alloc = rt.alloc();
    for case in &CASES {
        comes_true(&rt, alloc, case)?;
    }
    Ok(())
}
