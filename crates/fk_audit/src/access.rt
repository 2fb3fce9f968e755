//! What instructions access.

ghost use Rattle.std.specs.Prelude.{◌≡◌};
ghost use Rattle.fk_isa.specs.Fits.{Fits};
ghost use Rattle.fk_isa.specs.Step.{hart_of};

use fk_isa::{Hart, Instruction};

/// How a hart accesses a word.
#[derive(Clone, Copy, PartialEq, Eq, Debug)]
pub enum AccessKind {
    Read,
    Write,
}

impl AccessKind {
    ghost use Rattle.fk_audit.specs.Access.{is_kind};

    /// Whether this is the same kind as another one.
    #[inline(always)]
    pub fn is_same(self, other: AccessKind) -> bool
        ensures { result ≡ is_kind self other }
    {
        match self {
            AccessKind::Read => matches!(other, AccessKind::Read),
            AccessKind::Write => matches!(other, AccessKind::Write),
        }
    }
}

/// An access of a hart.
#[derive(Clone, Copy)]
pub struct Access {
    pub address: u32,
    pub kind: AccessKind,
}

impl Access {
    ghost use Rattle.std.specs.Prelude.{Some};
    ghost use Rattle.fk_audit.specs.declared.access.AccessKind.TheVariants as kind;
    ghost use Rattle.fk_audit.specs.Access.{access_of, accesses};

    #[inline(always)]
    fn read(address: u32) -> Option<Access>
        ensures { result ≡ accesses kind.Read address }
    {
        Some(Access {
            address,
            kind: AccessKind::Read,
        })
    }

    #[inline(always)]
    fn write(address: u32) -> Option<Access>
        ensures { result ≡ accesses kind.Write address }
    {
        Some(Access {
            address,
            kind: AccessKind::Write,
        })
    }

    /// The access of an instruction of a hart, if it has one.
    #[inline(always)]
    pub fn of(instruction: Instruction, hart: &Hart) -> Option<Access>
        requires { Fits instruction }
        ensures { result ≡ access_of instruction (hart_of hart.now) }
    {
        match instruction {
            Instruction::Lb(_, base, offset)
            | Instruction::Lh(_, base, offset)
            | Instruction::Lw(_, base, offset)
            | Instruction::Lbu(_, base, offset)
            | Instruction::Lhu(_, base, offset) => Access::read(hart.sum(base, offset)),
            Instruction::Sb(base, _, offset)
            | Instruction::Sh(base, _, offset)
            | Instruction::Sw(base, _, offset) => Access::write(hart.sum(base, offset)),
            Instruction::LrW(_, base, ..) => Access::read(hart.word(base)),
            Instruction::ScW(_, base, ..)
            | Instruction::AmoSwapW(_, base, ..)
            | Instruction::AmoAddW(_, base, ..)
            | Instruction::AmoXorW(_, base, ..)
            | Instruction::AmoAndW(_, base, ..)
            | Instruction::AmoOrW(_, base, ..)
            | Instruction::AmoMinW(_, base, ..)
            | Instruction::AmoMaxW(_, base, ..)
            | Instruction::AmoMinuW(_, base, ..)
            | Instruction::AmoMaxuW(_, base, ..) => Access::write(hart.word(base)),
            _ => None,
        }
    }
}
