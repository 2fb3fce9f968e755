//! What is told of an operation: its kind, and how it may fault.

ghost use Rattle.std.specs.Prelude.{◌≡◌};
ghost use Rattle.fk_meaning_operation.specs.Kinds.{kind_of, fault_of};
ghost use Rattle.fk_meaning_operation.specs.Kinds.{multiprefix_kind, multiprefix_of};

use crate::kinds::FaultKind;
use crate::operation::{Multiprefix, Operation};

impl Multiprefix {
    /// The number of its operation kind, 15 to 18.
    pub fn kind(&self) -> u8
        ensures { result ≡ multiprefix_kind self.now }
    {
        match self {
            Multiprefix::MpAdd => 15,
            Multiprefix::MpMax => 16,
            Multiprefix::MpAnd => 17,
            Multiprefix::MpOr => 18,
        }
    }

    /// The multiprefix with this operation kind, if there is one.
    pub fn of_kind(kind: u8) -> Option<Multiprefix>
        ensures { result ≡ multiprefix_of kind }
    {
        match kind {
            15 => Some(Multiprefix::MpAdd),
            16 => Some(Multiprefix::MpMax),
            17 => Some(Multiprefix::MpAnd),
            18 => Some(Multiprefix::MpOr),
            _ => None,
        }
    }
}

impl Operation {
    /// The number of its kind, 1 to 34, as in the site table of an image.
    pub fn kind(&self) -> u8
        ensures { result ≡ kind_of self.now }
    {
        match self {
            Operation::Push(_) => 1,
            Operation::Get(_) => 2,
            Operation::Set(_) => 3,
            Operation::DropLast => 4,
            Operation::CopyLast => 5,
            Operation::Apply(_) => 6,
            Operation::Binary(_, _) => 7,
            Operation::Index(_) => 8,
            Operation::Branch(_) => 9,
            Operation::Take => 10,
            Operation::Leave { .. } => 11,
            Operation::Check(_) => 12,
            Operation::Read => 13,
            Operation::Write => 14,
            Operation::Combine(by) => by.kind(),
            Operation::PrintNumber => 19,
            Operation::PrintByte => 20,
            Operation::Heap => 21,
            Operation::Enter(_) => 22,
            Operation::Begin => 23,
            Operation::Agree => 24,
            Operation::Frame { .. } => 25,
            Operation::Block => 26,
            Operation::Split(_) => 27,
            Operation::Shrink => 28,
            Operation::End => 29,
            Operation::Resume => 30,
            Operation::Farm => 31,
            Operation::Seq => 32,
            Operation::Meet(_) => 33,
            Operation::Halt => 34,
        }
    }

    /// How it may fault, if it may.
    pub fn fault(&self) -> Option<FaultKind>
        ensures { result ≡ fault_of (kind_of self.now) }
    {
        FaultKind::of_kind(self.kind())
    }
}

impl FaultKind {
    /// The fault that an operation of this kind can have, if any.
    pub fn of_kind(kind: u8) -> Option<FaultKind>
        ensures { result ≡ fault_of kind }
    {
        match kind {
            12 => Some(FaultKind::BadAddress),
            22 => Some(FaultKind::CallDepth),
            25 | 27 => Some(FaultKind::GroupSpace),
            _ => None,
        }
    }
}
