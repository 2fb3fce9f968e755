//! The entries of a list.

ghost use Rattle.std.specs.Prelude.{◌≡◌, Some};
ghost use Rattle.fk_meaning_operation.specs.Kinds.{kind_of};
ghost use Rattle.fk_core.specs.Numbers.{operation_of, HasNumber};
ghost use Rattle.fk_core.specs.Next.{is_jump};

use crate::numbers::{local_of, number_of, request_of, tree_step_of};
use fk_meaning_operation::Operation;

/// An operation of a flat list, or a jump.
#[derive(Clone, Copy, PartialEq, Eq, Debug)]
pub struct CoreOp {
    /// The kind of the operation, 1 to 34, or 0 for a jump.
    pub kind: u8,
    /// The number of its site. A jump has site 0.
    pub site: u32,
    /// The constants of the operation, by the table of `operation_of`.
    pub number: u32,
    /// The index to which a jump goes, an operation on its second branch, and an end always. An
    /// enter has the entry of its function. Other operations may have any.
    pub target: u32,
    /// The number of values that the running call has before it.
    pub depth: u32,
}

impl CoreOp {
    /// The entry of an operation in range: places below 2^26, words below 2^21, nestings up to 128.
    pub fn of(operation: Operation, site: u32, target: u32, depth: u32) -> CoreOp
        requires in_range { HasNumber operation }
        ensures kind { result.kind ≡ kind_of operation }
        ensures operation { operation_of result.kind result.number ≡ Some operation }
        ensures site { result.site ≡ site }
        ensures target { result.target ≡ target }
        ensures depth { result.depth ≡ depth }
    {
        CoreOp {
            kind: operation.kind(),
            site,
            number: number_of(operation),
            target,
            depth,
        }
    }

    /// The entry of a jump.
    pub fn jump(target: u32) -> CoreOp
        ensures { result ≡ record { kind = 0; site = 0; number = 0; target = target; depth = 0 } }
    {
        CoreOp {
            kind: 0,
            site: 0,
            number: 0,
            target,
            depth: 0,
        }
    }

    pub fn is_jump(&self) -> bool
        ensures { result ≡ is_jump self.now }
    {
        self.kind == 0
    }

    /// The operation, if the entry is one.
    pub fn operation(&self) -> Option<Operation>
        ensures { result ≡ operation_of self.now.kind self.now.number }
    {
        match self.kind {
            0..12 => local_of(self.kind, self.number),
            12..23 => request_of(self.kind, self.number),
            _ => tree_step_of(self.kind, self.number),
        }
    }
}
