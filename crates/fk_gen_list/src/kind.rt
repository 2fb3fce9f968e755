//! The kinds of blocks.

use fk_core::CoreOp;
use fk_meaning_operation::Operation;

/// The kind of an operation's block.
#[derive(Clone, Copy, PartialEq, Eq, Debug)]
pub enum Kind {
    /// A jump, a branch, a call, the end of a call or a halt.
    Flow,
    /// An access of memory or of a device.
    Access,
    /// A step that a group does.
    Group,
    /// An operation on the values of a call.
    Expression,
}

impl Kind {
    ghost use Rattle.std.specs.Prelude.{◌≡◌};
    ghost use Rattle.fk_gen_list.specs.Kinds.{kind_of};

    pub fn of(op: CoreOp) -> Kind
        ensures { result ≡ kind_of op }
    {
        if op.is_jump() {
            return Kind::Flow;
        }
        match op.operation() {
            Some(
                Operation::Branch(_)
                | Operation::Leave { .. }
                | Operation::Enter(_)
                | Operation::Halt,
            ) => Kind::Flow,
            Some(
                Operation::Take
                | Operation::Check(_)
                | Operation::Read
                | Operation::Write
                | Operation::Combine(_)
                | Operation::PrintNumber
                | Operation::PrintByte
                | Operation::Heap,
            ) => Kind::Access,
            Some(
                Operation::Begin
                | Operation::Agree
                | Operation::Farm
                | Operation::Seq
                | Operation::End
                | Operation::Resume
                | Operation::Meet(_)
                | Operation::Frame { .. }
                | Operation::Block
                | Operation::Shrink
                | Operation::Split(_),
            ) => Kind::Group,
            _ => Kind::Expression,
        }
    }
}
