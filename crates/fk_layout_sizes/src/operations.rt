//! The effect of operations on values and parts.

ghost use Rattle.std.specs.Prelude.{◌≡◌};
ghost use Rattle.fk_layout_sizes.specs.Operations as o;

use fk_meaning_operation::{Operation, SplitKind};

// The number of values that a split takes.
fn split_takes(split: SplitKind) -> u32
    ensures { result ≡ o.split_takes split }
{
    match split {
        SplitKind::Loop => 0,
        SplitKind::Fork => 3,
        SplitKind::IfAlone | SplitKind::IfElse | SplitKind::AndThen | SplitKind::OrElse => 1,
    }
}

/// The number of values that an operation takes from the end of the list.
pub fn takes(operation: Operation) -> u32
    ensures { result ≡ o.takes operation }
{
    match operation {
        Operation::Binary(_, _) | Operation::Index(_) | Operation::Write | Operation::Combine(_) =>
            2,
        Operation::DropLast
        | Operation::Apply(_)
        | Operation::Branch(_)
        | Operation::Take
        | Operation::Read
        | Operation::PrintNumber
        | Operation::PrintByte
        | Operation::Heap
        | Operation::Begin
        | Operation::Block
        | Operation::Shrink => 1,
        Operation::Leave { gives, framed: _ } => gives as u32,
        Operation::Enter(arguments) => arguments,
        Operation::Split(split) => split_takes(split),
        _ => 0,
    }
}

/// The number of values that an operation then puts at the end of the list.
pub fn pushes(operation: Operation) -> u32
    ensures { result ≡ o.pushes operation }
{
    match operation {
        Operation::Push(_)
        | Operation::Get(_)
        | Operation::CopyLast
        | Operation::Apply(_)
        | Operation::Binary(_, _)
        | Operation::Index(_)
        | Operation::Take
        | Operation::Read
        | Operation::Write
        | Operation::Combine(_)
        | Operation::Heap
        | Operation::Block => 1,
        _ => 0,
    }
}

/// The number of parts that an operation begins around the code that follows it.
pub fn nests(operation: Operation) -> u32
    ensures { result ≡ o.nests operation }
{
    match operation {
        Operation::Begin | Operation::Split(_) | Operation::Farm | Operation::Seq => 1,
        _ => 0,
    }
}
