//! How the members of a node act after a step.

ghost use Rattle.std.specs.Prelude.{◌≡◌};
ghost use Rattle.fk_replay_trees.specs.Changes as changes;

use fk_meaning_operation::{Operation, SplitKind};
use fk_replay_rounds::Mode;

/// How the members of a processor's node act after a step, in which the processor took one of its
/// ways.
pub(crate) fn mode_after(operation: Operation, onward: bool, is_root: bool, mode: Mode) -> Mode
    ensures { result ≡ changes.mode_after operation onward is_root mode }
{
    match operation {
        Operation::Split(SplitKind::IfElse) | Operation::Meet(true) => Mode::Group,
        Operation::Begin | Operation::Shrink | Operation::Split(_) => {
            if onward { Mode::Group } else { Mode::Apart }
        }
        Operation::Farm | Operation::End => Mode::Apart,
        Operation::Seq => Mode::Alone,
        Operation::Resume => { if is_root { Mode::Apart } else { Mode::Group } }
        _ => mode,
    }
}
