//! The code that splits share.

ghost use Rattle.std.specs.Prelude.{◌≡◌, ◌^◌, ◌<◌, ◌≤◌, None, OnOk, length, slice_index_or};
ghost use Rattle.fk_asm.specs.Assembly.{AreFollowed};
ghost use Rattle.fk_gen.specs.Lines.{label_of};
ghost use Rattle.fk_gen_group.specs.Splits.{one_part_label, two_parts_label, fork_label};
ghost use Rattle.fk_gen_list.specs.Layout.{AddsOnePart, AddsTwoParts, AddsFork};

use fk_asm::Assembler;
use fk_gen_group::{
    FORK_LABEL, ONE_PART_LABEL, TWO_PARTS_LABEL, emit_fork, emit_one_part, emit_two_parts,
};
use std::alloc::AllocError;

/// Adds the code that all splits into one part share, with its label.
pub(crate) fn emit_parting(into: &mut Assembler) -> Result<(), AllocError>
    requires room { length into.old.lines < 2 ^ 20 }
    requires followed { AreFollowed into.old }
    requires made { label_of 0 ≤ length into.old.bound }
    requires free { slice_index_or into.old.bound one_part_label None ≡ None }
    ensures added { OnOk result (AddsOnePart into.old into.new) }
    ensures followed { OnOk result (AreFollowed into.new) }
{
    into.bind(ONE_PART_LABEL)?;
    emit_one_part(into)
}

/// Adds the code that all splits into two parts share, with its label.
pub(crate) fn emit_halving(into: &mut Assembler) -> Result<(), AllocError>
    requires room { length into.old.lines < 2 ^ 20 }
    requires followed { AreFollowed into.old }
    requires made { label_of 0 ≤ length into.old.bound }
    requires free { slice_index_or into.old.bound two_parts_label None ≡ None }
    ensures added { OnOk result (AddsTwoParts into.old into.new) }
    ensures followed { OnOk result (AreFollowed into.new) }
{
    into.bind(TWO_PARTS_LABEL)?;
    emit_two_parts(into)
}

/// Adds the code that all forks share, with its label.
pub(crate) fn emit_forking(into: &mut Assembler) -> Result<(), AllocError>
    requires room { length into.old.lines < 2 ^ 20 }
    requires followed { AreFollowed into.old }
    requires made { label_of 0 ≤ length into.old.bound }
    requires free { slice_index_or into.old.bound fork_label None ≡ None }
    ensures added { OnOk result (AddsFork into.old into.new) }
    ensures followed { OnOk result (AreFollowed into.new) }
{
    into.bind(FORK_LABEL)?;
    emit_fork(into)
}
