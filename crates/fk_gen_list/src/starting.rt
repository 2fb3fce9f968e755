//! The code that all beginnings of `start` share.

ghost use Rattle.std.specs.Prelude.{◌≡◌, ◌^◌, ◌<◌, ◌≤◌, None, OnOk, length, slice_index_or};
ghost use Rattle.fk_asm.specs.Assembly.{AreFollowed};
ghost use Rattle.fk_gen.specs.Lines.{label_of};
ghost use Rattle.fk_gen_group.specs.Blocks.{start_label};
ghost use Rattle.fk_gen_list.specs.Layout.{AddsStart};

use fk_asm::Assembler;
use fk_gen_group::{START_LABEL, emit_start};
use std::alloc::AllocError;

/// Adds the code that all beginnings of `start` share, with its label, for an image with `globals`
/// words of globals.
pub(crate) fn emit_starting(into: &mut Assembler, globals: u32) -> Result<(), AllocError>
    requires few { globals ≤ 2 ^ 19 }
    requires room { length into.old.lines < 2 ^ 20 }
    requires followed { AreFollowed into.old }
    requires made { label_of 0 ≤ length into.old.bound }
    requires free { slice_index_or into.old.bound start_label None ≡ None }
    ensures added { OnOk result (AddsStart globals into.old into.new) }
    ensures followed { OnOk result (AreFollowed into.new) }
{
    into.bind(START_LABEL)?;
    emit_start(into, globals)
}
