//! The code that all blocks of `shmalloc` share.

ghost use Rattle.std.specs.Prelude.{◌≡◌, ◌^◌, ◌<◌, ◌≤◌, None, OnOk, length, slice_index_or};
ghost use Rattle.fk_asm.specs.Assembly.{AreFollowed};
ghost use Rattle.fk_gen.specs.Lines.{label_of};
ghost use Rattle.fk_gen_access.specs.Heap.{heap_label};
ghost use Rattle.fk_gen_list.specs.Layout.{AddsHeap};

use fk_asm::Assembler;
use fk_gen_access::{HEAP_LABEL, emit_heap};
use std::alloc::AllocError;

/// Adds the code that all blocks of `shmalloc` share, with its label, for an image with `globals`
/// words of globals.
pub(crate) fn emit_hiring(into: &mut Assembler, globals: u32) -> Result<(), AllocError>
    requires few { globals ≤ 2 ^ 19 }
    requires room { length into.old.lines < 2 ^ 20 }
    requires followed { AreFollowed into.old }
    requires made { label_of 0 ≤ length into.old.bound }
    requires free { slice_index_or into.old.bound heap_label None ≡ None }
    ensures added { OnOk result (AddsHeap globals into.old into.new) }
    ensures followed { OnOk result (AreFollowed into.new) }
{
    into.bind(HEAP_LABEL)?;
    emit_heap(into, globals)
}
