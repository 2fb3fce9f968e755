//! The opening of an image.

ghost use Rattle.std.specs.Prelude.{◌≡◌, ◌+◌, ◌*◌, ◌^◌, ◌<◌, ◌≤◌, All, OnOk, length};
ghost use Rattle.fk_asm.specs.Assembly.{AreFollowed};
ghost use Rattle.fk_asm.specs.Block.{GoesToMade, with_block};
ghost use Rattle.fk_gen_flow.specs.Flow.{jump_block};
ghost use Rattle.fk_gen_flow.specs.Opening.{register_lines, first_lines, first_line, opening_lines};

use crate::blocks::emit_jump;
use crate::registers::{BODY, NODE};
use fk_asm::Assembler;
use fk_gen::numbers::{at_private, high_part, low_part};
use fk_gen::registers::{
    DEVICES, END, FRAME, HEAP, HEAP_MASK, LOCAL, RANK, SHARED, SHARED_MASK, SIZE, T0,
};
use fk_gen::{BlockLine, emit_lines};
use fk_isa::Instruction;
use std::alloc::AllocError;

/// Adds the opening: the registers, the first value of each private variable of file scope, and
/// the jump to `main`.
pub fn emit_opening(into: &mut Assembler, firsts: &[u32], main: u32) -> Result<(), AllocError>
    requires few { length firsts.now ≤ 56 }
    requires near { main < 2 ^ 31 }
    requires labels { All (GoesToMade into.old.bound) (jump_block main) }
    requires room { length into.old.lines < 2 ^ 29 }
    requires free { AreFollowed into.old }
    ensures added { OnOk result
        (into.new ≡ with_block into.old (opening_lines (length firsts.now) firsts.now main)) }
{
    emit_registers(into, firsts.len() as u32)?;
    emit_firsts(into, firsts)?;
    emit_jump(into, main)
}

fn emit_registers(into: &mut Assembler, of_file: u32) -> Result<(), AllocError>
    requires few { of_file ≤ 56 }
    requires room { length into.old.lines + 14 < 2 ^ 30 }
    requires free { AreFollowed into.old }
    ensures added { OnOk result (into.new ≡ with_block into.old (register_lines of_file)) }
{
    emit_lines(
        into,
        &[
            BlockLine::quiet(Instruction::Lui(LOCAL, 0x20000)),
            BlockLine::quiet(Instruction::Addi(FRAME, LOCAL, 4 * of_file)),
            BlockLine::quiet(Instruction::Addi(END, LOCAL, 256)),
            BlockLine::quiet(Instruction::Lui(SHARED, 0x10000)),
            BlockLine::quiet(Instruction::Lui(HEAP, 0x20010)),
            BlockLine::quiet(Instruction::Lui(SHARED_MASK, 0xffc00)),
            BlockLine::quiet(Instruction::Addi(SHARED_MASK, SHARED_MASK, 3)),
            BlockLine::quiet(Instruction::Lui(HEAP_MASK, 0xffff0)),
            BlockLine::quiet(Instruction::Addi(HEAP_MASK, HEAP_MASK, 3)),
            BlockLine::quiet(Instruction::Lui(DEVICES, 0x30000)),
            BlockLine::quiet(Instruction::Lw(RANK, DEVICES, 20)),
            BlockLine::quiet(Instruction::Lw(SIZE, DEVICES, 24)),
            BlockLine::quiet(Instruction::Lui(NODE, 0x18400)),
            BlockLine::quiet(Instruction::Addi(BODY, SIZE, 0)),
        ],
    )
}

fn emit_firsts(into: &mut Assembler, firsts: &[u32]) -> Result<(), AllocError>
    requires few { length firsts.now ≤ 56 }
    requires room { length into.old.lines + 3 * length firsts.now < 2 ^ 30 }
    requires free { AreFollowed into.old }
    ensures added { OnOk result (into.new ≡ with_block into.old (first_lines 0 firsts.now)) }
{
    for (i, value) in firsts.iter().enumerate() {
        emit_first(into, i as u32, *value)?;
    }
    Ok(())
}

fn emit_first(into: &mut Assembler, i: u32, value: u32) -> Result<(), AllocError>
    requires few { i < 56 }
    requires room { length into.old.lines + 3 < 2 ^ 30 }
    requires free { AreFollowed into.old }
    ensures added { OnOk result (into.new ≡ with_block into.old (first_line i value)) }
{
    emit_lines(
        into,
        &[
            BlockLine::quiet(Instruction::Lui(T0, high_part(value))),
            BlockLine::quiet(Instruction::Addi(T0, T0, low_part(value))),
            BlockLine::quiet(Instruction::Sw(LOCAL, T0, at_private(i))),
        ],
    )
}
