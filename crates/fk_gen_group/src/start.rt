//! The code that all beginnings of `start` share.

ghost use Rattle.std.specs.Prelude.{◌≡◌, ◌+◌, ◌^◌, ◌<◌, ◌≤◌, OnOk, length};
ghost use Rattle.fk_asm.specs.Assembly.{AreFollowed};
ghost use Rattle.fk_asm.specs.Block.{with_block};
ghost use Rattle.fk_gen_group.specs.Blocks.{meet_lines, telling_lines, size_lines, parting_lines};
ghost use Rattle.fk_gen_group.specs.Blocks.{node_lines, space_lines};
ghost use Rattle.fk_gen_group.specs.Blocks.{start_lines};

use fk_asm::Assembler;
use fk_gen::numbers::{high_part, low_part};
use fk_gen::registers::{DEVICES, RA, RANK, SIZE, T0, T1, T2, T3, ZERO};
use fk_gen::{BlockLine, emit_lines};
use fk_gen_flow::registers::{BLOCKS, FRAMES, NODE};
use fk_image::Event;
use fk_isa::Instruction;
use std::alloc::AllocError;

/// The label at which this code is entered.
pub const START_LABEL: u32 = 57;
/// The address of the first control word.
const CONTROL: u32 = 0x1800_0000;
/// The offset of the word that counts those at the end of a body or a part, from the node's first
/// control word, in bytes.
const CLOSING: u32 = 4;
/// The offset of the agreed value from the node's first control word, in bytes.
const AGREED: u32 = 8;
/// The offset of the device that gives the number of input numbers.
const INPUTS_DEVICE: u32 = 28;

/// Adds the code that all beginnings of `start` share, for an image with `globals` words of
/// globals. All processors meet, agree on the value of the highest, and go each to its part. The
/// caller binds `START_LABEL` to the code's first line.
pub fn emit_start(into: &mut Assembler, globals: u32) -> Result<(), AllocError>
    requires few { globals ≤ 2 ^ 19 }
    requires room { length into.old.lines + 35 < 2 ^ 30 }
    requires free { AreFollowed into.old }
    ensures added { OnOk result (into.new ≡ with_block into.old (start_lines globals)) }
{
    emit_meeting(into)?;
    emit_telling(into)?;
    emit_size(into)?;
    emit_parting(into, globals)
}

// All processors meet in the root. Leaving is no operation.
fn emit_meeting(into: &mut Assembler) -> Result<(), AllocError>
    requires room { length into.old.lines + 11 < 2 ^ 30 }
    requires free { AreFollowed into.old }
    ensures added { OnOk result (into.new ≡ with_block into.old meet_lines) }
{
    emit_lines(
        into,
        &[
            BlockLine::quiet(Instruction::Addi(T2, NODE, CLOSING)),
            BlockLine::quiet(Instruction::Lui(T0, 0x30000)),
            BlockLine::quiet(Instruction::Lw(T0, T0, 16)),
            BlockLine::quiet(Instruction::Andi(T0, T0, 1)),
            BlockLine::quiet(Instruction::Addi(T1, ZERO, 1)),
            BlockLine::quiet(Instruction::Beq(T0, ZERO, 8)),
            BlockLine::quiet(Instruction::Addi(ZERO, ZERO, 0)),
            BlockLine::quiet(Instruction::AmoAddW(ZERO, T2, T1, false, false)),
            BlockLine::quiet(Instruction::Lw(T0, T2, 0)),
            BlockLine::quiet(Instruction::Bne(T0, SIZE, 0xffff_fffc)),
            BlockLine::quiet(Instruction::Sw(T2, ZERO, 0)),
        ],
    )
}

// All processors store their values in one cycle, so that the highest one's stays, and load it in
// the next.
fn emit_telling(into: &mut Assembler) -> Result<(), AllocError>
    requires room { length into.old.lines + 2 < 2 ^ 30 }
    requires free { AreFollowed into.old }
    ensures added { OnOk result (into.new ≡ with_block into.old telling_lines) }
{
    emit_lines(
        into,
        &[
            BlockLine::quiet(Instruction::Sw(NODE, T3, AGREED)),
            BlockLine::commits_as(Event::Split, Instruction::Lw(T3, NODE, AGREED)),
        ],
    )
}

// The value becomes the size of the group: 0 for a negative value, and at most the number of
// processors.
fn emit_size(into: &mut Assembler) -> Result<(), AllocError>
    requires room { length into.old.lines + 8 < 2 ^ 30 }
    requires free { AreFollowed into.old }
    ensures added { OnOk result (into.new ≡ with_block into.old size_lines) }
{
    emit_lines(
        into,
        &[
            BlockLine::quiet(Instruction::Srli(T1, T3, 31)),
            BlockLine::quiet(Instruction::Sltiu(T1, T1, 1)),
            BlockLine::quiet(Instruction::Mul(T3, T3, T1)),
            BlockLine::quiet(Instruction::Sltu(T1, T3, SIZE)),
            BlockLine::quiet(Instruction::Mul(T3, T3, T1)),
            BlockLine::quiet(Instruction::Sltiu(T1, T1, 1)),
            BlockLine::quiet(Instruction::Mul(T1, SIZE, T1)),
            BlockLine::quiet(Instruction::Add(T3, T3, T1)),
        ],
    )
}

// A processor whose number is not below the size goes back to wait. The others get the size of
// their group, its control words and its space.
fn emit_parting(into: &mut Assembler, globals: u32) -> Result<(), AllocError>
    requires few { globals ≤ 2 ^ 19 }
    requires room { length into.old.lines + 14 < 2 ^ 30 }
    requires free { AreFollowed into.old }
    ensures added { OnOk result (into.new ≡ with_block into.old (parting_lines globals)) }
{
    emit_node(into, globals)?;
    emit_space(into)
}

// The size of the group and its control words.
fn emit_node(into: &mut Assembler, globals: u32) -> Result<(), AllocError>
    requires few { globals ≤ 2 ^ 19 }
    requires room { length into.old.lines + 8 < 2 ^ 30 }
    requires free { AreFollowed into.old }
    ensures added { OnOk result (into.new ≡ with_block into.old (node_lines globals)) }
{
    let words = CONTROL + 4 * globals;
    emit_lines(
        into,
        &[
            BlockLine::quiet(Instruction::Bltu(RANK, T3, 8)),
            BlockLine::quiet(Instruction::Jalr(ZERO, RA, 0)),
            BlockLine::quiet(Instruction::Addi(SIZE, T3, 0)),
            BlockLine::quiet(Instruction::Lw(T0, DEVICES, INPUTS_DEVICE)),
            BlockLine::quiet(Instruction::Slli(T0, T0, 2)),
            BlockLine::quiet(Instruction::Lui(T1, high_part(words))),
            BlockLine::quiet(Instruction::Addi(T1, T1, low_part(words))),
            BlockLine::quiet(Instruction::Add(NODE, T0, T1)),
        ],
    )
}

// The space of the group, and the way to its body.
fn emit_space(into: &mut Assembler) -> Result<(), AllocError>
    requires room { length into.old.lines + 6 < 2 ^ 30 }
    requires free { AreFollowed into.old }
    ensures added { OnOk result (into.new ≡ with_block into.old space_lines) }
{
    emit_lines(
        into,
        &[
            BlockLine::quiet(Instruction::Addi(FRAMES, NODE, 32)),
            BlockLine::quiet(Instruction::Lui(T0, 0x18400)),
            BlockLine::quiet(Instruction::Add(T0, T0, NODE)),
            BlockLine::quiet(Instruction::Srli(T0, T0, 3)),
            BlockLine::quiet(Instruction::Slli(BLOCKS, T0, 2)),
            BlockLine::quiet(Instruction::Jalr(ZERO, RA, 4)),
        ],
    )
}
