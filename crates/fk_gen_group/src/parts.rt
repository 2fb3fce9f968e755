//! The code that all splits into one part share, all splits into two, and all forks.

ghost use Rattle.std.specs.Prelude.{◌≡◌, ◌+◌, ◌^◌, ◌<◌, ◌++◌, OnOk, length};
ghost use Rattle.fk_asm.specs.Assembly.{AreFollowed};
ghost use Rattle.fk_asm.specs.Block.{with_block};
ghost use Rattle.fk_gen_group.specs.Splits.{one_part_lines, two_parts_lines, one_part_place};
ghost use Rattle.fk_gen_group.specs.Splits.{two_parts_place, counting_lines, waiting_lines};
ghost use Rattle.fk_gen_group.specs.Splits.{saving_lines, into_one_part, into_two_parts};
ghost use Rattle.fk_gen_group.specs.Splits.{fork_lines, fork_room, fork_place, fork_saving};

use fk_asm::Assembler;
use fk_gen::registers::{NUMBER, RA, RANK, SIZE, T0, T1, T2, T3, T4, T5, T6, ZERO};
use fk_gen::{BlockLine, emit_lines};
use fk_gen_flow::registers::{BLOCKS, FRAMES, NODE};
use fk_image::Event;
use fk_isa::Instruction;
use std::alloc::AllocError;

/// The label at which the code of splits into one part is entered.
pub const ONE_PART_LABEL: u32 = 59;
/// The label at which the code of splits into two parts is entered.
pub const TWO_PARTS_LABEL: u32 = 60;
/// The label at which the code of forks is entered.
pub const FORK_LABEL: u32 = 61;
/// The offset of the word that counts those at a `barrier` from the node's first control word, in
/// bytes.
const BARRIER: u32 = 0;
/// The offset of the word that counts those at the end of a body or a part.
const CLOSING: u32 = 4;

/// Adds the code that all splits into one part share. The caller binds `ONE_PART_LABEL` to its
/// first line.
pub fn emit_one_part(into: &mut Assembler) -> Result<(), AllocError>
    requires room { length into.old.lines + 22 < 2 ^ 30 }
    requires free { AreFollowed into.old }
    ensures added { OnOk result (into.new ≡ with_block into.old one_part_lines) }
{
    emit_one_place(into)?;
    emit_counting(into, T3)?;
    emit_ways(into)
}

// Who waits goes back, and who enters goes on to the part.
fn emit_ways(into: &mut Assembler) -> Result<(), AllocError>
    requires room { length into.old.lines + 10 < 2 ^ 30 }
    requires free { AreFollowed into.old }
    ensures added { OnOk result
        (into.new ≡ with_block into.old (waiting_lines ++ (saving_lines ++ into_one_part))) }
{
    emit_waiting(into)?;
    emit_saving(into)?;
    emit_into_one(into)
}

/// Adds the code that all splits into two parts share. The caller binds `TWO_PARTS_LABEL` to its
/// first line.
pub fn emit_two_parts(into: &mut Assembler) -> Result<(), AllocError>
    requires room { length into.old.lines + 27 < 2 ^ 30 }
    requires free { AreFollowed into.old }
    ensures added { OnOk result (into.new ≡ with_block into.old two_parts_lines) }
{
    emit_two_places(into)?;
    emit_counting(into, T0)?;
    emit_saving(into)?;
    emit_into_two(into)
}

// The first control word of the one part, or of its own node for who waits.
fn emit_one_place(into: &mut Assembler) -> Result<(), AllocError>
    requires room { length into.old.lines + 7 < 2 ^ 30 }
    requires free { AreFollowed into.old }
    ensures added { OnOk result (into.new ≡ with_block into.old one_part_place) }
{
    emit_lines(
        into,
        &[
            BlockLine::quiet(Instruction::Addi(T1, FRAMES, 80)),
            BlockLine::quiet(Instruction::Bgeu(BLOCKS, T1, 8)),
            BlockLine::quiet(Instruction::Jalr(ZERO, RA, 4)),
            BlockLine::quiet(Instruction::Addi(T1, T1, 0xffff_ffc0)),
            BlockLine::quiet(Instruction::Sub(T1, T1, NODE)),
            BlockLine::quiet(Instruction::Mul(T1, T1, T3)),
            BlockLine::quiet(Instruction::Add(T1, T1, NODE)),
        ],
    )
}

// The first control word of the part with the number in `t3`, and in `t4` the bytes of each part.
fn emit_two_places(into: &mut Assembler) -> Result<(), AllocError>
    requires room { length into.old.lines + 11 < 2 ^ 30 }
    requires free { AreFollowed into.old }
    ensures added { OnOk result (into.new ≡ with_block into.old two_parts_place) }
{
    emit_lines(
        into,
        &[
            BlockLine::quiet(Instruction::Sub(T0, BLOCKS, FRAMES)),
            BlockLine::quiet(Instruction::Addi(T1, ZERO, 160)),
            BlockLine::quiet(Instruction::Bgeu(T0, T1, 8)),
            BlockLine::quiet(Instruction::Jalr(ZERO, RA, 4)),
            BlockLine::quiet(Instruction::Srli(T0, T0, 3)),
            BlockLine::quiet(Instruction::Slli(T0, T0, 2)),
            BlockLine::quiet(Instruction::Addi(T4, T0, 0xffff_fff0)),
            BlockLine::quiet(Instruction::Mul(T1, T3, T4)),
            BlockLine::quiet(Instruction::Add(T1, T1, FRAMES)),
            BlockLine::quiet(Instruction::Addi(T1, T1, 32)),
            BlockLine::quiet(Instruction::Addi(T0, ZERO, 1)),
        ],
    )
}

// All members of a part add up what this register has of each.
fn emit_counting(into: &mut Assembler, register: u8) -> Result<(), AllocError>
    requires register { register < 32 }
    requires room { length into.old.lines + 5 < 2 ^ 30 }
    requires free { AreFollowed into.old }
    ensures added { OnOk result (into.new ≡ with_block into.old (counting_lines register)) }
{
    emit_lines(
        into,
        &[
            BlockLine::quiet(Instruction::Sw(T1, ZERO, CLOSING)),
            BlockLine::quiet(Instruction::Sw(T1, ZERO, BARRIER)),
            BlockLine::quiet(Instruction::AmoAddW(ZERO, T1, register, false, false)),
            BlockLine::quiet(Instruction::Lw(T0, T1, BARRIER)),
            BlockLine::commits_as(Event::Split, Instruction::Sw(T1, ZERO, BARRIER)),
        ],
    )
}

// Who waits goes back.
fn emit_waiting(into: &mut Assembler) -> Result<(), AllocError>
    requires room { length into.old.lines + 2 < 2 ^ 30 }
    requires free { AreFollowed into.old }
    ensures added { OnOk result (into.new ≡ with_block into.old waiting_lines) }
{
    emit_lines(
        into,
        &[
            BlockLine::quiet(Instruction::Bne(T3, ZERO, 8)),
            BlockLine::quiet(Instruction::Jalr(ZERO, RA, 0)),
        ],
    )
}

// The level of the group, and the node, the size and the frames of the part.
fn emit_saving(into: &mut Assembler) -> Result<(), AllocError>
    requires room { length into.old.lines + 7 < 2 ^ 30 }
    requires free { AreFollowed into.old }
    ensures added { OnOk result (into.new ≡ with_block into.old saving_lines) }
{
    emit_lines(
        into,
        &[
            BlockLine::quiet(Instruction::Sw(T2, SIZE, 0)),
            BlockLine::quiet(Instruction::Sw(T2, NODE, 4)),
            BlockLine::quiet(Instruction::Sw(T2, BLOCKS, 8)),
            BlockLine::quiet(Instruction::Sw(T2, FRAMES, 12)),
            BlockLine::quiet(Instruction::Addi(NODE, T1, 0)),
            BlockLine::quiet(Instruction::Addi(SIZE, T0, 0)),
            BlockLine::quiet(Instruction::Addi(FRAMES, T1, 32)),
        ],
    )
}

fn emit_into_one(into: &mut Assembler) -> Result<(), AllocError>
    requires room { length into.old.lines + 1 < 2 ^ 30 }
    requires free { AreFollowed into.old }
    ensures added { OnOk result (into.new ≡ with_block into.old into_one_part) }
{
    emit_lines(into, &[BlockLine::quiet(Instruction::Jalr(ZERO, RA, 16))])
}

// The blocks of the part begin where it ends.
fn emit_into_two(into: &mut Assembler) -> Result<(), AllocError>
    requires room { length into.old.lines + 4 < 2 ^ 30 }
    requires free { AreFollowed into.old }
    ensures added { OnOk result (into.new ≡ with_block into.old into_two_parts) }
{
    emit_lines(
        into,
        &[
            BlockLine::quiet(Instruction::Add(BLOCKS, T1, T4)),
            BlockLine::quiet(Instruction::Bne(T3, ZERO, 8)),
            BlockLine::quiet(Instruction::Jalr(ZERO, RA, 16)),
            BlockLine::quiet(Instruction::Jalr(ZERO, RA, 0)),
        ],
    )
}

/// Adds the code that all forks share. The caller binds `FORK_LABEL` to its first line.
pub fn emit_fork(into: &mut Assembler) -> Result<(), AllocError>
    requires room { length into.old.lines + 40 < 2 ^ 30 }
    requires free { AreFollowed into.old }
    ensures added { OnOk result (into.new ≡ with_block into.old fork_lines) }
{
    emit_fork_room(into)?;
    emit_fork_place(into)?;
    emit_counting(into, T3)?;
    emit_fork_ways(into)
}

// How many free words there are for each part.
fn emit_fork_room(into: &mut Assembler) -> Result<(), AllocError>
    requires room { length into.old.lines + 9 < 2 ^ 30 }
    requires free { AreFollowed into.old }
    ensures added { OnOk result (into.new ≡ with_block into.old fork_room) }
{
    emit_lines(
        into,
        &[
            BlockLine::quiet(Instruction::Srli(T0, T3, 31)),
            BlockLine::quiet(Instruction::Sltiu(T0, T0, 1)),
            BlockLine::quiet(Instruction::Mul(T3, T3, T0)),
            BlockLine::quiet(Instruction::Sub(T0, BLOCKS, FRAMES)),
            BlockLine::quiet(Instruction::Srli(T0, T0, 2)),
            BlockLine::quiet(Instruction::Divu(T0, T0, T3)),
            BlockLine::quiet(Instruction::Addi(T1, ZERO, 20)),
            BlockLine::quiet(Instruction::Bgeu(T0, T1, 8)),
            BlockLine::quiet(Instruction::Jalr(ZERO, RA, 4)),
        ],
    )
}

// The first control word of the part with the number in `t4`, or of its own node for who waits, and
// in `t6` the bytes of each part.
fn emit_fork_place(into: &mut Assembler) -> Result<(), AllocError>
    requires room { length into.old.lines + 10 < 2 ^ 30 }
    requires free { AreFollowed into.old }
    ensures added { OnOk result (into.new ≡ with_block into.old fork_place) }
{
    emit_lines(
        into,
        &[
            BlockLine::quiet(Instruction::Addi(T0, T0, 0xffff_fffc)),
            BlockLine::quiet(Instruction::Slli(T6, T0, 2)),
            BlockLine::quiet(Instruction::Mul(T1, T4, T6)),
            BlockLine::quiet(Instruction::Slli(T0, T3, 4)),
            BlockLine::quiet(Instruction::Add(T1, T1, T0)),
            BlockLine::quiet(Instruction::Add(T1, T1, FRAMES)),
            BlockLine::quiet(Instruction::Sltu(T3, T4, T3)),
            BlockLine::quiet(Instruction::Sub(T1, T1, NODE)),
            BlockLine::quiet(Instruction::Mul(T1, T1, T3)),
            BlockLine::quiet(Instruction::Add(T1, T1, NODE)),
        ],
    )
}

// Who waits goes back, and who enters goes on to its part.
fn emit_fork_ways(into: &mut Assembler) -> Result<(), AllocError>
    requires room { length into.old.lines + 16 < 2 ^ 30 }
    requires free { AreFollowed into.old }
    ensures added { OnOk result
        (into.new ≡ with_block into.old (waiting_lines ++ (fork_saving ++ into_one_part))) }
{
    emit_waiting(into)?;
    emit_fork_saving(into)?;
    emit_into_one(into)
}

// The level of the group with `@` and `$`, and all that the part has of its own.
fn emit_fork_saving(into: &mut Assembler) -> Result<(), AllocError>
    requires room { length into.old.lines + 13 < 2 ^ 30 }
    requires free { AreFollowed into.old }
    ensures added { OnOk result (into.new ≡ with_block into.old fork_saving) }
{
    emit_lines(
        into,
        &[
            BlockLine::quiet(Instruction::Slli(T3, NUMBER, 11)),
            BlockLine::quiet(Instruction::Add(T3, T3, SIZE)),
            BlockLine::quiet(Instruction::Sw(T2, T3, 0)),
            BlockLine::quiet(Instruction::Sw(T2, NODE, 4)),
            BlockLine::quiet(Instruction::Sw(T2, BLOCKS, 8)),
            BlockLine::quiet(Instruction::Sw(T2, RANK, 12)),
            BlockLine::quiet(Instruction::Addi(NODE, T1, 0)),
            BlockLine::quiet(Instruction::Addi(SIZE, T0, 0)),
            BlockLine::quiet(Instruction::Addi(T3, FRAMES, 0)),
            BlockLine::quiet(Instruction::Addi(FRAMES, T1, 32)),
            BlockLine::quiet(Instruction::Add(BLOCKS, T1, T6)),
            BlockLine::quiet(Instruction::Addi(NUMBER, T4, 0)),
            BlockLine::quiet(Instruction::Addi(RANK, T5, 0)),
        ],
    )
}
