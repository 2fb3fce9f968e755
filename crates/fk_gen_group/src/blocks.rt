//! The blocks of steps of groups.

ghost use Rattle.std.specs.Prelude.{◌≡◌, ◌+◌, ◌*◌, ◌^◌, ◌<◌, ◌≤◌, ◌==◌, All, OnOk, OnErr, length};
ghost use Rattle.fk_asm.specs.Assembly.{AreFollowed};
ghost use Rattle.fk_asm.specs.Block.{GoesToMade, HasBegun, with_block};
ghost use Rattle.fk_gen_group.specs.Blocks.{meet_block, begin_block, agree_block, farm_block};
ghost use Rattle.fk_gen_group.specs.Blocks.{seq_block, end_block, frame_block, frame_lines};
ghost use Rattle.fk_gen_group.specs.Blocks.{first_taking, second_taking, shalloc_block, end_by};
ghost use Rattle.fk_gen_group.specs.Blocks.{HasFewWords};
ghost use Rattle.fk_isa.specs.Fits.{Fits};

use crate::splits::{end_part, shrink, split};
use crate::start::START_LABEL;
use fk_asm::{Assembler, Blocks};
use fk_gen::numbers::{TO_DATA, at_group_frame, high_part, low_part};
use fk_gen::registers::{
    DEVICES as DEVICE, END, GROUP_FRAME, NUMBER, RA, RANK, SIZE, T0, T1, T2, T3, ZERO,
};
use fk_gen::{BlockLine, Levels, Placed, emit_lines, emit_sum, operand, result};
use fk_gen_flow::registers::{BLOCKS, BODY, FRAMES, NODE};
use fk_image::Event;
use fk_isa::Instruction;
use fk_meaning_operation::Operation;
use std::alloc::AllocError;

/// The label of the block of the first operation.
const FIRST_LABEL: u32 = 128;
/// The upper 20 bits of the addresses of devices.
const DEVICES: u32 = 0x30000;
/// The offset of the device that gives the number of cycles finished.
const CYCLE_DEVICE: u32 = 16;
/// The offset of the device that gives the number of the hart.
const NUMBER_DEVICE: u32 = 20;
/// The offset of the device that gives the number of harts.
const HARTS_DEVICE: u32 = 24;
/// The upper 20 bits of the address of the root's control words.
const ROOT_WORDS: u32 = 0x18400;
/// The control word of a node that counts those at a `barrier`.
const BARRIER_WORD: u32 = 0;
/// The control word of a node that counts those at the end of a body or a part.
const CLOSING_WORD: u32 = 1;
/// The offset of the agreed value from the node's first control word, in bytes.
const AGREED: u32 = 8;

/// The offset of the device that ends a run at a site, from the first device, in bytes.
const FAULT_DEVICE: u32 = 8;

/// The blocks of barriers, of the ends of bodies and parts, of `farm`, `seq`, the beginning and the
/// end of `start`, of agreement, of frames and blocks of groups, of splits and of shrinks.
#[derive(Clone, Copy, Drop)]
pub struct GroupBlocks;

impl Blocks<Placed> for GroupBlocks {
    ghost use Rattle.fk_gen_group.specs.Blocks.{HasGroupStep, block_of};

    ghost has_block = { HasGroupStep };

    ghost block = { block_of };

    fn emit_op(&self, op: &Placed, into: &mut Assembler) -> Result<(), AllocError> {
        match op.op.operation() {
            Some(Operation::Begin) => begin(into, op.op.depth, op.op.target),
            Some(Operation::Agree) => agree(into, op.op.depth),
            Some(Operation::Farm) => farm(into),
            Some(Operation::Seq) => seq(into, op.op.target),
            Some(Operation::End) => end_group(into, op.levels, op.op.target),
            Some(Operation::Resume) => meet(into, Event::Resume, CLOSING_WORD, SIZE),
            Some(Operation::Meet(true)) => meet(into, Event::Meet, CLOSING_WORD, SIZE),
            Some(Operation::Meet(false)) => meet(into, Event::Meet, BARRIER_WORD, BODY),
            Some(Operation::Frame { nesting, words }) => frame(into, nesting, words, op.op.site),
            Some(Operation::Block) => shalloc(into, op.op.depth),
            Some(Operation::Split(by)) => {
                split(into, by, op.levels, op.op.depth, op.op.target, op.op.site)
            }
            Some(Operation::Shrink) => shrink(into, op.levels, op.op.depth, op.op.target),
            _ => Ok(()),
        }
    }
}

// A meeting at a control word of the node, and the event that leaving it is. A register has the
// number of its members. Arrivals come in even cycles, and polls in odd ones.
fn meet(into: &mut Assembler, event: Event, word: u32, size: u8) -> Result<(), AllocError>
    requires word { word < 8 }
    requires size { size < 32 }
    requires room { length into.old.lines + 11 < 2 ^ 30 }
    requires free { AreFollowed into.old }
    ensures added { OnOk result (into.new ≡ with_block into.old (meet_block event word size)) }
    ensures begun { OnErr result (HasBegun (meet_block event word size) into.old into.new) }
{
    emit_lines(
        into,
        &[
            BlockLine::quiet(Instruction::Addi(T2, NODE, 4 * word)),
            BlockLine::quiet(Instruction::Lui(T0, DEVICES)),
            BlockLine::quiet(Instruction::Lw(T0, T0, CYCLE_DEVICE)),
            BlockLine::quiet(Instruction::Andi(T0, T0, 1)),
            BlockLine::quiet(Instruction::Addi(T1, ZERO, 1)),
            BlockLine::quiet(Instruction::Beq(T0, ZERO, 8)),
            BlockLine::quiet(Instruction::Addi(ZERO, ZERO, 0)),
            BlockLine::quiet(Instruction::AmoAddW(ZERO, T2, T1, false, false)),
            BlockLine::quiet(Instruction::Lw(T0, T2, 0)),
            BlockLine::quiet(Instruction::Bne(T0, size, 0xffff_fffc)),
            BlockLine::commits_as(event, Instruction::Sw(T2, ZERO, 0)),
        ],
    )
}

// The beginning of `start`. All beginnings share most of its code.
fn begin(into: &mut Assembler, depth: u32, target: u32) -> Result<(), AllocError>
    requires depth { depth ≤ 56 }
    requires near { target < 2 ^ 31 }
    requires labels { All (GoesToMade into.old.bound) (begin_block depth target) }
    requires room { length into.old.lines + 3 < 2 ^ 30 }
    requires free { AreFollowed into.old }
    ensures added { OnOk result (into.new ≡ with_block into.old (begin_block depth target)) }
    ensures begun { OnErr result (HasBegun (begin_block depth target) into.old into.new) }
{
    emit_lines(
        into,
        &[
            BlockLine::quiet(operand(T3, depth)),
            BlockLine::goes_to(Instruction::Jal(RA, 0), START_LABEL),
            BlockLine::goes_to(Instruction::Jal(ZERO, 0), FIRST_LABEL + target),
        ],
    )
}

fn agree(into: &mut Assembler, depth: u32) -> Result<(), AllocError>
    requires depth { depth ≤ 56 }
    requires room { length into.old.lines + 4 < 2 ^ 30 }
    requires free { AreFollowed into.old }
    ensures added { OnOk result (into.new ≡ with_block into.old (agree_block depth)) }
    ensures begun { OnErr result (HasBegun (agree_block depth) into.old into.new) }
{
    emit_lines(
        into,
        &[
            BlockLine::quiet(operand(T0, depth)),
            BlockLine::quiet(Instruction::Sw(NODE, T0, AGREED)),
            BlockLine::commits_as(Event::Agree, Instruction::Lw(T0, NODE, AGREED)),
            BlockLine::quiet(result(T0, depth)),
        ],
    )
}

fn farm(into: &mut Assembler) -> Result<(), AllocError>
    requires room { length into.old.lines + 1 < 2 ^ 30 }
    requires free { AreFollowed into.old }
    ensures added { OnOk result (into.new ≡ with_block into.old farm_block) }
    ensures begun { OnErr result (HasBegun farm_block into.old into.new) }
{
    emit_lines(
        into,
        &[BlockLine::commits(Instruction::Addi(BODY, SIZE, 0))],
    )
}

fn seq(into: &mut Assembler, target: u32) -> Result<(), AllocError>
    requires near { target < 2 ^ 31 }
    requires labels { All (GoesToMade into.old.bound) (seq_block target) }
    requires room { length into.old.lines + 7 < 2 ^ 30 }
    requires free { AreFollowed into.old }
    ensures added { OnOk result (into.new ≡ with_block into.old (seq_block target)) }
    ensures begun { OnErr result (HasBegun (seq_block target) into.old into.new) }
{
    emit_lines(
        into,
        &[
            BlockLine::quiet(Instruction::Addi(T2, NODE, AGREED)),
            BlockLine::quiet(Instruction::Addi(T1, ZERO, 1)),
            BlockLine::quiet(Instruction::Sw(T2, ZERO, 0)),
            BlockLine::commits(Instruction::AmoAddW(T0, T2, T1, false, false)),
            BlockLine::quiet(Instruction::Beq(T0, ZERO, 8)),
            BlockLine::goes_to(Instruction::Jal(ZERO, 0), FIRST_LABEL + target),
            BlockLine::quiet(Instruction::Addi(BODY, ZERO, 1)),
        ],
    )
}

// The end of a part, or of the group of `start`, where the frame has no levels.
fn end_group(into: &mut Assembler, levels: Levels, target: u32) -> Result<(), AllocError>
    requires near { target < 2 ^ 31 }
    requires levels { levels.behind + 4 * levels.count ≤ 57 }
    requires words { HasFewWords levels.fork }
    requires labels { All (GoesToMade into.old.bound) (end_by levels target) }
    requires room { length into.old.lines + length (end_by levels target) < 2 ^ 30 }
    requires free { AreFollowed into.old }
    ensures added { OnOk result (into.new ≡ with_block into.old (end_by levels target)) }
    ensures begun { OnErr result (HasBegun (end_by levels target) into.old into.new) }
{
    if levels.count == 0 {
        end(into, target)
    } else {
        end_part(into, levels, target)
    }
}

// The end of the group of `start`.
fn end(into: &mut Assembler, target: u32) -> Result<(), AllocError>
    requires near { target < 2 ^ 31 }
    requires labels { All (GoesToMade into.old.bound) (end_block target) }
    requires room { length into.old.lines + 7 < 2 ^ 30 }
    requires free { AreFollowed into.old }
    ensures added { OnOk result (into.new ≡ with_block into.old (end_block target)) }
    ensures begun { OnErr result (HasBegun (end_block target) into.old into.new) }
{
    emit_lines(
        into,
        &[
            BlockLine::commits_as(Event::End, Instruction::Addi(NUMBER, ZERO, 0)),
            BlockLine::quiet(Instruction::Lui(T0, DEVICES)),
            BlockLine::quiet(Instruction::Lw(RANK, T0, NUMBER_DEVICE)),
            BlockLine::quiet(Instruction::Lw(SIZE, T0, HARTS_DEVICE)),
            BlockLine::quiet(Instruction::Addi(BODY, SIZE, 0)),
            BlockLine::quiet(Instruction::Lui(NODE, ROOT_WORDS)),
            BlockLine::goes_to(Instruction::Jal(ZERO, 0), FIRST_LABEL + target),
        ],
    )
}

// A group frame of so many words.
fn frame(into: &mut Assembler, nesting: u32, words: u32, site: u32) -> Result<(), AllocError>
    requires few { words < 2 ^ 21 }
    requires room { length into.old.lines + length (frame_block nesting words site) < 2 ^ 30 }
    requires free { AreFollowed into.old }
    ensures added { OnOk result (into.new ≡ with_block into.old (frame_block nesting words site)) }
    ensures begun { OnErr result (HasBegun (frame_block nesting words site) into.old into.new) }
{
    emit_sum(into, 4 * words, FRAMES)?;
    emit_taking(into, nesting, site)
}

// The lines of a frame that ends at the address in `t0`.
fn emit_taking(into: &mut Assembler, nesting: u32, site: u32) -> Result<(), AllocError>
    requires room { length into.old.lines + 8 < 2 ^ 30 }
    requires free { AreFollowed into.old }
    ensures added { OnOk result (into.new ≡ with_block into.old (frame_lines nesting site)) }
    ensures begun { OnErr result (HasBegun (frame_lines nesting site) into.old into.new) }
{
    emit_lines(
        into,
        &[
            BlockLine::quiet(Instruction::Lui(T1, TO_DATA)),
            BlockLine::quiet(Instruction::Bgeu(BLOCKS, T0, 16)),
            BlockLine::quiet(Instruction::Lui(T1, high_part(site))),
            BlockLine::quiet(Instruction::Addi(T1, T1, low_part(site))),
            BlockLine::commits(Instruction::Sw(DEVICE, T1, FAULT_DEVICE)),
            BlockLine::quiet(first_taking(nesting)),
            BlockLine::quiet(second_taking(nesting)),
            BlockLine::commits(Instruction::Addi(FRAMES, T0, 0)),
        ],
    )
}

// The instructions that take the frame. The function's own comes to a register.
fn first_taking(nesting: u32) -> Instruction
    ensures exact { result ≡ first_taking (nesting == 0) }
    ensures fits { Fits result }
{
    if nesting == 0 {
        Instruction::Sw(END, GROUP_FRAME, at_group_frame())
    } else {
        Instruction::Addi(T1, T1, 0)
    }
}

fn second_taking(nesting: u32) -> Instruction
    ensures exact { result ≡ second_taking (nesting == 0) }
    ensures fits { Fits result }
{
    if nesting == 0 {
        Instruction::Add(GROUP_FRAME, T1, FRAMES)
    } else {
        Instruction::Addi(T1, T1, 0)
    }
}

fn shalloc(into: &mut Assembler, depth: u32) -> Result<(), AllocError>
    requires depth { depth ≤ 56 }
    requires room { length into.old.lines + length (shalloc_block depth) < 2 ^ 30 }
    requires free { AreFollowed into.old }
    ensures added { OnOk result (into.new ≡ with_block into.old (shalloc_block depth)) }
    ensures begun { OnErr result (HasBegun (shalloc_block depth) into.old into.new) }
{
    emit_lines(
        into,
        &[
            BlockLine::commits(operand(T0, depth)),
            BlockLine::quiet(Instruction::Addi(T0, T0, 3)),
            BlockLine::quiet(Instruction::Andi(T0, T0, 0xffff_fffc)),
            BlockLine::quiet(Instruction::Sub(T1, BLOCKS, FRAMES)),
            BlockLine::quiet(Instruction::Addi(T2, T0, 0xffff_ffff)),
            BlockLine::quiet(Instruction::Sltu(T2, T2, T1)),
            BlockLine::quiet(Instruction::Sub(T2, ZERO, T2)),
            BlockLine::quiet(Instruction::And(T0, T0, T2)),
            BlockLine::quiet(Instruction::Sub(BLOCKS, BLOCKS, T0)),
            BlockLine::quiet(Instruction::Lui(T1, TO_DATA)),
            BlockLine::quiet(Instruction::Add(T1, T1, BLOCKS)),
            BlockLine::quiet(Instruction::And(T1, T1, T2)),
            BlockLine::quiet(result(T1, depth)),
        ],
    )
}
