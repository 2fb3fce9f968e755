//! The blocks of jumps and of operations.

ghost use Rattle.std.specs.Prelude.{◌≡◌, ◌+◌, ◌^◌, ◌<◌, ◌≤◌, true, false, All, OnOk, OnErr};
ghost use Rattle.std.specs.Prelude.{None, length};
ghost use Rattle.fk_asm.specs.Assembly.{AreFollowed, straight};
ghost use Rattle.fk_asm.specs.Block.{GoesToMade, HasBegun, with_block};
ghost use Rattle.fk_gen.specs.Lines.{first_commits};
ghost use Rattle.fk_gen_flow.specs.Flow.{jump_block, branch_block, giving_back, leaving_lines};
ghost use Rattle.fk_gen_flow.specs.Flow.{leave_block, halt_block, passes};
ghost use Rattle.fk_isa.specs.Fits.{Fits};

use crate::calls::emit_enter;
use crate::registers::FRAMES;
use fk_asm::{Assembler, Blocks};
use fk_gen::numbers::{TO_CONTROL, at_group_frame};
use fk_gen::registers::{DEVICES, END, FRAME, GROUP_FRAME, T0, T1, T2, ZERO};
use fk_gen::{BlockLine, Placed, emit_lines, operand};
use fk_isa::Instruction;
use fk_meaning_operation::Operation;
use std::alloc::AllocError;

/// The label of the block of the first operation.
pub const FIRST_LABEL: u32 = 128;
/// The offset of the device that ends its hart, from the first device, in bytes.
const HALT_DEVICE: u32 = 12;

/// The blocks of jumps, branches, calls, ends of calls and halts.
#[derive(Clone, Copy, Drop)]
pub struct FlowBlocks;

impl Blocks<Placed> for FlowBlocks {
    ghost use Rattle.fk_gen_flow.specs.Blocks.{HasFlow, flow_block};

    ghost has_block = { HasFlow };

    ghost block = { λ placed. flow_block placed.clears placed.back placed.op };

    fn emit_op(&self, op: &Placed, into: &mut Assembler) -> Result<(), AllocError> {
        let clears = op.clears;
        let back = op.back;
        let op = op.op;
        if op.is_jump() {
            return emit_jump(into, op.target);
        }
        match op.operation() {
            Some(Operation::Branch(onward)) => emit_branch(into, onward, op.depth, op.target),
            Some(Operation::Leave { gives, framed }) => emit_leave(into, gives, framed, op.depth),
            Some(Operation::Enter(arguments)) => {
                emit_enter(into, clears, arguments, op.depth, op.site, back)
            }
            Some(Operation::Halt) => emit_halt(into),
            _ => Ok(()),
        }
    }
}

pub(crate) fn emit_jump(into: &mut Assembler, target: u32) -> Result<(), AllocError>
    requires near { target < 2 ^ 31 }
    requires labels { All (GoesToMade into.old.bound) (jump_block target) }
    requires room { length into.old.lines + 1 < 2 ^ 30 }
    requires free { AreFollowed into.old }
    ensures added { OnOk result (into.new ≡ with_block into.old (jump_block target)) }
    ensures begun { OnErr result (HasBegun (jump_block target) into.old into.new) }
{
    emit_lines(
        into,
        &[BlockLine::goes_to(Instruction::Jal(ZERO, 0), FIRST_LABEL + target)],
    )
}

// The instruction that skips the next jump.
fn passes(onward: bool) -> Instruction
    ensures exact { result ≡ passes onward }
    ensures fits { Fits result }
{
    if onward {
        Instruction::Bne(T0, ZERO, 8)
    } else {
        Instruction::Beq(T0, ZERO, 8)
    }
}

fn emit_branch(
    into: &mut Assembler,
    onward: bool,
    depth: u32,
    target: u32,
) -> Result<(), AllocError>
    requires depth { depth ≤ 56 }
    requires near { target < 2 ^ 31 }
    requires labels { All (GoesToMade into.old.bound) (branch_block onward depth target) }
    requires room { length into.old.lines + 3 < 2 ^ 30 }
    requires free { AreFollowed into.old }
    ensures added { OnOk result
        (into.new ≡ with_block into.old (branch_block onward depth target)) }
    ensures begun { OnErr result (HasBegun (branch_block onward depth target) into.old into.new) }
{
    emit_lines(
        into,
        &[
            BlockLine::commits(operand(T0, depth)),
            BlockLine::quiet(passes(onward)),
            BlockLine::goes_to(Instruction::Jal(ZERO, 0), FIRST_LABEL + target),
        ],
    )
}

fn emit_leave(into: &mut Assembler, gives: bool, framed: bool, depth: u32) -> Result<(), AllocError>
    requires depth { depth ≤ 56 }
    requires room { length into.old.lines + length (leave_block gives framed depth) < 2 ^ 30 }
    requires free { AreFollowed into.old }
    ensures added { OnOk result (into.new ≡ with_block into.old (leave_block gives framed depth)) }
    ensures begun { OnErr result (HasBegun (leave_block gives framed depth) into.old into.new) }
{
    if framed {
        emit_framed_leave(into, gives, depth)
    } else {
        emit_leaving(into, true, gives, depth)
    }
}

// The end of a call that gives its group frame back.
fn emit_framed_leave(into: &mut Assembler, gives: bool, depth: u32) -> Result<(), AllocError>
    requires depth { depth ≤ 56 }
    requires room { length into.old.lines + length (leave_block gives true depth) < 2 ^ 30 }
    requires free { AreFollowed into.old }
    ensures added { OnOk result (into.new ≡ with_block into.old (leave_block gives true depth)) }
    ensures begun { OnErr result (HasBegun (leave_block gives true depth) into.old into.new) }
{
    emit_giving_back(into)?;
    emit_leaving(into, false, gives, depth)
}

fn emit_giving_back(into: &mut Assembler) -> Result<(), AllocError>
    requires room { length into.old.lines + 3 < 2 ^ 30 }
    requires free { AreFollowed into.old }
    ensures added { OnOk result (into.new ≡ with_block into.old (first_commits 1 giving_back)) }
    ensures begun { OnErr result (HasBegun (first_commits 1 giving_back) into.old into.new) }
{
    emit_lines(
        into,
        &[
            BlockLine::commits(Instruction::Lui(T2, TO_CONTROL)),
            BlockLine::quiet(Instruction::Add(FRAMES, GROUP_FRAME, T2)),
            BlockLine::quiet(Instruction::Lw(GROUP_FRAME, END, at_group_frame())),
        ],
    )
}

fn first_line(commits: bool, instruction: Instruction) -> BlockLine
    ensures { result ≡ record {
      line = straight instruction;
      commits = commits;
      event = None;
    } }
{
    if commits {
        BlockLine::commits(instruction)
    } else {
        BlockLine::quiet(instruction)
    }
}

// The lines with which a call ends. The first of them may do the operation.
fn emit_leaving(
    into: &mut Assembler,
    commits: bool,
    gives: bool,
    depth: u32,
) -> Result<(), AllocError>
    requires depth { depth ≤ 56 }
    requires room { length into.old.lines + length (leaving_lines commits gives depth) < 2 ^ 30 }
    requires free { AreFollowed into.old }
    ensures added { OnOk result
        (into.new ≡ with_block into.old (leaving_lines commits gives depth)) }
    ensures begun { OnErr result (HasBegun (leaving_lines commits gives depth) into.old into.new) }
{
    if gives {
        let result = first_line(commits, operand(T0, depth));
        emit_lines(
            into,
            &[
                result,
                BlockLine::quiet(Instruction::Lw(T1, FRAME, 0)),
                BlockLine::quiet(Instruction::Lw(T2, FRAME, 8)),
                BlockLine::quiet(Instruction::Sw(T2, T0, 0)),
                BlockLine::quiet(Instruction::Addi(END, FRAME, 0)),
                BlockLine::quiet(Instruction::Lw(FRAME, FRAME, 4)),
                BlockLine::quiet(Instruction::Jalr(ZERO, T1, 0)),
            ],
        )
    } else {
        let back = first_line(commits, Instruction::Lw(T1, FRAME, 0));
        emit_lines(
            into,
            &[
                back,
                BlockLine::quiet(Instruction::Addi(END, FRAME, 0)),
                BlockLine::quiet(Instruction::Lw(FRAME, FRAME, 4)),
                BlockLine::quiet(Instruction::Jalr(ZERO, T1, 0)),
            ],
        )
    }
}

fn emit_halt(into: &mut Assembler) -> Result<(), AllocError>
    requires room { length into.old.lines + 1 < 2 ^ 30 }
    requires free { AreFollowed into.old }
    ensures added { OnOk result (into.new ≡ with_block into.old halt_block) }
    ensures begun { OnErr result (HasBegun halt_block into.old into.new) }
{
    emit_lines(
        into,
        &[BlockLine::commits(Instruction::Sw(DEVICES, ZERO, HALT_DEVICE))],
    )
}
