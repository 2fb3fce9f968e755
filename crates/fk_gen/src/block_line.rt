//! Lines of blocks.

ghost use Rattle.std.specs.Prelude.{◌≡◌, ◌+◌, ◌-◌, ◌^◌, ◌<◌, ◌≤◌, [], ◌∷◌, All, OnOk, OnErr, length};
ghost use Rattle.std.specs.Prelude.{map};
ghost use Rattle.fk_asm.specs.Assembly.{AreFollowed};
ghost use Rattle.fk_asm.specs.Block.{GoesToMade, HasBegun, with_block};
ghost use Rattle.fk_isa.specs.Fits.{IsRegister};
ghost use Rattle.fk_gen.specs.Lines.{marked, number_in, quiet, load_number, add_number};
ghost use Rattle.fk_gen.specs.Lines.{FitLine, FitLines};

use crate::numbers::{high_part, low_part};
use crate::registers::{T0, ZERO};
use fk_asm::{Assembler, Line};
use fk_image::Event;
use fk_isa::Instruction;
use std::alloc::AllocError;

/// A line of a block, and whether its instruction does the operation of the block.
#[derive(Clone, Copy)]
pub struct BlockLine {
    pub line: Line,
    pub commits: bool,
    /// The event that the operation is, if it is one.
    pub event: Option<Event>,
}

impl BlockLine {
    ghost use Rattle.std.specs.Prelude.{◌≡◌, true, false, Some, None};
    ghost use Rattle.fk_asm.specs.Assembly.{straight, jump_to};

    /// An instruction that does no operation.
    pub fn quiet(instruction: Instruction) -> BlockLine
        ensures { result ≡ record {
          line = straight instruction;
          commits = false;
          event = None;
        } }
    {
        BlockLine {
            line: Line {
                instruction,
                label: None,
            },
            commits: false,
            event: None,
        }
    }

    /// The instruction that does the operation.
    pub fn commits(instruction: Instruction) -> BlockLine
        ensures { result ≡ record {
          line = straight instruction;
          commits = true;
          event = None;
        } }
    {
        BlockLine::does(None, instruction)
    }

    /// The instruction that does the operation, which is an event.
    pub fn commits_as(event: Event, instruction: Instruction) -> BlockLine
        ensures { result ≡ record {
          line = straight instruction;
          commits = true;
          event = Some event;
        } }
    {
        BlockLine::does(Some(event), instruction)
    }

    fn does(event: Option<Event>, instruction: Instruction) -> BlockLine
        ensures { result ≡ record {
          line = straight instruction;
          commits = true;
          event = event;
        } }
    {
        BlockLine {
            line: Line {
                instruction,
                label: None,
            },
            commits: true,
            event,
        }
    }

    /// A branch or `jal` to a label, which does no operation.
    pub fn goes_to(instruction: Instruction, label: u32) -> BlockLine
        ensures { result ≡ record {
          line = jump_to instruction label;
          commits = false;
          event = None;
        } }
    {
        BlockLine {
            line: Line {
                instruction,
                label: Some(label),
            },
            commits: false,
            event: None,
        }
    }
}

/// Adds lines. Fails where there isn't enough memory; then only the first of the lines were added,
/// or none.
pub fn emit_lines(into: &mut Assembler, lines: &[BlockLine]) -> Result<(), AllocError>
    requires fit { FitLines (map marked lines.now) }
    requires labels { All (GoesToMade into.old.bound) (map marked lines.now) }
    requires room { length into.old.lines + length lines.now < 2 ^ 30 }
    requires free { AreFollowed into.old }
    ensures added { OnOk result (into.new ≡ with_block into.old (map marked lines.now)) }
    ensures begun { OnErr result (HasBegun (map marked lines.now) into.old into.new) }
{
    for line in lines {
        emit_line(into, *line)?;
    }
    Ok(())
}

// The number of an event in a commit table, 0 for none.
fn number_in(event: Option<Event>) -> u32
    ensures number { result ≡ number_in event }
    ensures few { result ≤ 6 }
{
    match event {
        Some(event) => event.number(),
        None => 0,
    }
}

fn emit_line(into: &mut Assembler, line: BlockLine) -> Result<(), AllocError>
    requires fit { FitLine (marked line) }
    requires label { GoesToMade into.old.bound (marked line) }
    requires room { length into.old.lines < 2 ^ 30 - 1 }
    requires free { AreFollowed into.old }
    ensures added { OnOk result (into.new ≡ with_block into.old (marked line ∷ [])) }
    ensures followed { OnOk result (AreFollowed into.new) }
    ensures begun { OnErr result (HasBegun (marked line ∷ []) into.old into.new) }
{
    if line.commits {
        into.commit(1, number_in(line.event))?;
    }
    match line.line.label {
        Some(label) => into.jump(line.line.instruction, label),
        None => into.emit(line.line.instruction),
    }
}

/// Adds the lines that load a number into `t0`. None of them commits. Fails where there isn't
/// enough memory; then only the first of the lines were added, or none.
pub fn emit_number(into: &mut Assembler, number: u32) -> Result<(), AllocError>
    requires room { length into.old.lines + 2 < 2 ^ 30 }
    requires free { AreFollowed into.old }
    ensures added { OnOk result (into.new ≡ with_block into.old (map quiet (load_number number))) }
    ensures begun { OnErr result (HasBegun (map quiet (load_number number)) into.old into.new) }
{
    let high = high_part(number);
    let low = low_part(number);
    if high == 0 {
        emit_lines(into, &[BlockLine::quiet(Instruction::Addi(T0, ZERO, low))])
    } else {
        emit_lines(
            into,
            &[
                BlockLine::quiet(Instruction::Lui(T0, high)),
                BlockLine::quiet(Instruction::Addi(T0, T0, low)),
            ],
        )
    }
}

/// Adds the lines that leave the sum of a number and a register other than `t0` in `t0`. None of
/// them commits. Fails where there isn't enough memory; then only the first of the lines were
/// added, or none.
pub fn emit_sum(into: &mut Assembler, number: u32, register: u8) -> Result<(), AllocError>
    requires register { IsRegister register }
    requires room { length into.old.lines + 3 < 2 ^ 30 }
    requires free { AreFollowed into.old }
    ensures added { OnOk result
        (into.new ≡ with_block into.old (map quiet (add_number number register))) }
    ensures begun { OnErr result
        (HasBegun (map quiet (add_number number register)) into.old into.new) }
{
    let high = high_part(number);
    let low = low_part(number);
    if high == 0 {
        emit_lines(
            into,
            &[BlockLine::quiet(Instruction::Addi(T0, register, low))],
        )
    } else {
        emit_lines(
            into,
            &[
                BlockLine::quiet(Instruction::Lui(T0, high)),
                BlockLine::quiet(Instruction::Addi(T0, T0, low)),
                BlockLine::quiet(Instruction::Add(T0, T0, register)),
            ],
        )
    }
}
