//! The block of a call, and the code that all calls share.

ghost use Rattle.std.specs.Prelude.{◌≡◌, ◌+◌, ◌^◌, ◌<◌, ◌≤◌, ◌==◌, All, OnOk, OnErr, length};
ghost use Rattle.std.specs.Prelude.{nat_le};
ghost use Rattle.fk_asm.specs.Assembly.{AreFollowed};
ghost use Rattle.fk_asm.specs.Block.{GoesToMade, HasBegun, with_block};
ghost use Rattle.fk_gen_flow.specs.Calls.{depth_lines, copy_lines, clear_lines, argument_lines};
ghost use Rattle.fk_gen_flow.specs.Calls.{clears_by, copies_by, word_lines, frame_lines};
ghost use Rattle.fk_gen_flow.specs.Calls.{enter_block};
ghost use Rattle.fk_gen_flow.specs.Calls.{back_lines, most_privates};

use crate::blocks::FIRST_LABEL;
use fk_asm::Assembler;
use fk_gen::numbers::{at_private, at_value, high_part, low_part};
use fk_gen::registers::{DEVICES, END, FRAME, HEAP, RA, T0, T1, T2, ZERO};
use fk_gen::{BlockLine, emit_lines};
use fk_isa::Instruction;
use std::alloc::AllocError;

/// The offset of the device that ends a run at a site, from the first device, in bytes.
const FAULT_DEVICE: u32 = 8;
/// The label at which the shared code clears no word of a frame. The labels at which it clears more
/// words come after it.
const CLEAR_LABEL: u32 = 64;

pub(crate) fn emit_enter(
    into: &mut Assembler,
    clears: u32,
    arguments: u32,
    depth: u32,
    site: u32,
    back: u32,
) -> Result<(), AllocError>
    requires clears { clears ≤ 56 }
    requires depth { depth ≤ 56 }
    requires arguments { arguments ≤ depth }
    requires near { back < 2 ^ 31 }
    requires labels { All (GoesToMade into.old.bound)
        (enter_block clears arguments depth site back) }
    requires room { length into.old.lines
        + length (enter_block clears arguments depth site back) < 2 ^ 30 }
    requires free { AreFollowed into.old }
    ensures added { OnOk result
        (into.new ≡ with_block into.old (enter_block clears arguments depth site back)) }
    ensures begun { OnErr result
        (HasBegun (enter_block clears arguments depth site back) into.old into.new) }
{
    emit_depth(into, arguments, depth, site)?;
    emit_words(into, clears, arguments)?;
    emit_frame(into, back)
}

// The lines up to the commit. Where no more calls may wait, the site faults.
fn emit_depth(into: &mut Assembler, arguments: u32, depth: u32, site: u32) -> Result<(), AllocError>
    requires depth { depth ≤ 56 }
    requires arguments { arguments ≤ depth }
    requires room { length into.old.lines + 7 < 2 ^ 30 }
    requires free { AreFollowed into.old }
    ensures added { OnOk result
        (into.new ≡ with_block into.old (depth_lines arguments depth site)) }
    ensures begun { OnErr result (HasBegun (depth_lines arguments depth site) into.old into.new) }
{
    emit_lines(
        into,
        &[
            BlockLine::quiet(Instruction::Bne(END, HEAP, 16)),
            BlockLine::quiet(Instruction::Lui(T0, high_part(site))),
            BlockLine::quiet(Instruction::Addi(T0, T0, low_part(site))),
            BlockLine::commits(Instruction::Sw(DEVICES, T0, FAULT_DEVICE)),
            BlockLine::quiet(Instruction::Sw(END, FRAME, 4)),
            BlockLine::quiet(Instruction::Addi(T2, END, at_value(depth - arguments + 1))),
            BlockLine::commits(Instruction::Sw(END, T2, 8)),
        ],
    )
}

// The private words of the new frame: first those that become 0, and then the arguments.
fn emit_words(into: &mut Assembler, clears: u32, arguments: u32) -> Result<(), AllocError>
    requires clears { clears ≤ 56 }
    requires arguments { arguments ≤ 56 }
    requires labels { All (GoesToMade into.old.bound) (word_lines clears arguments) }
    requires room { length into.old.lines + length (word_lines clears arguments) + 5 < 2 ^ 30 }
    requires free { AreFollowed into.old }
    ensures added { OnOk result (into.new ≡ with_block into.old (word_lines clears arguments)) }
    ensures begun { OnErr result (HasBegun (word_lines clears arguments) into.old into.new) }
{
    emit_clears(into, clears)?;
    emit_arguments(into, clears, arguments)
}

fn emit_clears(into: &mut Assembler, clears: u32) -> Result<(), AllocError>
    requires clears { clears ≤ 56 }
    requires labels { All (GoesToMade into.old.bound) (clears_by (clears == 0) clears) }
    requires room { length into.old.lines + 1 < 2 ^ 30 }
    requires free { AreFollowed into.old }
    ensures added { OnOk result
        (into.new ≡ with_block into.old (clears_by (clears == 0) clears)) }
    ensures begun { OnErr result (HasBegun (clears_by (clears == 0) clears) into.old into.new) }
{
    if clears == 0 {
        Ok(())
    } else {
        let label = CLEAR_LABEL + clears;
        emit_lines(into, &[BlockLine::goes_to(Instruction::Jal(T1, 0), label)])
    }
}

// Copies the arguments into the new frame.
fn emit_arguments(into: &mut Assembler, clears: u32, arguments: u32) -> Result<(), AllocError>
    requires arguments { arguments ≤ 56 }
    requires labels { All (GoesToMade into.old.bound) (argument_lines clears arguments) }
    requires room { length into.old.lines + 4 < 2 ^ 30 }
    requires free { AreFollowed into.old }
    ensures added { OnOk result
        (into.new ≡ with_block into.old (argument_lines clears arguments)) }
    ensures begun { OnErr result (HasBegun (argument_lines clears arguments) into.old into.new) }
{
    if clears == 0 {
        emit_own_copies(into, arguments)
    } else {
        emit_all_copies(into, arguments)
    }
}

// Copies the arguments of a call that clears words.
fn emit_all_copies(into: &mut Assembler, arguments: u32) -> Result<(), AllocError>
    requires arguments { arguments ≤ 56 }
    requires labels { All (GoesToMade into.old.bound)
        (copies_by (nat_le arguments 0) arguments) }
    requires room { length into.old.lines + 4 < 2 ^ 30 }
    requires free { AreFollowed into.old }
    ensures added { OnOk result
        (into.new ≡ with_block into.old (copies_by (nat_le arguments 0) arguments)) }
    ensures begun { OnErr result
        (HasBegun (copies_by (nat_le arguments 0) arguments) into.old into.new) }
{
    match arguments {
        0 => Ok(()),
        _ => emit_lines(
            into,
            &[BlockLine::goes_to(Instruction::Jal(T1, 0), arguments)],
        ),
    }
}

// Copies the arguments of a call that clears no words.
fn emit_own_copies(into: &mut Assembler, arguments: u32) -> Result<(), AllocError>
    requires arguments { arguments ≤ 56 }
    requires labels { All (GoesToMade into.old.bound)
        (copies_by (nat_le arguments 1) arguments) }
    requires room { length into.old.lines + 4 < 2 ^ 30 }
    requires free { AreFollowed into.old }
    ensures added { OnOk result
        (into.new ≡ with_block into.old (copies_by (nat_le arguments 1) arguments)) }
    ensures begun { OnErr result
        (HasBegun (copies_by (nat_le arguments 1) arguments) into.old into.new) }
{
    match arguments {
        0 => Ok(()),
        1 => emit_copy(into, 0),
        _ => emit_lines(
            into,
            &[BlockLine::goes_to(Instruction::Jal(T1, 0), arguments)],
        ),
    }
}

// Makes the new frame that of the running call. The call returns to the second of these lines,
// which leads to where its caller goes on.
fn emit_frame(into: &mut Assembler, back: u32) -> Result<(), AllocError>
    requires near { back < 2 ^ 31 }
    requires labels { All (GoesToMade into.old.bound) (frame_lines back) }
    requires room { length into.old.lines + 5 < 2 ^ 30 }
    requires free { AreFollowed into.old }
    ensures added { OnOk result (into.new ≡ with_block into.old (frame_lines back)) }
    ensures begun { OnErr result (HasBegun (frame_lines back) into.old into.new) }
{
    emit_lines(
        into,
        &[
            BlockLine::quiet(Instruction::Jal(RA, 8)),
            BlockLine::goes_to(Instruction::Jal(ZERO, 0), FIRST_LABEL + back),
            BlockLine::quiet(Instruction::Sw(END, RA, 0)),
            BlockLine::quiet(Instruction::Addi(FRAME, END, 0)),
            BlockLine::quiet(Instruction::Addi(END, END, 256)),
        ],
    )
}

/// Adds the lines that copy argument `argument`, counted from 0, into the new frame. In the code
/// that calls share, the label of one argument more is bound to them.
pub fn emit_copy(into: &mut Assembler, argument: u32) -> Result<(), AllocError>
    requires argument { argument < 56 }
    requires room { length into.old.lines + 2 < 2 ^ 30 }
    requires free { AreFollowed into.old }
    ensures added { OnOk result (into.new ≡ with_block into.old (copy_lines argument)) }
    ensures begun { OnErr result (HasBegun (copy_lines argument) into.old into.new) }
{
    emit_lines(
        into,
        &[
            BlockLine::quiet(Instruction::Lw(T0, T2, at_value(argument))),
            BlockLine::quiet(Instruction::Sw(END, T0, at_private(argument))),
        ],
    )
}

/// Adds the line that clears private word `word` of the new frame. In the code that calls share,
/// the label of one word more is bound to it.
pub fn emit_clear(into: &mut Assembler, word: u32) -> Result<(), AllocError>
    requires word { word < 56 }
    requires room { length into.old.lines + 1 < 2 ^ 30 }
    requires free { AreFollowed into.old }
    ensures added { OnOk result (into.new ≡ with_block into.old (clear_lines word)) }
    ensures begun { OnErr result (HasBegun (clear_lines word) into.old into.new) }
{
    emit_lines(
        into,
        &[BlockLine::quiet(Instruction::Sw(END, ZERO, at_private(word)))],
    )
}

/// Adds the line that goes back to the call. In the code that calls share, the labels of no
/// argument and of no word are bound to it.
pub fn emit_back(into: &mut Assembler) -> Result<(), AllocError>
    requires room { length into.old.lines + 1 < 2 ^ 30 }
    requires free { AreFollowed into.old }
    ensures added { OnOk result (into.new ≡ with_block into.old back_lines) }
    ensures begun { OnErr result (HasBegun back_lines into.old into.new) }
{
    emit_lines(into, &[BlockLine::quiet(Instruction::Jalr(ZERO, T1, 0))])
}
