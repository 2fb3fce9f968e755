//! The blocks of splits, of the ends of parts, and of loops that shrink.

ghost use Rattle.std.specs.Prelude.{◌≡◌, ◌+◌, ◌*◌, ◌^◌, ◌<◌, ◌≤◌, All, OnOk, OnErr, None, length};
ghost use Rattle.std.specs.Prelude.{map, Some};
ghost use Rattle.fk_asm.specs.Assembly.{AreFollowed, straight};
ghost use Rattle.fk_asm.specs.Block.{GoesToMade, HasBegun, with_block};
ghost use Rattle.fk_gen.specs.Lines.{quiet};
ghost use Rattle.fk_gen_group.specs.Blocks.{HasFewWords};
ghost use Rattle.fk_image.specs.declared.event.Event.TheVariants as events;
ghost use Rattle.fk_gen_group.specs.Splits as s;
ghost use Rattle.fk_meaning.specs.Group.{taken_by};
ghost use Rattle.fk_meaning_operation.specs.declared.operation.SplitKind.TheVariants as o;

use crate::parts::{FORK_LABEL, ONE_PART_LABEL, TWO_PARTS_LABEL};
use fk_asm::{Assembler, Line};
use fk_gen::numbers::{at_private, at_value, high_part, low_part};
use fk_gen::registers::{
    DEVICES, END, FRAME, NUMBER, RA, RANK, SIZE, T0, T1, T2, T3, T4, T5, ZERO,
};
use fk_gen::{BlockLine, Levels, emit_lines, emit_sum, operand, result};
use fk_gen_flow::registers::{BLOCKS, FRAMES, NODE};
use fk_image::Event;
use fk_isa::Instruction;
use fk_meaning_operation::SplitKind;
use std::alloc::AllocError;

/// The label of the block of the first operation.
const FIRST_LABEL: u32 = 128;
/// The offset of the device that ends a run at a site, from the first device, in bytes.
const FAULT_DEVICE: u32 = 8;
/// How many words before the end of a call's frame its header has the address of the first control
/// word after the frames of the group that is the first level of the call, if a `fork` divides it.
const FRAMES_PLACE: u32 = 60;

/// A split. Most of its code is shared.
pub(crate) fn split(
    into: &mut Assembler,
    by: SplitKind,
    levels: Levels,
    depth: u32,
    target: u32,
    site: u32,
) -> Result<(), AllocError>
    requires depth { depth ≤ 56 }
    requires values { taken_by by ≤ depth }
    requires near { target < 2 ^ 31 }
    requires levels { levels.behind + 4 * (levels.count + 1) ≤ 57 }
    requires labels { All (GoesToMade into.old.bound) (s.split_block by levels depth target site) }
    requires room { length into.old.lines
        + length (s.split_block by levels depth target site) < 2 ^ 30 }
    requires free { AreFollowed into.old }
    ensures added { OnOk result
        (into.new ≡ with_block into.old (s.split_block by levels depth target site)) }
    ensures begun { OnErr result
        (HasBegun (s.split_block by levels depth target site) into.old into.new) }
{
    emit_part(into, by, depth)?;
    emit_parting(into, by, levels, target, site)
}

fn parts_label(by: SplitKind) -> u32
    ensures exact { result ≡ s.parts_label by }
    ensures small { result < 128 }
{
    match by {
        SplitKind::IfElse => TWO_PARTS_LABEL,
        SplitKind::Fork => FORK_LABEL,
        _ => ONE_PART_LABEL,
    }
}

// The part of the processor, in `t3`, or the values of a `fork`.
fn emit_part(into: &mut Assembler, by: SplitKind, depth: u32) -> Result<(), AllocError>
    requires depth { depth ≤ 56 }
    requires values { taken_by by ≤ depth }
    requires room { length into.old.lines + length (s.part_lines by depth) < 2 ^ 30 }
    requires free { AreFollowed into.old }
    ensures added { OnOk result
        (into.new ≡ with_block into.old (map quiet (s.part_lines by depth))) }
    ensures begun { OnErr result (HasBegun (map quiet (s.part_lines by depth)) into.old into.new) }
{
    match by {
        SplitKind::IfAlone => emit_if_not_0(into, depth),
        SplitKind::AndThen => emit_if_not_0(into, depth),
        SplitKind::IfElse => emit_if_0(into, depth),
        SplitKind::OrElse => emit_or(into, depth),
        SplitKind::Loop => emit_lines(into, &[BlockLine::quiet(Instruction::Addi(T3, ZERO, 1))]),
        SplitKind::Fork => emit_values(into, depth),
    }
}

// The number of parts, the part of the processor, and what `$` is there.
fn emit_values(into: &mut Assembler, depth: u32) -> Result<(), AllocError>
    requires depth { depth ≤ 56 }
    requires values { 3 ≤ depth }
    requires room { length into.old.lines + 3 < 2 ^ 30 }
    requires free { AreFollowed into.old }
    ensures added { OnOk result
        (into.new ≡ with_block into.old (map quiet (s.part_lines o.Fork depth))) }
    ensures begun { OnErr result
        (HasBegun (map quiet (s.part_lines o.Fork depth)) into.old into.new) }
{
    emit_lines(
        into,
        &[
            BlockLine::quiet(operand(T3, depth - 2)),
            BlockLine::quiet(operand(T4, depth - 1)),
            BlockLine::quiet(operand(T5, depth)),
        ],
    )
}

// 1 where the value isn't 0.
fn emit_if_not_0(into: &mut Assembler, depth: u32) -> Result<(), AllocError>
    requires depth { depth ≤ 56 }
    requires room { length into.old.lines + 2 < 2 ^ 30 }
    requires free { AreFollowed into.old }
    ensures added { OnOk result
        (into.new ≡ with_block into.old (map quiet (s.part_lines o.IfAlone depth))) }
    ensures begun { OnErr result
        (HasBegun (map quiet (s.part_lines o.IfAlone depth)) into.old into.new) }
{
    emit_lines(
        into,
        &[
            BlockLine::quiet(operand(T3, depth)),
            BlockLine::quiet(Instruction::Sltu(T3, ZERO, T3)),
        ],
    )
}

// 1 where the value is 0.
fn emit_if_0(into: &mut Assembler, depth: u32) -> Result<(), AllocError>
    requires depth { depth ≤ 56 }
    requires room { length into.old.lines + 2 < 2 ^ 30 }
    requires free { AreFollowed into.old }
    ensures added { OnOk result
        (into.new ≡ with_block into.old (map quiet (s.part_lines o.IfElse depth))) }
    ensures begun { OnErr result
        (HasBegun (map quiet (s.part_lines o.IfElse depth)) into.old into.new) }
{
    emit_lines(
        into,
        &[
            BlockLine::quiet(operand(T3, depth)),
            BlockLine::quiet(Instruction::Sltiu(T3, T3, 1)),
        ],
    )
}

// 1 where the value is 0. Any other value becomes 1.
fn emit_or(into: &mut Assembler, depth: u32) -> Result<(), AllocError>
    requires depth { depth ≤ 56 }
    requires room { length into.old.lines + 4 < 2 ^ 30 }
    requires free { AreFollowed into.old }
    ensures added { OnOk result
        (into.new ≡ with_block into.old (map quiet (s.part_lines o.OrElse depth))) }
    ensures begun { OnErr result
        (HasBegun (map quiet (s.part_lines o.OrElse depth)) into.old into.new) }
{
    emit_lines(
        into,
        &[
            BlockLine::quiet(operand(T3, depth)),
            BlockLine::quiet(Instruction::Sltu(T0, ZERO, T3)),
            BlockLine::quiet(result(T0, depth)),
            BlockLine::quiet(Instruction::Sltiu(T3, T3, 1)),
        ],
    )
}

// The way to the shared code, the ways back, and the first lines of those who enter a part.
fn emit_parting(
    into: &mut Assembler,
    by: SplitKind,
    levels: Levels,
    target: u32,
    site: u32,
) -> Result<(), AllocError>
    requires near { target < 2 ^ 31 }
    requires levels { levels.behind + 4 * (levels.count + 1) ≤ 57 }
    requires labels { All (GoesToMade into.old.bound) (s.behind_part by levels target site) }
    requires room { length into.old.lines + length (s.behind_part by levels target site) < 2 ^ 30 }
    requires free { AreFollowed into.old }
    ensures added { OnOk result
        (into.new ≡ with_block into.old (s.behind_part by levels target site)) }
    ensures begun { OnErr result
        (HasBegun (s.behind_part by levels target site) into.old into.new) }
{
    let word = levels.behind + 4 * levels.count;
    emit_way(into, parts_label(by), word, target, site)?;
    emit_heading(into, by, levels)
}

// The way to the shared code, with the level at a word after the header, and the ways back.
fn emit_way(
    into: &mut Assembler,
    label: u32,
    word: u32,
    target: u32,
    site: u32,
) -> Result<(), AllocError>
    requires word { word < 64 }
    requires near { target < 2 ^ 31 }
    requires labels { All (GoesToMade into.old.bound) (s.parting_lines label word target site) }
    requires room { length into.old.lines + 6 < 2 ^ 30 }
    requires free { AreFollowed into.old }
    ensures added { OnOk result
        (into.new ≡ with_block into.old (s.parting_lines label word target site)) }
    ensures begun { OnErr result
        (HasBegun (s.parting_lines label word target site) into.old into.new) }
{
    emit_lines(
        into,
        &[
            BlockLine::quiet(Instruction::Addi(T2, FRAME, at_private(word))),
            BlockLine::goes_to(Instruction::Jal(RA, 0), label),
            BlockLine::goes_to(Instruction::Jal(ZERO, 0), FIRST_LABEL + target),
            BlockLine::quiet(Instruction::Lui(T1, high_part(site))),
            BlockLine::quiet(Instruction::Addi(T1, T1, low_part(site))),
            BlockLine::commits_as(Event::Split, Instruction::Sw(DEVICES, T1, FAULT_DEVICE)),
        ],
    )
}

// Who enters a part of a `fork` stores where the frames of the group around it end, if that is the
// first level of the call.
fn emit_heading(into: &mut Assembler, by: SplitKind, levels: Levels) -> Result<(), AllocError>
    requires room { length into.old.lines + length (s.heading_lines by levels) < 2 ^ 30 }
    requires free { AreFollowed into.old }
    ensures added { OnOk result (into.new ≡ with_block into.old (s.heading_lines by levels)) }
    ensures begun { OnErr result (HasBegun (s.heading_lines by levels) into.old into.new) }
{
    match by {
        SplitKind::Fork => emit_first_heading(into, levels.count),
        _ => emit_lines(into, &[]),
    }
}

fn emit_first_heading(into: &mut Assembler, count: u32) -> Result<(), AllocError>
    requires room { length into.old.lines + length (s.heading_by count) < 2 ^ 30 }
    requires free { AreFollowed into.old }
    ensures added { OnOk result (into.new ≡ with_block into.old (s.heading_by count)) }
    ensures begun { OnErr result (HasBegun (s.heading_by count) into.old into.new) }
{
    if count != 0 {
        return emit_lines(into, &[]);
    }
    let place = at_value(FRAMES_PLACE);
    emit_lines(into, &[BlockLine::quiet(Instruction::Sw(END, T3, place))])
}

/// The end of a part.
pub(crate) fn end_part(into: &mut Assembler, levels: Levels, target: u32) -> Result<(), AllocError>
    requires near { target < 2 ^ 31 }
    requires levels { levels.behind + 4 * levels.count ≤ 57 }
    requires some { 0 < levels.count }
    requires words { HasFewWords levels.fork }
    requires labels { All (GoesToMade into.old.bound) (s.end_part_block levels target) }
    requires room { length into.old.lines + length (s.end_part_block levels target) < 2 ^ 30 }
    requires free { AreFollowed into.old }
    ensures added { OnOk result (into.new ≡ with_block into.old (s.end_part_block levels target)) }
    ensures begun { OnErr result (HasBegun (s.end_part_block levels target) into.old into.new) }
{
    let word = levels.behind + 4 * (levels.count - 1);
    match levels.fork {
        None => emit_outward(into, true, word, target),
        Some(words) => emit_out_of_fork(into, word, levels.count, words, target),
    }
}

// The way to the group around a part of a `fork`, whose level begins at a word after the header.
fn emit_out_of_fork(
    into: &mut Assembler,
    word: u32,
    count: u32,
    words: u32,
    target: u32,
) -> Result<(), AllocError>
    requires word { word + 3 < 64 }
    requires few { words < 2 ^ 21 }
    requires near { target < 2 ^ 31 }
    requires labels { All (GoesToMade into.old.bound) (s.out_of_fork word count words target) }
    requires room { length into.old.lines
        + length (s.out_of_fork word count words target) < 2 ^ 30 }
    requires free { AreFollowed into.old }
    ensures added { OnOk result
        (into.new ≡ with_block into.old (s.out_of_fork word count words target)) }
    ensures begun { OnErr result
        (HasBegun (s.out_of_fork word count words target) into.old into.new) }
{
    emit_forked(into, word)?;
    emit_frames_end(into, count, words)?;
    emit_away(into, target)
}

// The way to where those wait who are around the part.
fn emit_away(into: &mut Assembler, target: u32) -> Result<(), AllocError>
    requires near { target < 2 ^ 31 }
    requires labels { All (GoesToMade into.old.bound) (s.away_line target) }
    requires room { length into.old.lines + 1 < 2 ^ 30 }
    requires free { AreFollowed into.old }
    ensures added { OnOk result (into.new ≡ with_block into.old (s.away_line target)) }
    ensures begun { OnErr result (HasBegun (s.away_line target) into.old into.new) }
{
    emit_lines(
        into,
        &[BlockLine::goes_to(Instruction::Jal(ZERO, 0), FIRST_LABEL + target)],
    )
}

// What the frame has of the group around a part of a `fork`, but where the group's frames end.
fn emit_forked(into: &mut Assembler, word: u32) -> Result<(), AllocError>
    requires word { word + 3 < 64 }
    requires room { length into.old.lines + 6 < 2 ^ 30 }
    requires free { AreFollowed into.old }
    ensures added { OnOk result (into.new ≡ with_block into.old (s.forked_front word)) }
    ensures begun { OnErr result (HasBegun (s.forked_front word) into.old into.new) }
{
    emit_lines(
        into,
        &[
            BlockLine::commits_as(Event::End, Instruction::Lw(SIZE, FRAME, at_private(word))),
            BlockLine::quiet(Instruction::Srli(NUMBER, SIZE, 11)),
            BlockLine::quiet(Instruction::Andi(SIZE, SIZE, 2047)),
            BlockLine::quiet(Instruction::Lw(NODE, FRAME, at_private(word + 1))),
            BlockLine::quiet(Instruction::Lw(BLOCKS, FRAME, at_private(word + 2))),
            BlockLine::quiet(Instruction::Lw(RANK, FRAME, at_private(word + 3))),
        ],
    )
}

// Where the frames of that group end: as the header has it at the first level of a call, or after a
// frame of so many words.
fn emit_frames_end(into: &mut Assembler, count: u32, words: u32) -> Result<(), AllocError>
    requires few { words < 2 ^ 21 }
    requires room { length into.old.lines + length (s.frames_end count words) + 1 < 2 ^ 30 }
    requires free { AreFollowed into.old }
    ensures added { OnOk result
        (into.new ≡ with_block into.old (s.frames_end count words)) }
    ensures begun { OnErr result
        (HasBegun (s.frames_end count words) into.old into.new) }
{
    if count == 1 {
        emit_header_frames(into)
    } else {
        emit_frames_sum(into, words)
    }
}

fn emit_frames_sum(into: &mut Assembler, words: u32) -> Result<(), AllocError>
    requires few { words < 2 ^ 21 }
    requires room { length into.old.lines + length (s.frames_sum words) + 1 < 2 ^ 30 }
    requires free { AreFollowed into.old }
    ensures added { OnOk result (into.new ≡ with_block into.old (s.frames_sum words)) }
    ensures begun { OnErr result (HasBegun (s.frames_sum words) into.old into.new) }
{
    emit_sum(into, 32 + 4 * words, NODE)?;
    emit_found(into)
}

// The frames end where the sum in `t0` tells.
fn emit_found(into: &mut Assembler) -> Result<(), AllocError>
    requires room { length into.old.lines + 1 < 2 ^ 30 }
    requires free { AreFollowed into.old }
    ensures added { OnOk result (into.new ≡ with_block into.old s.found_line) }
    ensures begun { OnErr result (HasBegun s.found_line into.old into.new) }
{
    emit_lines(into, &[BlockLine::quiet(Instruction::Addi(FRAMES, T0, 0))])
}

fn emit_header_frames(into: &mut Assembler) -> Result<(), AllocError>
    requires room { length into.old.lines + 1 < 2 ^ 30 }
    requires free { AreFollowed into.old }
    ensures added { OnOk result (into.new ≡ with_block into.old s.header_frames) }
    ensures begun { OnErr result (HasBegun s.header_frames into.old into.new) }
{
    let place = at_value(FRAMES_PLACE);
    emit_lines(
        into,
        &[BlockLine::quiet(Instruction::Lw(FRAMES, END, place))],
    )
}

// A line that may do the operation, which ends a part.
fn with_commit(commits: bool, instruction: Instruction) -> BlockLine
    ensures { result ≡ record {
      line = straight instruction;
      commits = commits;
      event = Some events.End;
    } }
{
    BlockLine {
        line: Line {
            instruction,
            label: None,
        },
        commits,
        event: Some(Event::End),
    }
}

// The way to the group around a part, whose level begins at a word after the header.
fn emit_outward(
    into: &mut Assembler,
    commits: bool,
    word: u32,
    target: u32,
) -> Result<(), AllocError>
    requires word { word + 3 < 64 }
    requires near { target < 2 ^ 31 }
    requires labels { All (GoesToMade into.old.bound) (s.outward_lines commits word target) }
    requires room { length into.old.lines + 5 < 2 ^ 30 }
    requires free { AreFollowed into.old }
    ensures added { OnOk result
        (into.new ≡ with_block into.old (s.outward_lines commits word target)) }
    ensures begun { OnErr result
        (HasBegun (s.outward_lines commits word target) into.old into.new) }
{
    let first = with_commit(commits, Instruction::Lw(SIZE, FRAME, at_private(word)));
    emit_lines(
        into,
        &[
            first,
            BlockLine::quiet(Instruction::Lw(NODE, FRAME, at_private(word + 1))),
            BlockLine::quiet(Instruction::Lw(BLOCKS, FRAME, at_private(word + 2))),
            BlockLine::quiet(Instruction::Lw(FRAMES, FRAME, at_private(word + 3))),
            BlockLine::goes_to(Instruction::Jal(ZERO, 0), FIRST_LABEL + target),
        ],
    )
}

/// A loop that shrinks.
pub(crate) fn shrink(
    into: &mut Assembler,
    levels: Levels,
    depth: u32,
    target: u32,
) -> Result<(), AllocError>
    requires depth { depth ≤ 56 }
    requires near { target < 2 ^ 31 }
    requires levels { levels.behind + 4 * levels.count ≤ 57 }
    requires some { 0 < levels.count }
    requires labels { All (GoesToMade into.old.bound) (s.shrink_block levels depth target) }
    requires room { length into.old.lines + 12 < 2 ^ 30 }
    requires free { AreFollowed into.old }
    ensures added { OnOk result
        (into.new ≡ with_block into.old (s.shrink_block levels depth target)) }
    ensures begun { OnErr result
        (HasBegun (s.shrink_block levels depth target) into.old into.new) }
{
    let word = levels.behind + 4 * (levels.count - 1);
    emit_staying(into, depth)?;
    emit_outward(into, false, word, target)?;
    emit_size(into)
}

// Those who stay are counted, and go past the way out.
fn emit_staying(into: &mut Assembler, depth: u32) -> Result<(), AllocError>
    requires depth { depth ≤ 56 }
    requires room { length into.old.lines + 6 < 2 ^ 30 }
    requires free { AreFollowed into.old }
    ensures added { OnOk result (into.new ≡ with_block into.old (s.staying_lines depth)) }
    ensures begun { OnErr result (HasBegun (s.staying_lines depth) into.old into.new) }
{
    emit_lines(
        into,
        &[
            BlockLine::quiet(operand(T3, depth)),
            BlockLine::quiet(Instruction::Sltu(T3, ZERO, T3)),
            BlockLine::quiet(Instruction::AmoAddW(ZERO, NODE, T3, false, false)),
            BlockLine::quiet(Instruction::Lw(T0, NODE, 0)),
            BlockLine::commits_as(Event::Shrink, Instruction::Sw(NODE, ZERO, 0)),
            BlockLine::quiet(Instruction::Bne(T3, ZERO, 24)),
        ],
    )
}

// The size of the part is what was counted: those who stay.
fn emit_size(into: &mut Assembler) -> Result<(), AllocError>
    requires room { length into.old.lines + 1 < 2 ^ 30 }
    requires free { AreFollowed into.old }
    ensures added { OnOk result (into.new ≡ with_block into.old s.size_line) }
    ensures begun { OnErr result (HasBegun s.size_line into.old into.new) }
{
    emit_lines(into, &[BlockLine::quiet(Instruction::Addi(SIZE, T0, 0))])
}
