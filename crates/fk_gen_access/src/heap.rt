//! The code that all blocks of `shmalloc` share.

ghost use Rattle.std.specs.Prelude.{◌≡◌, ◌+◌, ◌^◌, ◌<◌, ◌≤◌, [], ◌∷◌, ◌++◌, All, OnOk, OnErr};
ghost use Rattle.std.specs.Prelude.{length, map};
ghost use Rattle.fk_asm.specs.Assembly.{AreFollowed};
ghost use Rattle.fk_asm.specs.Block.{GoesToMade, HasBegun, with_block};
ghost use Rattle.fk_gen.specs.Lines.{quiet, commits};
ghost use Rattle.fk_gen_access.specs.Heap.{heap_lines, hire_block, ask, add_up};
ghost use Rattle.fk_gen_access.specs.Heap.{tell, find_end, give, back};

use fk_asm::Assembler;
use fk_gen::numbers::{high_part, low_part};
use fk_gen::registers::{DEVICES, LOCAL, RA, SHARED, T0, T1, T2, T3, ZERO};
use fk_gen::{BlockLine, emit_lines, operand, result};
use fk_isa::Instruction;
use std::alloc::AllocError;

/// The label at which this code is entered.
pub const HEAP_LABEL: u32 = 58;
/// The upper 20 bits of the number of words of shared data.
const SHARED_WORDS: u32 = 0x100;
/// The upper 20 bits of the address of the root's control words.
const ROOT_CONTROL: u32 = 0x18400;
/// The offset of the word that counts the words asked for, from the root's first control word, in
/// bytes.
const ASKED: u32 = 32;
/// The offset of the word that is 1 once the hart has found the heap full, from local memory, in
/// bytes.
const FULL: u32 = 8;
/// The offset of the device that gives the number of input numbers.
const INPUTS_DEVICE: u32 = 28;

/// Adds the code that all blocks of `shmalloc` share, for an image with `globals` words of globals.
/// It takes a size in `t0`, and leaves the address of the block there, or 0. The caller binds
/// `HEAP_LABEL` to the code's first line.
pub fn emit_heap(into: &mut Assembler, globals: u32) -> Result<(), AllocError>
    requires few { globals ≤ 2 ^ 19 }
    requires room { length into.old.lines + 32 < 2 ^ 30 }
    requires free { AreFollowed into.old }
    ensures added { OnOk result (into.new ≡ with_block into.old (heap_lines globals)) }
{
    emit_asking(into)?;
    emit_adding(into)?;
    emit_end(into, globals)?;
    emit_giving(into)
}

/// Adds the block of `shmalloc` at a depth.
pub(crate) fn hire(into: &mut Assembler, depth: u32) -> Result<(), AllocError>
    requires depth { depth ≤ 56 }
    requires labels { All (GoesToMade into.old.bound) (hire_block depth) }
    requires room { length into.old.lines + 3 < 2 ^ 30 }
    requires free { AreFollowed into.old }
    ensures added { OnOk result (into.new ≡ with_block into.old (hire_block depth)) }
    ensures begun { OnErr result (HasBegun (hire_block depth) into.old into.new) }
{
    emit_lines(
        into,
        &[
            BlockLine::quiet(operand(T0, depth)),
            BlockLine::goes_to(Instruction::Jal(RA, 0), HEAP_LABEL),
            BlockLine::quiet(result(T0, depth)),
        ],
    )
}

// The size in words: 0 where it is not above 0, or where the hart has found the heap full.
fn emit_asking(into: &mut Assembler) -> Result<(), AllocError>
    requires room { length into.old.lines + 7 < 2 ^ 30 }
    requires free { AreFollowed into.old }
    ensures added { OnOk result (into.new ≡ with_block into.old (map quiet ask)) }
{
    emit_lines(
        into,
        &[
            BlockLine::quiet(Instruction::Lw(T1, LOCAL, FULL)),
            BlockLine::quiet(Instruction::Srli(T2, T0, 31)),
            BlockLine::quiet(Instruction::Add(T1, T1, T2)),
            BlockLine::quiet(Instruction::Sltiu(T1, T1, 1)),
            BlockLine::quiet(Instruction::Mul(T0, T0, T1)),
            BlockLine::quiet(Instruction::Addi(T0, T0, 3)),
            BlockLine::quiet(Instruction::Srli(T0, T0, 2)),
        ],
    )
}

// No request counts for more words than shared data has. The control word gives the number of words
// asked for before.
fn emit_adding(into: &mut Assembler) -> Result<(), AllocError>
    requires room { length into.old.lines + 8 < 2 ^ 30 }
    requires free { AreFollowed into.old }
    ensures added { OnOk result
        (into.new ≡ with_block into.old (map quiet add_up ++ commits 1 tell ∷ [])) }
{
    emit_lines(
        into,
        &[
            BlockLine::quiet(Instruction::Lui(T1, SHARED_WORDS)),
            BlockLine::quiet(Instruction::Sltu(T2, T1, T0)),
            BlockLine::quiet(Instruction::Sub(T1, T1, T0)),
            BlockLine::quiet(Instruction::Mul(T1, T1, T2)),
            BlockLine::quiet(Instruction::Add(T0, T0, T1)),
            BlockLine::quiet(Instruction::Lui(T1, ROOT_CONTROL)),
            BlockLine::quiet(Instruction::Addi(T1, T1, ASKED)),
            BlockLine::commits(Instruction::AmoAddW(T1, T1, T0, false, false)),
        ],
    )
}

// The index of the block's first word, and whether the block ends past shared data. The hart notes
// the latter.
fn emit_end(into: &mut Assembler, globals: u32) -> Result<(), AllocError>
    requires few { globals ≤ 2 ^ 19 }
    requires room { length into.old.lines + 10 < 2 ^ 30 }
    requires free { AreFollowed into.old }
    ensures added { OnOk result (into.new ≡ with_block into.old (map quiet (find_end globals))) }
{
    let words = 0x10_0000 + globals;
    emit_lines(
        into,
        &[
            BlockLine::quiet(Instruction::Lw(T2, DEVICES, INPUTS_DEVICE)),
            BlockLine::quiet(Instruction::Lui(T3, high_part(words))),
            BlockLine::quiet(Instruction::Addi(T3, T3, low_part(words))),
            BlockLine::quiet(Instruction::Add(T2, T2, T3)),
            BlockLine::quiet(Instruction::Srli(T2, T2, 1)),
            BlockLine::quiet(Instruction::Add(T1, T1, T2)),
            BlockLine::quiet(Instruction::Add(T3, T1, T0)),
            BlockLine::quiet(Instruction::Lui(T2, SHARED_WORDS)),
            BlockLine::quiet(Instruction::Sltu(T3, T2, T3)),
            BlockLine::quiet(Instruction::Sw(LOCAL, T3, FULL)),
        ],
    )
}

// The address of the block, or 0 where no words are asked for or the block doesn't fit.
fn emit_giving(into: &mut Assembler) -> Result<(), AllocError>
    requires room { length into.old.lines + 7 < 2 ^ 30 }
    requires free { AreFollowed into.old }
    ensures added { OnOk result
        (into.new ≡ with_block into.old (map quiet give ++ quiet back ∷ [])) }
{
    emit_lines(
        into,
        &[
            BlockLine::quiet(Instruction::Sltiu(T0, T0, 1)),
            BlockLine::quiet(Instruction::Add(T0, T0, T3)),
            BlockLine::quiet(Instruction::Sltiu(T0, T0, 1)),
            BlockLine::quiet(Instruction::Slli(T1, T1, 2)),
            BlockLine::quiet(Instruction::Add(T1, T1, SHARED)),
            BlockLine::quiet(Instruction::Mul(T0, T0, T1)),
            BlockLine::quiet(Instruction::Jalr(ZERO, RA, 0)),
        ],
    )
}
