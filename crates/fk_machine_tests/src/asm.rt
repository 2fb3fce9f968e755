//! Tests of the assembler.
ghost use Rattle.std.specs.Prelude.{◌≡◌, ◌+◌, ◌^◌, ◌<◌, All, OnOk, OnErr, length};
ghost use Rattle.fk_asm.specs.Assembly.{AreFollowed, IsBound, empty};
ghost use Rattle.fk_asm.specs.Block.{GoesToMade, HasBegun, with_block};

use fk_asm::{AsmFault, Assembler, Blocks};
use fk_isa::Instruction;
use std::alloc::AllocError;
use std::test::Fail;

// Writes a branch across 2000 words.
fn write_far_branch(assembler: &mut Assembler) -> Result<(), AllocError>
    requires new { assembler.old ≡ empty }
    ensures bound { OnOk result (All (IsBound assembler.new.bound) assembler.new.lines) }
    ensures followed { OnOk result (AreFollowed assembler.new) }
{
    let end = assembler.label()?;
    assembler.jump(Instruction::Beq(0, 0, 0), end)?;
    for _ in 0..2000u32 {
        assembler.emit(Instruction::Addi(0, 0, 0))?;
    }
    assembler.bind(end)
}

#[test]
fn a_branch_over_2000_words_is_too_far(rt: HostRuntime) -> Result<(), Fail> {
    let mut assembler = Assembler::new(rt.alloc());
    write_far_branch(&mut assembler)?;
    assert!(rt; matches!(assembler.finish(), Err(AsmFault::TooFar(0, 8004))));
    Ok(())
}

// Writes jumps to a label before them and to one after them.
fn write_jumps(assembler: &mut Assembler) -> Result<(), AllocError>
    requires new { assembler.old ≡ empty }
    ensures bound { OnOk result (All (IsBound assembler.new.bound) assembler.new.lines) }
    ensures followed { OnOk result (AreFollowed assembler.new) }
{
    let again = assembler.label()?;
    let done = assembler.label()?;
    assembler.bind(again)?;
    assembler.emit(Instruction::Addi(5, 5, 0xffff_ffff))?;
    assembler.jump(Instruction::Beq(5, 0, 0), done)?;
    assembler.jump(Instruction::Jal(1, 0), done)?;
    assembler.jump(Instruction::Bltu(6, 5, 0), again)?;
    assembler.jump(Instruction::Jal(0, 0), again)?;
    assembler.bind(done)?;
    assembler.jump(Instruction::Bge(5, 6, 0), again)
}

// The words are those that the GNU assembler gives for these lines.
#[test]
fn jumps_have_the_words_of_the_gnu_assembler(rt: HostRuntime) -> Result<(), Fail> {
    let mut assembler = Assembler::new(rt.alloc());
    write_jumps(&mut assembler)?;
    let code = assembler.finish()?;
    let words = [
        0xfff2_8293,
        0x0002_8863,
        0x00c0_00ef,
        0xfe53_6ae3,
        0xff1f_f06f,
        0xfe62_d6e3,
    ];
    assert!(rt; code.words.as_slice() == words.as_slice());
    Ok(())
}

// Stores of small numbers, each with its own `sw`.
#[derive(Drop)]
struct Stores;

impl Blocks<u8> for Stores {
    ghost use Rattle.std.specs.Prelude.{◌^◌, ◌<◌, ◌∷◌, []};
    ghost use Rattle.fk_isa.specs.declared.instruction.Instruction.TheVariants.{Addi, Sw};
    ghost use Rattle.fk_asm.specs.Assembly.{straight};
    ghost use Rattle.fk_asm.specs.Block.{plain, committing};

    ghost has_block = { λ number. number < 2 ^ 8 };

    ghost block = { λ number. plain (straight (Addi 5 0 number))
        ∷ committing (straight (Sw 6 5 0)) 1 ∷ [] };

    fn emit_op(&self, op: &u8, into: &mut Assembler) -> Result<(), AllocError> {
        into.emit(Instruction::Addi(5, 0, u32::from(*op)))?;
        into.commit(1, 0)?;
        into.emit(Instruction::Sw(6, 5, 0))
    }
}

// Adds a block, of any kind of blocks.
fn add<B: Blocks<u8>>(blocks: &B, op: u8, into: &mut Assembler) -> Result<(), AllocError>
    requires known { B.has_block op }
    requires labels { All (GoesToMade into.old.bound) (B.block op) }
    requires room { length into.old.lines + length (B.block op) < 2 ^ 30 }
    requires free { AreFollowed into.old }
    ensures added { OnOk result (into.new ≡ with_block into.old (B.block op)) }
    ensures begun { OnErr result (HasBegun (B.block op) into.old into.new) }
{
    blocks.emit_op(&op, into)
}

// Writes two stores and a third word that commits.
fn write_commits(assembler: &mut Assembler) -> Result<(), AllocError>
    requires new { assembler.old ≡ empty }
    ensures bound { OnOk result (All (IsBound assembler.new.bound) assembler.new.lines) }
    ensures followed { OnOk result (AreFollowed assembler.new) }
{
    add(&Stores, 7, assembler)?;
    add(&Stores, 8, assembler)?;
    assembler.commit(255, 6)?;
    assembler.emit(Instruction::Ecall)
}

#[test]
fn entries_are_those_of_the_words_that_commit(rt: HostRuntime) -> Result<(), Fail> {
    let mut assembler = Assembler::new(rt.alloc());
    write_commits(&mut assembler)?;
    let code = assembler.finish()?;
    assert!(rt; code.commits.as_slice() == [(4, 1), (12, 1), (16, 255 + 6 * 256)].as_slice());
    Ok(())
}
