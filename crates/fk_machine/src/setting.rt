//! What stays the same in a cycle.

ghost use Rattle.std.specs.Prelude.{◌≡◌, ◌≤◌, false, vec_len};
ghost use Rattle.fk_num.specs.Limits.{most_code_words};
ghost use Rattle.fk_isa.specs.declared.instruction.Instruction.TheVariants.{Ebreak};
ghost use Rattle.fk_isa.specs.Fits.{Fits};
ghost use Rattle.fk_isa.specs.FitsProp.{Fits-prop};

use crate::commits::{CommitTable, commit_table};
use fk_isa::{Instruction, decode};
use std::alloc::{AllocError, Global};

/// A word of the code, decoded. One that is no instruction has `ebreak` in its place. So it traps
/// too, and only the turn that traps has to look which of both it was.
#[derive(Drop)]
pub struct CodeWord {
    pub instruction: Instruction,
    /// Whether the word is an instruction of the table.
    pub is_known: bool,
    ghost fitting: { Fits instruction } by { Fits-prop instruction },
    ghost unknown: { is_known ≡ false → instruction ≡ Ebreak },
}

impl CodeWord {
    ghost use Rattle.std.specs.Prelude.{IfSome};
    ghost use Rattle.fk_isa.specs.Find.{row};
    ghost use Rattle.fk_machine.specs.View.{row_of};

    fn of(word: u32) -> CodeWord
        ensures { row_of result ≡ row word }
    {
        match decode(word) {
            Some(instruction) => CodeWord {
                instruction,
                is_known: true,
            },
            None => CodeWord {
                instruction: Instruction::Ebreak,
                is_known: false,
            },
        }
    }

    /// The instruction that the word is, if it is one.
    #[inline(always)]
    pub fn row(&self) -> Option<Instruction>
        ensures row { result ≡ row_of self.now }
        ensures fits { IfSome result Fits }
    {
        if self.is_known {
            Some(self.instruction)
        } else {
            None
        }
    }
}

/// The code, what it commits, and the numbers that devices give.
#[derive(Drop)]
pub struct Setting {
    pub code: Vec<CodeWord>,
    /// The words of the code, as the image has them.
    pub words: Vec<u32>,
    pub commits: CommitTable,
    /// The number of harts.
    pub harts: u32,
    /// The number of input numbers.
    pub inputs: u32,
    /// The number of cycles finished before this one.
    pub finished: u32,
    ghost short: { vec_len code ≤ most_code_words },
}

impl Setting {
    ghost use Rattle.std.specs.Prelude.{All, length, map, IfOk};
    ghost use Rattle.fk_image.specs.Limits.{IsCommit};
    ghost use Rattle.fk_isa.specs.Find.{row};
    ghost use Rattle.fk_machine.specs.Commit.{commits_of};
    ghost use Rattle.fk_machine.specs.View.{entry_at, row_of};

    /// The setting of the first cycle. Fails if there isn't enough memory.
    pub fn new(
        alloc: Global,
        code: &[u32],
        commits: &[(u32, u32)],
        harts: u32,
        inputs: u32,
    ) -> Result<Setting, AllocError>
        requires code { length code.now ≤ most_code_words }
        requires commits { All (IsCommit (length code.now)) commits.now }
        ensures code { IfOk result (λ t. map row_of t.code.items ≡ map row code.now) }
        ensures words { IfOk result (λ t. t.words.items ≡ code.now) }
        ensures commits { IfOk result (λ t. entry_at t.commits.items ≡ commits_of commits.now) }
        ensures harts { IfOk result (λ t. t.harts ≡ harts) }
        ensures inputs { IfOk result (λ t. t.inputs ≡ inputs) }
        ensures finished { IfOk result (λ t. t.finished ≡ 0) }
    {
        let mut decoded = Vec::with_capacity(alloc, code.len())?;
        for word in code {
            decoded.push(CodeWord::of(*word))?;
        }
        Ok(Setting {
            code: decoded,
            words: Vec::from_slice(alloc, code)?,
            commits: commit_table(alloc, code.len(), commits)?,
            harts,
            inputs,
            finished: 0,
        })
    }

    /// What a hart commits by running the instruction at this address.
    pub fn commit_at(&self, pc: u32) -> Option<(u32, u32)>
        ensures { result ≡ entry_at self.now.commits.items pc }
    {
        let index = (pc / 4) as usize;
        if pc % 4 == 0 && index < self.commits.len() {
            self.commits[index]
        } else {
            None
        }
    }
}
