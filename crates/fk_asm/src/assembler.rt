//! The assembler.

ghost use Rattle.std.specs.Prelude.{◌≡◌, ◌↔◌, ◌+◌, ◌-◌, ◌*◌, ◌^◌, ◌<◌, ◌≤◌, ℕ, ℤ, [], ◌∷◌, ◌++◌};
ghost use Rattle.std.specs.Prelude.{map, length, All, None, Some, Ok, Err, IfOk, IfNone, IfSome};
ghost use Rattle.std.specs.Prelude.{OnOk, OnErr, slice_get, slice_set, vec_len};
ghost use Rattle.fk_isa.specs.Fits.{Fits};
ghost use Rattle.fk_isa.specs.Find.{row};
ghost use Rattle.fk_asm.specs.Jump.{IsJump};
ghost use Rattle.fk_asm.specs.Commits.{IsCommitTable};
ghost use Rattle.fk_asm.specs.Assembly.{empty, straight, jump_to, next_address, AreFollowed};
ghost use Rattle.fk_asm.specs.Assembly.{IsBound, instructions, AreNearBelow, IsFirstTooFar};

use crate::code::{AsmFault, Code};
use crate::line::Line;
use fk_isa::Instruction;
use std::alloc::{AllocError, Global};
use std::marker::Model;

/// An assembler: the lines of code so far, labels to jump to, and the entries of the commit table.
#[derive(Drop)]
pub struct Assembler {
    lines: Vec<Line>,
    // the index of the word to which each label is bound
    bound: Vec<Option<u32>>,
    commits: Vec<(u32, u32)>,
}

impl Model for Assembler {
    ghost use Rattle.fk_asm.specs.Assembly.{Assembly};
    ghost use Rattle.fk_asm.specs.Sound.{IsSound};

    ghost Value = { Assembly };

    ghost view = { λ a.
        record { lines = a.lines.items; bound = a.bound.items; commits = a.commits.items } };

    ghost invariant = { λ a. IsSound a.lines.items a.commits.items };
}

impl Assembler {
    /// An assembler without lines, labels and entries.
    pub fn new(alloc: Global) -> Assembler
        ensures { result ≡ empty }
    {
        Assembler {
            lines: Vec::new(alloc),
            bound: Vec::new(alloc),
            commits: Vec::new(alloc),
        }
    }

    /// Makes the next label. Labels are numbered from 0.
    ///
    /// # Errors
    ///
    /// `AllocError` if there isn't enough memory. Nothing has changed then.
    pub fn label(&mut self) -> Result<u32, AllocError>
        requires few { length self.old.bound < 2 ^ 32 - 1 }
        ensures number { IfOk result (λ label. label ≡ length self.old.bound) }
        ensures made { OnOk result
            (self.new ≡ record self.old { bound = self.old.bound ++ None ∷ [] }) }
        ensures refused { OnErr result (self.new ≡ self.old) }
    {
        let label = self.bound.len() as u32;
        self.bound.push(None)?;
        Ok(label)
    }

    /// Binds a label to the next word.
    pub fn bind(&mut self, label: u32) -> Result<(), AllocError>
        requires unbound { slice_get self.old.bound label ≡ Some None }
        ensures bound { OnOk result (self.new ≡ record self.old {
          bound = slice_set self.old.bound label (Some (length self.old.lines));
        }) }
        ensures refused { OnErr result (self.new ≡ self.old) }
    {
        self.bound[label as usize] = Some(self.lines.len() as u32);
        Ok(())
    }

    /// Adds the word of an instruction.
    ///
    /// # Errors
    ///
    /// `AllocError` if there isn't enough memory. Nothing has changed then.
    pub fn emit(&mut self, i: Instruction) -> Result<(), AllocError>
        requires room { length self.old.lines < 2 ^ 30 - 1 }
        requires fits { Fits i }
        ensures added { OnOk result
            (self.new ≡ record self.old { lines = self.old.lines ++ straight i ∷ [] }) }
        ensures followed { OnOk result (AreFollowed self.new) }
        ensures refused { OnErr result (self.new ≡ self.old) }
    {
        self.lines.push(Line::straight(i))?;
        Ok(())
    }

    /// Adds a jump to a label: a branch or `jal`. `finish` replaces its immediate by the distance.
    ///
    /// # Errors
    ///
    /// `AllocError` if there isn't enough memory. Nothing has changed then.
    pub fn jump(&mut self, i: Instruction, label: u32) -> Result<(), AllocError>
        requires room { length self.old.lines < 2 ^ 30 - 1 }
        requires fits { Fits i }
        requires jump { IsJump i }
        requires made { label < length self.old.bound }
        ensures added { OnOk result
            (self.new ≡ record self.old { lines = self.old.lines ++ jump_to i label ∷ [] }) }
        ensures followed { OnOk result (AreFollowed self.new) }
        ensures refused { OnErr result (self.new ≡ self.old) }
    {
        self.lines.push(Line::jump_to(i, label))?;
        Ok(())
    }

    /// Adds a commit entry: the next word commits `count` operations, with an event: 0 none, 1
    /// split, 2 shrink, 3 end, 4 resume, 5 meet, 6 agree.
    ///
    /// # Errors
    ///
    /// `AllocError` if there isn't enough memory. Nothing has changed then.
    pub fn commit(&mut self, count: u32, event: u32) -> Result<(), AllocError>
        requires least { 1 ≤ count }
        requires most { count ≤ 255 }
        requires event { event ≤ 6 }
        requires free { AreFollowed self.old }
        ensures added { OnOk result (self.new ≡ record self.old {
          commits = self.old.commits ++ (next_address self.old, count + 256 * event) ∷ [];
        }) }
        ensures refused { OnErr result (self.new ≡ self.old) }
    {
        let address = 4 * self.lines.len() as u32;
        self.commits.push((address, count + 256 * event))?;
        Ok(())
    }

    /// Makes the code of the lines.
    ///
    /// # Errors
    ///
    /// `TooFar` at the first jump whose format can't hold the distance to its label; `Memory` if
    /// there isn't enough memory.
    pub fn finish(self) -> Result<Code, AsmFault>
        requires bound { All (IsBound self.bound) self.lines }
        requires followed { AreFollowed self }

        ensures rows { IfOk result
            (λ code. map row code.words.items ≡ map Some (instructions self.bound self.lines)) }
        ensures count { IfOk result (λ code. vec_len code.words ≡ length self.lines) }
        ensures commits { IfOk result (λ code. code.commits.items ≡ self.commits) }
        ensures table { IfOk result
            (λ code. IsCommitTable (vec_len code.words) code.commits.items) }

        ensures near { OnOk result (AreNearBelow self.bound self.lines (length self.lines)) }
        ensures too_far { (k : ℕ) (d : ℤ)
            → (result ≡ Err (AsmFault.TooFar k d)) ↔ IsFirstTooFar self.bound self.lines k d }
    {
        let Assembler {
            lines,
            bound,
            commits,
        } = self;
        if let Some((word, distance)) = first_too_far(&lines, &bound) {
            return Err(AsmFault::TooFar(word, distance));
        }
        let alloc = *lines.allocator();
        let words = words(alloc, &lines, &bound).map_err(AsmFault::Memory)?;
        Ok(Code { words, commits })
    }
}

// The index of the first line whose format can't hold its distance, and that distance.
fn first_too_far(lines: &[Line], bound: &[Option<u32>]) -> Option<(u32, i64)>
    requires { length lines.now < 2 ^ 30 }
    ensures near { IfNone result (AreNearBelow bound.now lines.now (length lines.now)) }
    ensures first { IfSome result (λ found. IsFirstTooFar bound.now lines.now found.0 found.1) }
{
    for (k, line) in lines.iter().enumerate() {
        let word = k as u32;
        if let Some(distance) = line.too_far(bound, word) {
            return Some((word, distance));
        }
    }
    None
}

// The words of lines that are all near.
fn words(alloc: Global, lines: &[Line], bound: &[Option<u32>]) -> Result<Vec<u32>, AllocError>
    requires few { length lines.now < 2 ^ 30 }
    requires fit { All (λ line. Fits line.instruction) lines.now }
    requires near { AreNearBelow bound.now lines.now (length lines.now) }
    ensures rows { IfOk result
        (λ words. map row words.items ≡ map Some (instructions bound.now lines.now)) }
    ensures count { IfOk result (λ words. vec_len words ≡ length lines.now) }
{
    let mut words = Vec::new(alloc);
    for (own, line) in lines.iter().enumerate() {
        words.push(line.word(bound, own as u32))?;
    }
    Ok(words)
}
