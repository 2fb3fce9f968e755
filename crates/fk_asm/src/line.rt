//! Lines of code.

ghost use Rattle.std.specs.Prelude.{◌≡◌, Some, IfNone, IfSome};
ghost use Rattle.fk_isa.specs.Fits.{Fits};
ghost use Rattle.fk_isa.specs.Find.{row};

use crate::jump::{distance, reaches, with_distance};
use fk_isa::{Instruction, encode};

/// A line of code: an instruction and, for a jump to a label, the label.
#[derive(Clone, Copy)]
pub struct Line {
    pub instruction: Instruction,
    pub label: Option<u32>,
}

impl Line {
    ghost use Rattle.fk_asm.specs.Assembly.{straight, jump_to, distance_of, placed, IsNear};
    ghost use Rattle.fk_asm.specs.Assembly.{IsTooFar};

    pub(crate) fn straight(instruction: Instruction) -> Line
        ensures { result ≡ straight instruction }
    {
        Line {
            instruction,
            label: None,
        }
    }

    pub(crate) fn jump_to(instruction: Instruction, label: u32) -> Line
        ensures { result ≡ jump_to instruction label }
    {
        Line {
            instruction,
            label: Some(label),
        }
    }

    // The distance that the line of a word goes, if it goes to a label.
    fn distance(&self, bound: &[Option<u32>], own: u32) -> Option<i64>
        ensures { result ≡ distance_of bound.now own self.now }
    {
        let to = *bound.get(self.label? as usize)?;
        Some(distance(own, to?))
    }

    /// The distance that the line of a word goes, if its format can't hold it.
    pub(crate) fn too_far(&self, bound: &[Option<u32>], own: u32) -> Option<i64>
        ensures near { IfNone result (IsNear bound.now own self.now) }
        ensures far { IfSome result (IsTooFar bound.now own self.now) }
    {
        self.distance(bound, own)
            .filter(|distance| !reaches(self.instruction, *distance))
    }

    // The instruction of the line of a word: a jump to a label goes the distance to it.
    fn placed(&self, bound: &[Option<u32>], own: u32) -> Instruction
        requires { IsNear bound.now own self.now }
        ensures { result ≡ placed bound.now own self.now }
    {
        match self.distance(bound, own) {
            Some(distance) => with_distance(self.instruction, distance),
            None => self.instruction,
        }
    }

    /// The word of a line that is near.
    pub(crate) fn word(&self, bound: &[Option<u32>], own: u32) -> u32
        requires fits { Fits self.now.instruction }
        requires near { IsNear bound.now own self.now }
        ensures { row result ≡ Some (placed bound.now own self.now) }
    {
        encode(self.placed(bound, own))
    }
}
