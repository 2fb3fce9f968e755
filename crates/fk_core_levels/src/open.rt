//! The parts that are open at an operation of a list, and which of them are parts of a `fork`.

ghost use Rattle.std.specs.Prelude.{◌≡◌, OnOk};
ghost use Rattle.fk_core.specs.Numbers.{operation_of};
ghost use Rattle.fk_core_levels.specs.Forks as f;
ghost use Rattle.fk_core_levels.specs.Open.{parts_of};

use fk_core::CoreOp;
use fk_meaning_operation::{Operation, SplitKind};
use std::alloc::{AllocError, Global};

/// A part that is open.
#[derive(Clone, Copy)]
pub(crate) struct Open {
    /// Whether a `fork` divided the group around, and how many words its frame has.
    fork: Option<u32>,
    /// How many words the frame of the group around has.
    words: u32,
}

/// The open parts at an operation.
#[derive(Drop)]
pub(crate) struct OpenParts {
    /// The parts, the innermost last.
    parts: Vec<Open>,
    /// How many words the frame of the innermost part has.
    words: u32,
}

impl OpenParts {
    pub(crate) fn new(alloc: Global) -> OpenParts
        ensures { parts_of result ≡ f.no_part }
    {
        OpenParts {
            parts: Vec::new(alloc),
            words: 0,
        }
    }

    /// At a resume the parts before it have ended.
    pub(crate) fn come_to(&mut self, op: CoreOp)
        ensures { parts_of self.new
            ≡ f.come_to (operation_of op.kind op.number) (parts_of self.old) }
    {
        if let Some(Operation::Resume) = op.operation() {
            self.words = match self.parts.pop() {
                Some(part) => part.words,
                None => 0,
            };
        }
    }

    /// Whether a `fork` divided the group around the innermost part, and how many words the frame
    /// of that group has.
    pub(crate) fn fork(&self) -> Option<u32>
        ensures { result ≡ f.fork_of (parts_of self.now).parts }
    {
        match self.parts.last() {
            Some(part) => part.fork,
            None => None,
        }
    }

    /// A split opens a part without a frame, and the next part begins after the end of another.
    pub(crate) fn leave(&mut self, op: CoreOp) -> Result<(), AllocError>
        ensures { OnOk result (parts_of self.new
            ≡ f.leave (operation_of op.kind op.number) (parts_of self.old)) }
    {
        match op.operation() {
            Some(Operation::Split(by)) => self.open(by)?,
            Some(Operation::Frame { nesting, words }) => self.take(nesting, words),
            Some(Operation::Begin | Operation::End) => self.words = 0,
            _ => (),
        }
        Ok(())
    }

    fn open(&mut self, by: SplitKind) -> Result<(), AllocError>
        ensures { OnOk result (parts_of self.new ≡ f.opened by (parts_of self.old)) }
    {
        self.parts.push(Open {
            fork: left_by(by, self.words),
            words: self.words,
        })?;
        self.words = 0;
        Ok(())
    }

    // The function's own frame is in no part.
    fn take(&mut self, nesting: u32, words: u32)
        ensures { parts_of self.new ≡ f.taken nesting words (parts_of self.old) }
    {
        if nesting != 0 {
            self.words = words;
        }
    }
}

// The words of a group's frame, if a `fork` divides the group.
fn left_by(by: SplitKind, words: u32) -> Option<u32>
    ensures { result ≡ f.left_by by words }
{
    match by {
        SplitKind::Fork => Some(words),
        _ => None,
    }
}
