//! A program as a flat list.

ghost use Rattle.std.specs.Prelude.{◌≡◌, ◌-◌, ◌^◌, ◌<◌, [], ◌∷◌, ◌++◌, IfOk, OnOk, OnErr, vec_len};

use crate::op::CoreOp;
use fk_meaning_forms::FrameSize;
use std::alloc::{AllocError, Global};

/// The operations of a program, and its functions with a body in the order of the text.
#[derive(Drop)]
pub struct CoreProgram {
    pub ops: Vec<CoreOp>,
    /// The index where each function begins.
    pub entries: Vec<u32>,
    pub frames: Vec<FrameSize>,
}

impl CoreProgram {
    /// A program without operations and functions.
    pub fn new(alloc: Global) -> CoreProgram
        ensures ops { result.ops.items ≡ [] }
        ensures entries { result.entries.items ≡ [] }
        ensures frames { result.frames.items ≡ [] }
    {
        CoreProgram {
            ops: Vec::new(alloc),
            entries: Vec::new(alloc),
            frames: Vec::new(alloc),
        }
    }

    /// Adds an operation at the end, and gives its index. Fails if there isn't enough memory.
    /// Nothing has changed then.
    pub fn push(&mut self, op: CoreOp) -> Result<u32, AllocError>
        requires room { vec_len self.old.ops < 2 ^ 32 - 1 }
        ensures index { IfOk result (λ index. index ≡ vec_len self.old.ops) }
        ensures added { OnOk result (self.new.ops.items ≡ self.old.ops.items ++ op ∷ []) }
        ensures refused { OnErr result (self.new.ops.items ≡ self.old.ops.items) }
        ensures entries { self.new.entries.items ≡ self.old.entries.items }
        ensures frames { self.new.frames.items ≡ self.old.frames.items }
    {
        let index = self.ops.len() as u32;
        self.ops.push(op)?;
        Ok(index)
    }
}
