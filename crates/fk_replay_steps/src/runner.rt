//! Processors, and what they have left to do.

ghost use Rattle.std.specs.Prelude.{◌≡◌, ◌^◌, ◌<◌, length, OnOk, IfSome, option_map};
ghost use Rattle.fk_meaning_operation.specs.Kinds as kinds;
ghost use Rattle.fk_core.specs.Next as n;

use crate::list::{Due, due_at, next_index};
use fk_core::CoreOp;
use fk_core_list::behind_jump;
use fk_meaning_operation::{Class, Operation};
use fk_meaning_state::Processor;
use std::alloc::AllocError;

/// A processor, the index of its next operation, and the indices to which its calls return, the
/// last call's last.
#[derive(Drop)]
pub struct Runner {
    pub at: u32,
    pub returns: Vec<u32>,
    pub processor: Processor,
}

/// When in a round an operation is done.
pub fn class_of(operation: Operation) -> Class
    ensures { result ≡ kinds.class_of operation }
{
    match operation.kind() {
        0..12 => Class::Local,
        12..23 => Class::Request,
        _ => Class::Tree,
    }
}

impl Runner {
    ghost use Rattle.fk_replay_steps.specs.Steps.{step_at, callers_of, position_of};

    /// The next operation, if there is one.
    pub fn due(&self, ops: &[CoreOp]) -> Option<Due>
        ensures due { option_map (step_at ops.now (callers_of self.now)) result
            ≡ n.next ops.now (position_of self.now) }
        ensures within { IfSome result (λ due. due.at < length ops.now) }
    {
        due_at(ops, self.at)
    }

    /// Goes on behind an operation, on one of its ways.
    pub fn pass(&mut self, ops: &[CoreOp], due: Due, onward: bool) -> Result<(), AllocError>
        requires within { due.at < length ops.now }
        requires few { length ops.now < 2 ^ 32 }
        ensures left { OnOk result (position_of self.new
            ≡ (step_at ops.now (callers_of self.old) due).rest onward) }
        ensures processor { OnOk result (self.new.processor ≡ self.old.processor) }
    {
        match due.operation {
            Operation::Leave { .. } | Operation::Halt => {
                self.at = match self.returns.pop() {
                    Some(at) => at,
                    None => ops.len() as u32,
                };
            }
            Operation::Enter(_) => {
                let next = due.at + 1;
                self.returns.push(behind_jump(ops, next as usize) as u32)?;
                self.at = next;
            }
            _ => self.at = next_index(ops, due, onward),
        }
        Ok(())
    }
}
