//! Which processors could act, and since when they are absent.

ghost use Rattle.std.specs.Prelude.{◌≡◌, ℕ, ◌↔◌, List, Option, None, IfOk, IsTrue, is_some, set};
ghost use Rattle.std.specs.Prelude.{replicate};
ghost use Rattle.fk_replay_steps.specs.Pace.{since as since_of, begun, remainder};
ghost use Rattle.fk_replay_steps.specs.Pace.{IsLeastLate, IsCounted};

use std::alloc::{AllocError, Global};
use std::marker::Model;

/// The number of rounds of which a processor that could act must be in one.
const ROUNDS: u32 = 256;

/// For each processor the round since which it could act and is absent, if there is one.
#[derive(Drop)]
pub struct Pace {
    since: Vec<Option<u32>>,
    /// How many of these rounds have each remainder.
    counts: Vec<u32>,
    /// How many of these rounds there are.
    able: u32,
}

impl Model for Pace {
    ghost Value = { List (Option ℕ) };

    ghost view = { λ p. p.since.items };

    ghost invariant = { λ p. IsCounted p.since.items p.counts.items p.able };
}

fn place(round: u32) -> usize
    ensures { result ≡ remainder round }
{
    (round % ROUNDS) as usize
}

impl Pace {
    /// No processor could act.
    pub fn new(alloc: Global, processors: u32) -> Result<Pace, AllocError>
        ensures { IfOk result (λ pace. pace ≡ replicate processors None) }
    {
        let mut since = Vec::new(alloc);
        for _ in 0..processors {
            since.push(None)?;
        }
        Ok(Pace {
            since,
            counts: vec![in alloc; 0; ROUNDS as usize]?,
            able: 0,
        })
    }

    pub fn is_able(&self, processor: u32) -> bool
        ensures { result ≡ is_some (since_of self.now processor) }
    {
        matches!(self.since.get(processor as usize), Some(Some(_)))
    }

    /// A processor could act from a round on.
    pub fn begin(&mut self, processor: u32, round: u32)
        ensures { self.new ≡ begun self.old processor round }
    {
        let at = processor as usize;
        if self.since.len() <= at || self.since[at].is_some() {
            return;
        }
        self.since[at] = Some(round);
        self.counts[place(round)] += 1;
        self.able += 1;
    }

    /// A processor is in a round.
    pub fn end(&mut self, processor: u32)
        ensures { self.new ≡ set self.old processor None }
    {
        let at = processor as usize;
        if self.since.len() <= at {
            return;
        }
        if let Some(round) = self.since[at] {
            self.since[at] = None;
            self.counts[place(round)] -= 1;
            self.able -= 1;
        }
    }

    /// Whether no processor could act.
    pub fn is_idle(&self) -> bool
        ensures { IsTrue result ↔ ((h : ℕ) → since_of self.now h ≡ None) }
    {
        self.able == 0
    }

    /// The least processor for which a round is late.
    pub fn late(&self, round: u32) -> Option<u32>
        ensures { IsLeastLate self.now round result }
    {
        let first = round.checked_sub(ROUNDS - 1)?;
        if self.counts[place(first)] == 0 {
            return None;
        }
        for processor in 0..self.since.len() {
            if self.since[processor].is_some_and(|since| since == first) {
                return Some(processor as u32);
            }
        }
        None
    }
}
