//! Builds blocks from code that is shown step by step.

ghost use Rattle.std.specs.Prelude.{◌≡◌, true, suc, ◌+◌, ◌*◌, ◌^◌, ◌<◌, ◌≤◌, ◌∷◌, [], map, OnOk};
ghost use Rattle.std.specs.Prelude.{IfOk, IfErr};
ghost use Rattle.fk_meaning_forms.specs.Code as c;
ghost use Rattle.fk_meaning_forms.specs.Code.{size};
ghost use Rattle.fk_lower.specs.Tree.{code_before, IsPieceMeasured};
ghost use Rattle.fk_lower.specs.View.{piece_of};
ghost use Rattle.fk_lower.specs.Building.{after, has_site, IsShown};
ghost use Rattle.fk_lower.specs.Faults.{IsFew, IsEventFault, IsBuildFault};
ghost use Rattle.fk_lower.specs.Building as b;
ghost use Rattle.fk_lower.specs.BuilderView.{event_of, building_of, open_by, outer_of, shown_code};
ghost use Rattle.fk_lower.specs.BuilderView.{block_code, IsBlockMeasured, IsOpenedMeasured};
ghost use Rattle.fk_lower.specs.BuilderView.{IsBuilderMeasured};

use crate::block::{Act, Block, Piece};
use crate::event::CodeEvent;
use crate::fault::LowerFault;
use fk_meaning_operation::Operation;
use std::alloc::Global;
use std::mem;

// What is open around a block, with its closed parts.
#[derive(Drop)]
enum Opened {
    Onward(Act),
    Aside(Act, Block),
    Test,
    Body(Block),
    Step(Block, Block),
    FirstBody,
    LastTest(Block),
    Opening(Act, u32),
}

// What is open, and the pieces before it.
#[derive(Drop)]
struct Frame {
    before: Vec<Piece>,
    opened: Opened,
}

// Below this number of sites, three entries of a list for each site have indices.
const MOST_SITES: u32 = 1_431_655_765;

// Code that is being built. Each operation gets the next number as its site.
#[derive(Drop)]
struct Builder {
    alloc: Global,
    site: u32,
    pieces: Vec<Piece>,
    outer: Vec<Frame>,
}

impl Builder {
    // A builder for a function whose first operation has this site.
    fn new(alloc: Global, site: u32) -> Builder
        ensures built { building_of result ≡ b.building site [] c.done }
        ensures measured { IsBuilderMeasured result }
    {
        Builder {
            alloc,
            site,
            pieces: Vec::new(alloc),
            outer: Vec::new(alloc),
        }
    }

    fn act(&mut self, operation: Operation) -> Result<Act, LowerFault>
        ensures act { IfOk result (λ act. act.site ≡ self.old.site) }
        ensures operation { IfOk result (λ act. act.operation ≡ operation) }
        ensures site { OnOk result (self.new.site ≡ suc self.old.site) }
        ensures low { OnOk result (3 * (self.old.site + 1) < 2 ^ 32) }
        ensures pieces { self.new.pieces ≡ self.old.pieces }
        ensures outer { self.new.outer ≡ self.old.outer }
        ensures fault { IfErr result (λ fault. fault ≡ LowerFault.TooLong) }
        ensures over { IfErr result (λ _. 2 ^ 32 ≤ 3 * (self.old.site + 1)) }
    {
        let site = self.site;
        if site >= MOST_SITES {
            return Err(LowerFault::TooLong);
        }
        self.site = site + 1;
        Ok(Act { site, operation })
    }

    #[tactic(auto, using(crate::proofs::Shown::shown_more, crate::proofs::Shown::pieces_measured))]
    fn add(&mut self, piece: Piece) -> Result<(), LowerFault>
        requires builder { IsBuilderMeasured self.now }
        requires piece { IsPieceMeasured (piece_of piece) }
        ensures built { OnOk result (building_of self.new
            ≡ b.joined self.old.site (outer_of self.old.outer.items)
            (shown_code self.old.pieces.items) (code_before (piece_of piece) c.done)) }
        ensures measured { OnOk result (IsBuilderMeasured self.new) }
        ensures fault { IfErr result (λ fault. fault ≡ LowerFault.Memory) }
    {
        match self.pieces.push(piece) {
            Ok(()) => Ok(()),
            Err(_) => Err(LowerFault::Memory),
        }
    }

    // Opens a block after what there is.
    #[tactic(auto, using(crate::proofs::Shown::outer_more, crate::proofs::Shown::frames_measured))]
    fn open(&mut self, opened: Opened) -> Result<(), LowerFault>
        requires builder { IsBuilderMeasured self.now }
        requires opened { IsOpenedMeasured opened }
        ensures built { OnOk result (building_of self.new ≡ b.opened self.old.site
            (open_by (shown_code self.old.pieces.items) opened) (outer_of self.old.outer.items)) }
        ensures measured { OnOk result (IsBuilderMeasured self.new) }
        ensures fault { IfErr result (λ fault. fault ≡ LowerFault.Memory) }
    {
        let before = mem::replace(&mut self.pieces, Vec::new(self.alloc));
        match self.outer.push(Frame { before, opened }) {
            Ok(()) => Ok(()),
            Err(_) => Err(LowerFault::Memory),
        }
    }

    // Closes the innermost block. What is built next comes after the pieces before that block.
    // Fails with `Misplaced` if no block is open.
    #[tactic(auto, using(crate::proofs::Shown::outer_more, crate::proofs::Shown::last_measured))]
    fn close(&mut self) -> Result<(Block, Opened), LowerFault>
        requires measured { IsBuilderMeasured self.now }
        requires few { 3 * size (shown_code self.now.pieces.items) < 2 ^ 32 }
        ensures site { self.new.site ≡ self.old.site }
        ensures fault { IfErr result (λ fault. fault ≡ LowerFault.Misplaced) }
        ensures none { IfErr result (λ _. outer_of self.old.outer.items ≡ []) }
        ensures outer { IfOk result (λ closed. outer_of self.old.outer.items
            ≡ open_by (shown_code self.new.pieces.items) closed.1 ∷ outer_of self.new.outer.items) }
        ensures block { IfOk result
            (λ closed. block_code closed.0 ≡ shown_code self.old.pieces.items) }
        ensures measured { IsBuilderMeasured self.new }
        ensures closed { IfOk result (λ closed. IsBlockMeasured closed.0) }
        ensures opened { IfOk result (λ closed. IsOpenedMeasured closed.1) }
    {
        let Some(frame) = self.outer.pop() else {
            return Err(LowerFault::Misplaced);
        };
        let pieces = mem::replace(&mut self.pieces, frame.before);
        Ok((Block::of(pieces), frame.opened))
    }

    fn perform(&mut self, operation: Operation) -> Result<(), LowerFault>
        requires { IsBuilderMeasured self.now }
        ensures built { OnOk result
            (building_of self.new ≡ after (building_of self.old) (b.Perform operation)) }
        ensures measured { OnOk result (IsBuilderMeasured self.new) }
        ensures low { OnOk result (3 * (self.old.site + 1) < 2 ^ 32) }
        ensures refused { IfErr result (IsEventFault (building_of self.old) (b.Perform operation)) }
    {
        let act = self.act(operation)?;
        self.add(Piece::Perform(act))
    }

    fn choose(&mut self, operation: Operation) -> Result<(), LowerFault>
        requires { IsBuilderMeasured self.now }
        ensures built { OnOk result
            (building_of self.new ≡ after (building_of self.old) (b.Choose operation)) }
        ensures measured { OnOk result (IsBuilderMeasured self.new) }
        ensures low { OnOk result (3 * (self.old.site + 1) < 2 ^ 32) }
        ensures refused { IfErr result (IsEventFault (building_of self.old) (b.Choose operation)) }
    {
        let act = self.act(operation)?;
        self.open(Opened::Onward(act))
    }

    fn aside(&mut self) -> Result<(), LowerFault>
        requires measured { IsBuilderMeasured self.now }
        requires few { IsFew (building_of self.now) }
        ensures built { OnOk result
            (building_of self.new ≡ after (building_of self.old) b.Aside) }
        ensures measured { OnOk result (IsBuilderMeasured self.new) }
        ensures refused { IfErr result (IsEventFault (building_of self.old) b.Aside) }
    {
        match self.close()? {
            (first, Opened::Onward(act)) => self.open(Opened::Aside(act, first)),
            _ => Err(LowerFault::Misplaced),
        }
    }

    fn joined(&mut self) -> Result<(), LowerFault>
        requires measured { IsBuilderMeasured self.now }
        requires few { IsFew (building_of self.now) }
        ensures built { OnOk result
            (building_of self.new ≡ after (building_of self.old) b.Joined) }
        ensures measured { OnOk result (IsBuilderMeasured self.new) }
        ensures refused { IfErr result (IsEventFault (building_of self.old) b.Joined) }
    {
        match self.close()? {
            (second, Opened::Aside(act, first)) => { self.add(Piece::Choose(act, first, second)) }
            _ => Err(LowerFault::Misplaced),
        }
    }

    fn quit(&mut self, operation: Operation) -> Result<(), LowerFault>
        requires { IsBuilderMeasured self.now }
        ensures built { OnOk result
            (building_of self.new ≡ after (building_of self.old) (b.Quit operation)) }
        ensures measured { OnOk result (IsBuilderMeasured self.new) }
        ensures low { OnOk result (3 * (self.old.site + 1) < 2 ^ 32) }
        ensures refused { IfErr result (IsEventFault (building_of self.old) (b.Quit operation)) }
    {
        let act = self.act(operation)?;
        self.add(Piece::Quit(act))
    }

    fn call(&mut self, operation: Operation, function: u32) -> Result<(), LowerFault>
        requires { IsBuilderMeasured self.now }
        ensures built { OnOk result
            (building_of self.new ≡ after (building_of self.old) (b.Call operation function)) }
        ensures measured { OnOk result (IsBuilderMeasured self.new) }
        ensures low { OnOk result (3 * (self.old.site + 1) < 2 ^ 32) }
        ensures refused { IfErr result
            (IsEventFault (building_of self.old) (b.Call operation function)) }
    {
        let act = self.act(operation)?;
        self.open(Opened::Opening(act, function))
    }

    fn returned(&mut self) -> Result<(), LowerFault>
        requires measured { IsBuilderMeasured self.now }
        requires few { IsFew (building_of self.now) }
        ensures built { OnOk result
            (building_of self.new ≡ after (building_of self.old) b.Returned) }
        ensures measured { OnOk result (IsBuilderMeasured self.new) }
        ensures refused { IfErr result (IsEventFault (building_of self.old) b.Returned) }
    {
        match self.close()? {
            (opening, Opened::Opening(act, function)) => {
                self.add(Piece::Call(act, function, opening))
            }
            _ => Err(LowerFault::Misplaced),
        }
    }

    fn end(&mut self, operation: Operation) -> Result<(), LowerFault>
        requires { IsBuilderMeasured self.now }
        ensures built { OnOk result
            (building_of self.new ≡ after (building_of self.old) (b.Ends operation)) }
        ensures measured { OnOk result (IsBuilderMeasured self.new) }
        ensures low { OnOk result (3 * (self.old.site + 1) < 2 ^ 32) }
        ensures refused { IfErr result (IsEventFault (building_of self.old) (b.Ends operation)) }
    {
        let act = self.act(operation)?;
        self.add(Piece::Ends(act))
    }

    fn part(&mut self) -> Result<(), LowerFault>
        requires measured { IsBuilderMeasured self.now }
        requires few { IsFew (building_of self.now) }
        ensures built { OnOk result
            (building_of self.new ≡ after (building_of self.old) b.Part) }
        ensures measured { OnOk result (IsBuilderMeasured self.new) }
        ensures refused { IfErr result (IsEventFault (building_of self.old) b.Part) }
    {
        match self.close()? {
            (test, Opened::Test) => self.open(Opened::Body(test)),
            (body, Opened::Body(test)) => self.open(Opened::Step(test, body)),
            (body, Opened::FirstBody) => self.open(Opened::LastTest(body)),
            _ => Err(LowerFault::Misplaced),
        }
    }

    fn behind(&mut self) -> Result<(), LowerFault>
        requires measured { IsBuilderMeasured self.now }
        requires few { IsFew (building_of self.now) }
        ensures built { OnOk result
            (building_of self.new ≡ after (building_of self.old) b.Behind) }
        ensures measured { OnOk result (IsBuilderMeasured self.new) }
        ensures refused { IfErr result (IsEventFault (building_of self.old) b.Behind) }
    {
        match self.close()? {
            (step, Opened::Step(test, body)) => self.add(Piece::While(test, body, step)),
            (test, Opened::LastTest(body)) => self.add(Piece::Until(body, test)),
            _ => Err(LowerFault::Misplaced),
        }
    }

    fn take(&mut self, event: CodeEvent) -> Result<(), LowerFault>
        requires measured { IsBuilderMeasured self.now }
        requires few { IsFew (building_of self.now) }
        ensures built { OnOk result
            (building_of self.new ≡ after (building_of self.old) (event_of event)) }
        ensures measured { OnOk result (IsBuilderMeasured self.new) }
        ensures low { OnOk result (has_site (event_of event) ≡ true
            → 3 * (self.old.site + 1) < 2 ^ 32) }
        ensures refused { IfErr result (IsEventFault (building_of self.old) (event_of event)) }
    {
        match event {
            CodeEvent::Perform(operation) => self.perform(operation),
            CodeEvent::Choose(operation) => self.choose(operation),
            CodeEvent::Aside => self.aside(),
            CodeEvent::Joined => self.joined(),
            CodeEvent::Quit(operation) => self.quit(operation),
            CodeEvent::Call(operation, function) => self.call(operation, function),
            CodeEvent::Returned => self.returned(),
            CodeEvent::Ends(operation) => self.end(operation),
            CodeEvent::While => self.open(Opened::Test),
            CodeEvent::Until => self.open(Opened::FirstBody),
            CodeEvent::Part => self.part(),
            CodeEvent::Behind => self.behind(),
            CodeEvent::Break => self.add(Piece::Break),
            CodeEvent::Continue => self.add(Piece::Continue),
        }
    }

    // The block that was built. Fails with `Misplaced` if a block is open.
    fn finish(self) -> Result<Block, LowerFault>
        requires measured { IsBuilderMeasured self }
        requires few { IsFew (building_of self) }
        ensures built { IfOk result
            (λ block. building_of self ≡ b.building self.site [] (block_code block)) }
        ensures measured { IfOk result (λ block. IsBlockMeasured block) }
        ensures fault { IfErr result (λ fault. fault ≡ LowerFault.Misplaced) }
        ensures open { IfErr result (λ _. outer_of self.outer.items ≡ [] → ⊥) }
    {
        if !self.outer.is_empty() {
            return Err(LowerFault::Misplaced);
        }
        Ok(Block::of(self.pieces))
    }
}

/// Builds the block of code that is shown, its operations numbered from a first site on. It takes
/// time linear in the events.
///
/// # Errors
///
/// `TooLong` if three entries of a list for each operation, those of the sites before the first one
/// included, are more than 2^32 - 1; `Misplaced` if the events show no code: something ends that
/// isn't open, or is open at the end; and `Memory` if there isn't enough memory.
pub fn build(alloc: Global, site: u32, events: &[CodeEvent]) -> Result<Block, LowerFault>
    ensures built { IfOk result
        (λ block. IsShown site (map event_of events.now) (block_code block)) }
    ensures measured { IfOk result (λ block. IsBlockMeasured block) }
    ensures refused { IfErr result (IsBuildFault site (map event_of events.now)) }
{
    let mut builder = Builder::new(alloc, site);
    for event in events {
        builder.take(*event)?;
    }
    builder.finish()
}
