//! Writes the flat list of measured code. Each target is known.

ghost use Rattle.std.specs.Prelude.{◌≡◌, ◌+◌, ◌^◌, ◌<◌, if◌then◌else◌, ◌∷◌, ◌++◌, [], Some, IfOk};
ghost use Rattle.std.specs.Prelude.{IfErr, OnOk, IsTrue, ◌↔◌};
ghost use Rattle.fk_core.specs.Numbers.{HasNumber, IsNear, IsKnownNear};
ghost use Rattle.fk_core_flat.specs.Items.{jump};
ghost use Rattle.fk_core_flat.specs.Flat.{behind, onward};
ghost use Rattle.fk_lower.specs.Spans.{place, offset, span_in, StartsWithin};
ghost use Rattle.fk_lower.specs.Tree as t;
ghost use Rattle.fk_lower.specs.Tree.{IsPieceMeasured, IsPartMeasured};
ghost use Rattle.fk_lower.specs.View.{piece_of, part_of};
ghost use Rattle.fk_lower.specs.Measures.{before};
ghost use Rattle.fk_lower.specs.Faults.{AreNumbered, IsNumbered};
ghost use Rattle.fk_lower.specs.Written.{items_of, around_of, entry_of, an_act, a_skip, behind_of};
ghost use Rattle.fk_lower.specs.Written.{perform_written, quit_written, written, piece_written};

use crate::block::{Act, Block, Piece};
use crate::fault::LowerFault;
use crate::measure::{goes_away, is_beside};
use crate::span::{Span, Start, gap};
use fk_core::CoreOp;
use fk_meaning_operation::{Operation, OwnValue, Variable};
use std::alloc::Global;

/// A loop: the index after it, and that of its next turn.
#[derive(Clone, Copy, PartialEq, Eq, Debug)]
pub struct Loop {
    pub behind: u32,
    pub onward: u32,
}

/// Where code is written.
#[derive(Clone, Copy, PartialEq, Eq, Debug)]
pub struct InsertPoint {
    /// The innermost loop around the place, if there is one.
    pub around: Option<Loop>,
    /// The index where code is written.
    pub at: u32,
    /// The index where code goes on.
    pub next: u32,
}

impl InsertPoint {
    // The index where code begins that is written at one index and goes on at another.
    pub(crate) fn target(&self, start: Start, at: u32, next: u32) -> u32
        requires { at + offset start < 2 ^ 32 }
        ensures { result ≡ place start (around_of self.now.around) at next }
    {
        match start {
            Start::At(offset) => at + offset,
            Start::Next => next,
            Start::Behind => self.behind(),
            Start::Onward => self.onward(),
        }
    }

    // The index after the loop, and 0 if there is none.
    fn behind(&self) -> u32
        ensures { result ≡ behind (around_of self.now.around) }
    {
        match self.around {
            Some(around) => around.behind,
            None => 0,
        }
    }

    // The index of the loop's next turn, and 0 if there is no loop.
    fn onward(&self) -> u32
        ensures { result ≡ onward (around_of self.now.around) }
    {
        match self.around {
            Some(around) => around.onward,
            None => 0,
        }
    }
}

fn chosen(first: bool, one: u32, other: u32) -> u32
    ensures { result ≡ (if first then one else other) }
{
    if first { one } else { other }
}

// Whether there is a number for a private word, for what a processor knows, and for the constants
// of an operation.
fn is_near(variable: Variable) -> bool
    ensures { IsTrue result ↔ IsNear variable }
{
    match variable {
        Variable::Private(place) | Variable::OfFile(place) => place < 0x0400_0000,
    }
}

fn is_known_near(known: OwnValue) -> bool
    ensures { IsTrue result ↔ IsKnownNear known }
{
    match known {
        OwnValue::Value(variable) => is_near(variable),
        OwnValue::FrameAddress(nesting, word) => word < 0x0020_0000 && nesting < 129,
        _ => true,
    }
}

fn has_number(operation: Operation) -> bool
    ensures { IsTrue result ↔ HasNumber operation }
{
    match operation {
        Operation::Get(known) => is_known_near(known),
        Operation::Set(variable) => is_near(variable),
        Operation::Frame { nesting, words } => words < 0x0020_0000 && nesting < 129,
        _ => true,
    }
}

// A piece is measured, and has room with the code after it.
fn has_room(piece: &Piece, rest: Span, at: u32)
    requires measured { IsPieceMeasured (piece_of piece.now) }
    requires within { StartsWithin rest }
    requires room { at + (before (piece_of piece.now) rest).extent < 2 ^ 32 }
    ensures measured { IsPieceMeasured (piece_of piece.now) }
    ensures within { StartsWithin rest }
    ensures room { at + (before (piece_of piece.now) rest).extent < 2 ^ 32 }
{}

/// A flat list that is being written. It has no depths yet.
#[derive(Drop)]
pub struct Writer {
    alloc: Global,
    pub ops: Vec<CoreOp>,
}

/// The entries of functions, by their bindings. All others have their entry at the end of the list.
#[derive(Drop)]
pub struct Entries {
    pub of_bindings: Vec<u32>,
    pub end: u32,
}

impl Entries {
    fn of(&self, binding: u32) -> u32
        ensures { result ≡ entry_of self.now.of_bindings.items self.now.end binding }
    {
        match self.of_bindings.get(binding as usize) {
            Some(entry) => *entry,
            None => self.end,
        }
    }
}

impl Writer {
    /// A writer that has written nothing.
    pub fn new(alloc: Global) -> Writer
        ensures { result.ops.items ≡ [] }
    {
        Writer {
            alloc,
            ops: Vec::new(alloc),
        }
    }

    fn add(&mut self, op: CoreOp) -> Result<(), LowerFault>
        ensures items { OnOk result (self.new.ops.items ≡ self.old.ops.items ++ op ∷ []) }
        ensures fault { IfErr result (λ fault. fault ≡ LowerFault.Memory) }
    {
        match self.ops.push(op) {
            Ok(()) => Ok(()),
            Err(_) => Err(LowerFault::Memory),
        }
    }

    fn act(&mut self, act: Act, target: u32) -> Result<(), LowerFault>
        ensures items { OnOk result (items_of self.new.ops.items
            ≡ items_of self.old.ops.items ++ an_act act target) }
        ensures fault { HasNumber act.operation
            → IfErr result (λ fault. fault ≡ LowerFault.Memory) }
    {
        if !has_number(act.operation) {
            return Err(LowerFault::OutOfRange);
        }
        self.add(CoreOp::of(act.operation, act.site, target, 0))
    }

    fn jump(&mut self, target: u32) -> Result<(), LowerFault>
        ensures items { OnOk result (items_of self.new.ops.items
            ≡ items_of self.old.ops.items ++ Some (jump target) ∷ []) }
        ensures fault { IfErr result (λ fault. fault ≡ LowerFault.Memory) }
    {
        self.add(CoreOp::jump(target))
    }

    // A jump to the target, unless what is there comes next.
    fn skip(&mut self, here: bool, target: u32) -> Result<(), LowerFault>
        ensures items { OnOk result (items_of self.new.ops.items
            ≡ items_of self.old.ops.items ++ a_skip here target) }
        ensures fault { IfErr result (λ fault. fault ≡ LowerFault.Memory) }
    {
        if here {
            return Ok(());
        }
        self.jump(target)
    }

    fn perform(&mut self, act: Act, rest: Span, place: InsertPoint) -> Result<u32, LowerFault>
        requires within { StartsWithin rest }
        requires room { place.at + (before (t.Perform act) rest).extent < 2 ^ 32 }
        ensures index { IfOk result
            (λ index. index ≡ behind_of (t.Perform act) rest place.at) }
        ensures items { OnOk result (items_of self.new.ops.items ≡ items_of self.old.ops.items
            ++ perform_written act rest (around_of place.around) place.at place.next) }
        ensures fault { HasNumber act.operation
            → IfErr result (λ fault. fault ≡ LowerFault.Memory) }
    {
        let away = goes_away(act.operation);
        let here = away || rest.here;
        let index = place.at + (1 + gap(here));
        self.act(act, if away { place.next } else { 0 })?;
        self.skip(here, place.target(rest.start, index, place.next))?;
        Ok(index)
    }

    fn quit(&mut self, act: Act, rest: Span, place: InsertPoint) -> Result<u32, LowerFault>
        requires within { StartsWithin rest }
        requires room { place.at + (before (t.Quit act) rest).extent < 2 ^ 32 }
        ensures index { IfOk result (λ index. index ≡ behind_of (t.Quit act) rest place.at) }
        ensures items { OnOk result (items_of self.new.ops.items ≡ items_of self.old.ops.items
            ++ quit_written act rest (around_of place.around) place.at place.next) }
        ensures fault { HasNumber act.operation
            → IfErr result (λ fault. fault ≡ LowerFault.Memory) }
    {
        let index = place.at + (1 + gap(rest.here));
        self.act(act, place.behind())?;
        self.skip(rest.here, place.target(rest.start, index, place.next))?;
        Ok(index)
    }

    fn end(&mut self, act: Act, at: u32) -> Result<u32, LowerFault>
        requires { at + 1 < 2 ^ 32 }
        ensures index { IfOk result (λ index. index ≡ at + 1) }
        ensures items { OnOk result (items_of self.new.ops.items
            ≡ items_of self.old.ops.items ++ an_act act 0) }
        ensures fault { HasNumber act.operation
            → IfErr result (λ fault. fault ≡ LowerFault.Memory) }
    {
        self.act(act, 0)?;
        Ok(at + 1)
    }

    /// Writes the list of a block at a place, where functions have these entries.
    ///
    /// # Errors
    ///
    /// `OutOfRange` if a constant of an operation doesn't fit its number, and `Memory` if there
    /// isn't enough memory. The list then has some of the block.
    #[tactic(auto, using(crate::proofs::Room::measured_within, crate::proofs::Room::stays, crate::proofs::Room::measured_span))]
    #[cycle(block)]
    pub fn block(
        &mut self,
        entries: &Entries,
        block: &Block,
        near: bool,
        place: InsertPoint,
    ) -> Result<(), LowerFault>
        requires measured { IsPartMeasured (part_of block.now) }
        requires room { place.at + (span_in (part_of block.now).spans near).extent < 2 ^ 32 }
        ensures items { OnOk result (items_of self.new.ops.items ≡ items_of self.old.ops.items
            ++ written (entry_of entries.now.of_bindings.items entries.now.end) near
            (around_of place.around) place.at place.next (part_of block.now).pieces) }
        ensures fault { AreNumbered (part_of block.now).pieces
            → IfErr result (λ fault. fault ≡ LowerFault.Memory) }
    {
        let mut rests = block.rests(self.alloc, near)?;
        let mut at = place.at;
        for piece in &block.pieces {
            let Some(rest) = rests.pop() else {
                unreachable!()
            };
            has_room(piece, rest, at);
            at = self.piece(entries, piece, rest, InsertPoint { at, ..place })?;
        }
        Ok(())
    }

    // Writes a piece, and gives the index after it.
    #[cycle(block)]
    fn piece(
        &mut self,
        entries: &Entries,
        piece: &Piece,
        rest: Span,
        place: InsertPoint,
    ) -> Result<u32, LowerFault>
        requires measured { IsPieceMeasured (piece_of piece.now) }
        requires within { StartsWithin rest }
        requires room { place.at + (before (piece_of piece.now) rest).extent < 2 ^ 32 }
        ensures index { IfOk result
            (λ index. index ≡ behind_of (piece_of piece.now) rest place.at) }
        ensures items { OnOk result (items_of self.new.ops.items ≡ items_of self.old.ops.items
            ++ piece_written (entry_of entries.now.of_bindings.items entries.now.end)
            (piece_of piece.now) rest (around_of place.around) place.at place.next) }
        ensures fault { IsNumbered (piece_of piece.now)
            → IfErr result (λ fault. fault ≡ LowerFault.Memory) }
    {
        match piece {
            Piece::Perform(act) => self.perform(*act, rest, place),
            Piece::Choose(act, first, second) => {
                self.choose(entries, *act, first, second, rest, place)
            }
            Piece::While(test, body, step) => {
                self.repeat_while(entries, test, body, step, rest, place)
            }
            Piece::Until(body, test) => self.repeat_until(entries, body, test, rest, place),
            Piece::Quit(act) => self.quit(*act, rest, place),
            Piece::Break | Piece::Continue => Ok(place.at),
            Piece::Call(act, function, opening) => {
                self.call(entries, *act, *function, opening, rest, place)
            }
            Piece::Ends(act) => self.end(*act, place.at),
        }
    }

    #[cycle(block)]
    fn choose(
        &mut self,
        entries: &Entries,
        act: Act,
        first: &Block,
        second: &Block,
        rest: Span,
        place: InsertPoint,
    ) -> Result<u32, LowerFault>
        requires measured { let x = part_of first.now in let y = part_of second.now in
            IsPieceMeasured (t.Choose act x.pieces x.spans y.pieces y.spans) }
        requires within { StartsWithin rest }
        requires room { let x = part_of first.now in let y = part_of second.now in
            place.at
            + (before (t.Choose act x.pieces x.spans y.pieces y.spans) rest).extent < 2 ^ 32 }
        ensures index { let x = part_of first.now in let y = part_of second.now in
            IfOk result (λ index.
            index ≡ behind_of (t.Choose act x.pieces x.spans y.pieces y.spans) rest place.at) }
        ensures items { let x = part_of first.now in let y = part_of second.now in
            OnOk result (items_of self.new.ops.items ≡ items_of self.old.ops.items
            ++ piece_written (entry_of entries.now.of_bindings.items entries.now.end)
            (t.Choose act x.pieces x.spans y.pieces y.spans) rest
            (around_of place.around) place.at place.next) }
        ensures fault { let x = part_of first.now in let y = part_of second.now in
            IsNumbered (t.Choose act x.pieces x.spans y.pieces y.spans)
            → IfErr result (λ fault. fault ≡ LowerFault.Memory) }
    {
        let beside = is_beside(second, rest);
        let onward = first.span(beside);
        let aside = second.span(rest.here);
        let at = place.at + (1 + gap(onward.here));
        let middle = at + onward.extent;
        let end = middle + aside.extent;
        let next = place.target(rest.start, end, place.next);
        self.act(act, place.target(aside.start, middle, next))?;
        self.skip(onward.here, place.target(onward.start, at, next))?;
        self.block(entries, first, beside, InsertPoint { at, next, ..place })?;
        self.block(
            entries,
            second,
            rest.here,
            InsertPoint {
                at: middle,
                next,
                ..place
            },
        )?;
        Ok(end)
    }

    #[cycle(block)]
    fn repeat_while(
        &mut self,
        entries: &Entries,
        test: &Block,
        body: &Block,
        step: &Block,
        rest: Span,
        place: InsertPoint,
    ) -> Result<u32, LowerFault>
        requires measured { let x = part_of test.now in let y = part_of body.now in
            let z = part_of step.now in
            IsPieceMeasured (t.While x.pieces x.spans y.pieces y.spans z.pieces z.spans) }
        requires within { StartsWithin rest }
        requires room { let x = part_of test.now in let y = part_of body.now in
            let z = part_of step.now in
            place.at + (before
            (t.While x.pieces x.spans y.pieces y.spans z.pieces z.spans) rest).extent < 2 ^ 32 }
        ensures index { let x = part_of test.now in let y = part_of body.now in
            let z = part_of step.now in
            IfOk result (λ index. index ≡ behind_of
            (t.While x.pieces x.spans y.pieces y.spans z.pieces z.spans) rest place.at) }
        ensures items { let x = part_of test.now in let y = part_of body.now in
            let z = part_of step.now in
            OnOk result (items_of self.new.ops.items ≡ items_of self.old.ops.items
            ++ piece_written (entry_of entries.now.of_bindings.items entries.now.end)
            (t.While x.pieces x.spans y.pieces y.spans z.pieces z.spans) rest
            (around_of place.around) place.at place.next) }
        ensures fault { let x = part_of test.now in let y = part_of body.now in
            let z = part_of step.now in
            IsNumbered (t.While x.pieces x.spans y.pieces y.spans z.pieces z.spans)
            → IfErr result (λ fault. fault ≡ LowerFault.Memory) }
    {
        let steps = step.spans.far.here;
        let turn = body.span(steps);
        let body_at = place.at + test.spans.of(turn.here).extent;
        let step_at = body_at + turn.extent;
        let end = step_at + step.spans.far.extent;
        let behind = place.target(rest.start, end, place.next);
        let onward = chosen(steps, step_at, place.at);
        let inside = InsertPoint {
            around: Some(Loop { behind, onward }),
            at: place.at,
            next: place.at,
        };
        let next = inside.target(turn.start, body_at, onward);
        self.block(entries, test, turn.here, InsertPoint { next, ..inside })?;
        self.block(
            entries,
            body,
            steps,
            InsertPoint {
                at: body_at,
                next: onward,
                ..inside
            },
        )?;
        self.block(
            entries,
            step,
            false,
            InsertPoint {
                at: step_at,
                ..inside
            },
        )?;
        Ok(end)
    }

    #[cycle(block)]
    fn repeat_until(
        &mut self,
        entries: &Entries,
        body: &Block,
        test: &Block,
        rest: Span,
        place: InsertPoint,
    ) -> Result<u32, LowerFault>
        requires measured { let x = part_of body.now in let y = part_of test.now in
            IsPieceMeasured (t.Until x.pieces x.spans y.pieces y.spans) }
        requires within { StartsWithin rest }
        requires room { let x = part_of body.now in let y = part_of test.now in
            place.at + (before (t.Until x.pieces x.spans y.pieces y.spans) rest).extent < 2 ^ 32 }
        ensures index { let x = part_of body.now in let y = part_of test.now in
            IfOk result
            (λ index. index ≡ behind_of (t.Until x.pieces x.spans y.pieces y.spans) rest place.at) }
        ensures items { let x = part_of body.now in let y = part_of test.now in
            OnOk result (items_of self.new.ops.items ≡ items_of self.old.ops.items
            ++ piece_written (entry_of entries.now.of_bindings.items entries.now.end)
            (t.Until x.pieces x.spans y.pieces y.spans) rest
            (around_of place.around) place.at place.next) }
        ensures fault { let x = part_of body.now in let y = part_of test.now in
            IsNumbered (t.Until x.pieces x.spans y.pieces y.spans)
            → IfErr result (λ fault. fault ≡ LowerFault.Memory) }
    {
        let turn = body.span(true);
        let onward = place.at + turn.extent;
        let end = onward + test.spans.far.extent;
        let behind = place.target(rest.start, end, place.next);
        let inside = InsertPoint {
            around: Some(Loop { behind, onward }),
            at: place.at,
            next: onward,
        };
        let next = inside.target(turn.start, place.at, onward);
        self.block(entries, body, true, inside)?;
        self.block(
            entries,
            test,
            false,
            InsertPoint {
                at: onward,
                next,
                ..inside
            },
        )?;
        Ok(end)
    }

    #[cycle(block)]
    fn call(
        &mut self,
        entries: &Entries,
        act: Act,
        function: u32,
        opening: &Block,
        rest: Span,
        place: InsertPoint,
    ) -> Result<u32, LowerFault>
        requires measured { let x = part_of opening.now in
            IsPieceMeasured (t.Call act function x.pieces x.spans) }
        requires within { StartsWithin rest }
        requires room { let x = part_of opening.now in
            place.at + (before (t.Call act function x.pieces x.spans) rest).extent < 2 ^ 32 }
        ensures index { let x = part_of opening.now in
            IfOk result
            (λ index. index ≡ behind_of (t.Call act function x.pieces x.spans) rest place.at) }
        ensures items { let x = part_of opening.now in
            OnOk result (items_of self.new.ops.items ≡ items_of self.old.ops.items
            ++ piece_written (entry_of entries.now.of_bindings.items entries.now.end)
            (t.Call act function x.pieces x.spans) rest
            (around_of place.around) place.at place.next) }
        ensures fault { let x = part_of opening.now in
            IsNumbered (t.Call act function x.pieces x.spans)
            → IfErr result (λ fault. fault ≡ LowerFault.Memory) }
    {
        let entry = entries.of(function);
        let at = place.at + 1;
        let next = at + opening.spans.near.extent;
        let end = next + (1 + gap(rest.here));
        self.act(act, entry)?;
        self.block(
            entries,
            opening,
            true,
            InsertPoint {
                around: None,
                at,
                next,
            },
        )?;
        self.jump(entry)?;
        self.skip(rest.here, place.target(rest.start, end, place.next))?;
        Ok(end)
    }
}
