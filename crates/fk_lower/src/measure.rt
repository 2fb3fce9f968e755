//! Measures of code, from its end.

ghost use Rattle.std.specs.Prelude.{◌≡◌, ◌*◌, ◌^◌, ◌<◌, false, IfOk, IfErr, map};
ghost use Rattle.fk_core_flat.specs.Items.{way_of, goes_away};
ghost use Rattle.fk_lower.specs.Tree as t;
ghost use Rattle.fk_meaning_forms.specs.Code.{size};
ghost use Rattle.fk_lower.specs.Spans.{span_in, StartsWithin};
ghost use Rattle.fk_lower.specs.Tree.{pieces_of, code_of, IsMeasured, IsPartMeasured};
ghost use Rattle.fk_lower.specs.View.{piece_of, part_of};
ghost use Rattle.fk_lower.specs.Measures.{nothing, beginning, is_beside, before, measured, rests};

use crate::block::{Act, Block, Piece};
use crate::fault::LowerFault;
use crate::span::{Span, Spans, Start, gap};
use fk_meaning_operation::Operation;
use std::alloc::Global;

/// Whether an operation always goes on at its target, and never at the next index.
pub fn goes_away(operation: Operation) -> bool
    ensures { result ≡ goes_away (way_of operation) }
{
    match operation {
        Operation::End => true,
        _ => false,
    }
}

fn nothing(near: bool) -> Span
    ensures { result ≡ nothing near }
{
    Span {
        here: near,
        extent: 0,
        start: Start::Next,
    }
}

fn beginning(extent: u32) -> Span
    ensures { result ≡ beginning extent }
{
    Span {
        here: true,
        extent,
        start: Start::At(0),
    }
}

// Whether the first branch of a choice goes on directly after its list.
pub(crate) fn is_beside(second: &Block, rest: Span) -> bool
    ensures { result ≡ is_beside (part_of second.now).spans rest }
{
    rest.here && second.spans.of(rest.here).extent == 0
}

fn before_choice(act: Act, first: &Block, second: &Block, rest: Span) -> Span
    requires { let x = part_of first.now in let y = part_of second.now in
        (before (t.Choose act x.pieces x.spans y.pieces y.spans) rest).extent < 2 ^ 32 }
    ensures { let x = part_of first.now in let y = part_of second.now in
        result ≡ before (t.Choose act x.pieces x.spans y.pieces y.spans) rest }
{
    let first = first.spans.of(is_beside(second, rest));
    let second = second.spans.of(rest.here);
    beginning(1 + gap(first.here) + first.extent + second.extent + rest.extent)
}

fn before_while(test: &Block, body: &Block, step: &Block, rest: Span) -> Span
    requires { let x = part_of test.now in let y = part_of body.now in let z = part_of step.now in
        (before (t.While x.pieces x.spans y.pieces y.spans z.pieces z.spans) rest).extent < 2 ^ 32 }
    ensures { let x = part_of test.now in let y = part_of body.now in let z = part_of step.now in
        result ≡ before (t.While x.pieces x.spans y.pieces y.spans z.pieces z.spans) rest }
{
    let step = step.spans.far;
    let turn = body.spans.of(step.here);
    let test = test.spans.of(turn.here);
    beginning(test.extent + turn.extent + step.extent + rest.extent)
}

fn before_until(body: &Block, test: &Block, rest: Span) -> Span
    requires within { StartsWithin rest }
    requires room { let x = part_of body.now in let y = part_of test.now in
        (before (t.Until x.pieces x.spans y.pieces y.spans) rest).extent < 2 ^ 32 }
    ensures { let x = part_of body.now in let y = part_of test.now in
        result ≡ before (t.Until x.pieces x.spans y.pieces y.spans) rest }
{
    let turn = body.spans.near;
    let whole = turn.extent + test.spans.far.extent;
    Span {
        here: turn.here,
        extent: whole + rest.extent,
        start: turn.start.round(turn.extent, whole, rest.start),
    }
}

fn before_call(act: Act, function: u32, opening: &Block, rest: Span) -> Span
    requires { let x = part_of opening.now in
        (before (t.Call act function x.pieces x.spans) rest).extent < 2 ^ 32 }
    ensures { let x = part_of opening.now in
        result ≡ before (t.Call act function x.pieces x.spans) rest }
{
    beginning(2 + opening.spans.near.extent + gap(rest.here) + rest.extent)
}

// The measures of a piece and the code after it.
fn before(piece: &Piece, rest: Span) -> Span
    requires within { StartsWithin rest }
    requires room { (before (piece_of piece.now) rest).extent < 2 ^ 32 }
    ensures { result ≡ before (piece_of piece.now) rest }
{
    match piece {
        Piece::Perform(act) => {
            let here = goes_away(act.operation) || rest.here;
            beginning(1 + gap(here) + rest.extent)
        }
        Piece::Choose(act, first, second) => before_choice(*act, first, second, rest),
        Piece::While(test, body, step) => before_while(test, body, step, rest),
        Piece::Until(body, test) => before_until(body, test, rest),
        Piece::Quit(_) => beginning(1 + gap(rest.here) + rest.extent),
        Piece::Break => left(rest, Start::Behind),
        Piece::Continue => left(rest, Start::Onward),
        Piece::Call(act, function, opening) => before_call(*act, *function, opening, rest),
        Piece::Ends(_) => beginning(1 + rest.extent),
    }
}

// The measures of code that begins elsewhere.
fn left(rest: Span, start: Start) -> Span
    ensures { result ≡ record { here = false; extent = rest.extent; start = start } }
{
    Span {
        here: false,
        extent: rest.extent,
        start,
    }
}

// The measures of pieces.
fn measured(pieces: &[Piece], near: bool) -> Span
    requires measured { IsMeasured (pieces_of (map piece_of pieces.now)) }
    requires room { (measured near (pieces_of (map piece_of pieces.now))).extent < 2 ^ 32 }
    ensures { result ≡ measured near (pieces_of (map piece_of pieces.now)) }
{
    let mut span = nothing(near);
    let mut index = pieces.len();
    while index > 0 {
        index -= 1;
        span = before(&pieces[index], span);
    }
    span
}

impl Block {
    /// A block of pieces. It takes time linear in their number.
    pub fn of(pieces: Vec<Piece>) -> Block
        requires measured { IsMeasured (pieces_of (map piece_of pieces.items)) }
        requires few { 3 * size (code_of (pieces_of (map piece_of pieces.items))) < 2 ^ 32 }
        ensures pieces { (part_of result).pieces ≡ pieces_of (map piece_of pieces.items) }
        ensures measured { IsPartMeasured (part_of result) }
    {
        let far = measured(&pieces, false);
        let near = measured(&pieces, true);
        Block {
            pieces,
            spans: Spans { far, near },
        }
    }

    /// What is known of a measured block, if it goes on directly after its list (`near`) or
    /// elsewhere.
    pub(crate) fn span(&self, near: bool) -> Span
        requires { IsPartMeasured (part_of self.now) }
        ensures span { result ≡ span_in (part_of self.now).spans near }
        ensures within { StartsWithin result }
    {
        let spans = self.spans();
        spans.of(near)
    }

    // The measures of the code after each piece, the last piece's first.
    pub(crate) fn rests(&self, alloc: Global, near: bool) -> Result<Vec<Span>, LowerFault>
        requires measured { IsPartMeasured (part_of self.now) }
        requires room { (span_in (part_of self.now).spans near).extent < 2 ^ 32 }
        ensures rests { IfOk result (λ spans. spans.items ≡ rests near (part_of self.now).pieces) }
        ensures fault { IfErr result (λ fault. fault ≡ LowerFault.Memory) }
    {
        rests(alloc, &self.pieces, near)
    }
}

fn rests(alloc: Global, pieces: &[Piece], near: bool) -> Result<Vec<Span>, LowerFault>
    requires measured { IsMeasured (pieces_of (map piece_of pieces.now)) }
    requires room { (measured near (pieces_of (map piece_of pieces.now))).extent < 2 ^ 32 }
    ensures rests { IfOk result
        (λ spans. spans.items ≡ rests near (pieces_of (map piece_of pieces.now))) }
    ensures fault { IfErr result (λ fault. fault ≡ LowerFault.Memory) }
{
    let mut spans = Vec::new(alloc);
    let mut span = nothing(near);
    let mut index = pieces.len();
    while index > 0 {
        index -= 1;
        if spans.push(span).is_err() {
            return Err(LowerFault::Memory);
        }
        span = before(&pieces[index], span);
    }
    Ok(spans)
}
