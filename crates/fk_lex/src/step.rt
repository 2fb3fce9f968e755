//! The step at a point of a source text.

ghost use Rattle.std.specs.Prelude.{◌≡◌, ℕ, ◌<◌, ◌≤◌, false, List, ◌++◌, length, slice_index};
ghost use Rattle.fk_lex.specs.Steps.{NextStep, TokenStep};
ghost use Rattle.fk_lex.specs.Moves.{HasPlace, place_of, position_of};
ghost use Rattle.fk_lex.specs.Bytes;
ghost use Rattle.fk_lex.specs.Reading;
ghost use Rattle.fk_lex.specs.Sizes;
ghost use Rattle.fk_lex.specs.declared.step.FaultKind.{FaultKind};
ghost use Rattle.fk_lex.specs.declared.step.Step.TheVariants.{Fault};

use crate::bytes::{is_digit, is_letter};
use crate::gap::{beginning, comment_step, directive_step, line_length};
use crate::literal::{character_step, text_step};
use crate::numeral::numeral_step;
use crate::position::Position;
use crate::table::{sign_step, word_step};
use crate::token::{LexFault, TokenKind};
use fk_syntax::Place;

/// The class of what begins at a point of a text, by the first two bytes.
#[derive(Clone, Copy)]
pub enum Beginning {
    Blank,
    Comment,
    LineComment,
    Directive,
    Character,
    Text,
    Other,
}

/// A fault without its place.
#[derive(Clone, Copy)]
pub enum FaultKind {
    BadByte,
    OpenComment,
    OpenString,
    WideNumber,
}

/// What a text has at a point: a blank, a comment or an include line with its size in bytes, a
/// token with its size in bytes, or a fault with its distance in bytes from the point.
#[derive(Clone, Copy)]
pub enum Step {
    Gap(usize),
    Token(usize, TokenKind),
    Fault(usize, FaultKind),
}

impl Step {
    /// The size of the step in bytes; for a fault its distance from the point.
    pub fn size(self) -> usize
        ensures { result ≡ Sizes.size_of self }
    {
        match self {
            Step::Gap(size) | Step::Token(size, _) | Step::Fault(size, _) => size,
        }
    }

    /// The kind of the token that the step gives, if it gives one. A fault is at `behind`, the
    /// position after the step.
    pub fn token(self, behind: Position) -> Result<Option<TokenKind>, LexFault>
        requires { (n : ℕ) (kind : FaultKind) → self ≡ Fault n kind → HasPlace behind }
        ensures { result ≡ Reading.token_of self (place_of behind) }
    {
        match self {
            Step::Gap(_) => Ok(None),
            Step::Token(_, kind) => Ok(Some(kind)),
            Step::Fault(_, kind) => Err(fault_at(kind, behind.place())),
        }
    }
}

/// The fault of this kind at this place.
fn fault_at(kind: FaultKind, place: Place) -> LexFault
    ensures { result ≡ Reading.fault_at kind place }
{
    match kind {
        FaultKind::BadByte => LexFault::BadByte(place),
        FaultKind::OpenComment => LexFault::OpenComment(place),
        FaultKind::OpenString => LexFault::OpenString(place),
        FaultKind::WideNumber => LexFault::WideNumber(place),
    }
}

/// The step at this position of a source. `text` is the source from this position on.
pub fn step_at(source: &[u8], at: Position, text: &[u8]) -> Step
    requires some { 0 < length text.now }
    requires line { at.line_start ≤ at.offset }
    requires inside { at.offset ≤ length source.now }
    ensures { (before : List ℕ) → source.now ≡ before ++ text.now → at ≡ position_of before
        → NextStep before text.now result }
{
    if is_letter(text[0]) {
        return word_step(text);
    }
    match beginning(text) {
        Beginning::Blank => Step::Gap(1),
        Beginning::Comment => comment_step(text),
        Beginning::LineComment => Step::Gap(line_length(text)),
        Beginning::Directive => directive_step(at.only_blanks(source), text),
        Beginning::Character => character_step(text),
        Beginning::Text => text_step(text),
        Beginning::Other => token_step(text),
    }
}

/// The step for a number or a sign at the beginning of a text.
fn token_step(text: &[u8]) -> Step
    requires some { 0 < length text.now }
    requires letter { Bytes.is_letter (slice_index text.now 0) ≡ false }
    ensures { TokenStep text.now result }
{
    if is_digit(text[0]) {
        numeral_step(text)
    } else {
        sign_step(text)
    }
}
