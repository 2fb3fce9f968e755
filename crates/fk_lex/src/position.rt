//! Positions in a source text.

ghost use Rattle.std.specs.Prelude.{◌≡◌, ℕ, ◌+◌, ◌<◌, ◌≤◌, ◌^◌, [], length, take, drop, true};
ghost use Rattle.std.specs.List.{list_all};
ghost use Rattle.fk_lex.specs.Bytes.{is_blank};
ghost use Rattle.fk_lex.specs.Moves;
ghost use Rattle.fk_lex.specs.Moves.{position_of, after, place_of};
ghost use Rattle.fk_lex.specs.Positions.{in_line};
ghost use Rattle.fk_lex.specs.declared.token.TokenKind.{TokenKind};
ghost use Rattle.fk_lex.specs.declared.step.Step.TheVariants.{Token};

use crate::bytes::are_blanks;
use crate::step::Step;
use fk_syntax::Place;

/// A position: how many lines end before it, and how many bytes lie before its line and before it.
#[derive(Clone, Copy)]
pub struct Position {
    pub lines: usize,
    pub line_start: usize,
    pub offset: usize,
}

impl Position {
    /// The beginning of a text.
    pub fn start() -> Position
        ensures { result ≡ position_of [] }
    {
        Position {
            lines: 0,
            line_start: 0,
            offset: 0,
        }
    }

    /// The position after a step at this one. `passed` has the bytes of the step.
    pub fn past(self, step: Step, passed: &[u8]) -> Position
        requires lines { self.lines + length passed.now < 2 ^ 64 }
        requires offset { self.offset + length passed.now < 2 ^ 64 }
        // A token lies in one line.
        requires in_line { (n : ℕ) (kind : TokenKind) → step ≡ Token n kind
            → list_all in_line passed.now ≡ true }
        ensures { result ≡ after self passed.now }
    {
        match step {
            Step::Token(_, _) => Position {
                lines: self.lines,
                line_start: self.line_start,
                offset: self.offset + passed.len(),
            },
            Step::Gap(_) | Step::Fault(_, _) => self.after(passed),
        }
    }

    /// The position after these bytes.
    fn after(self, passed: &[u8]) -> Position
        requires lines { self.lines + length passed.now < 2 ^ 64 }
        requires offset { self.offset + length passed.now < 2 ^ 64 }
        ensures { result ≡ after self passed.now }
    {
        let mut at = self;
        for byte in passed {
            at = at.next(*byte);
        }
        at
    }

    /// The position after this byte.
    pub fn next(self, byte: u8) -> Position
        requires lines { self.lines + 1 < 2 ^ 64 }
        requires offset { self.offset + 1 < 2 ^ 64 }
        ensures { result ≡ Moves.next self byte }
    {
        let offset = self.offset + 1;
        if byte == b'\n' {
            Position {
                lines: self.lines + 1,
                line_start: offset,
                offset,
            }
        } else {
            Position {
                lines: self.lines,
                line_start: self.line_start,
                offset,
            }
        }
    }

    /// Whether only blanks lie before this position in its line.
    pub fn only_blanks(self, source: &[u8]) -> bool
        requires line { self.line_start ≤ self.offset }
        requires inside { self.offset ≤ length source.now }
        ensures { result ≡ list_all is_blank (drop self.line_start (take self.offset source.now)) }
    {
        let (before, _) = source.split_at(self.offset);
        let (_, line) = before.split_at(self.line_start);
        are_blanks(line)
    }

    /// The place of this position: its line and column, counted from 1.
    pub fn place(self) -> Place
        requires lines { self.lines + 1 < 2 ^ 32 }
        requires line { self.line_start ≤ self.offset }
        requires offset { self.offset + 1 < 2 ^ 32 }
        ensures { result ≡ place_of self }
    {
        Place {
            line: (self.lines + 1) as u32,
            column: (self.offset - self.line_start + 1) as u32,
        }
    }
}
