//! A position among the tokens of a text.

ghost use Rattle.std.specs.Prelude.{
  ◌≡◌,
  ◌≤◌,
  ◌<◌,
  ◌+◌,
  ◌^◌,
  [],
  ◌∷◌,
  Err,
  Ok,
  drop,
  length,
  map,
  is_some,
  IfSome,
  IfNone,
  IfOk,
  IfErr,
};
ghost use Rattle.fk_syntax.specs.View.{named};
ghost use Rattle.fk_lex.specs.View.{spelled};
ghost use Rattle.fk_parse_combinators.specs.Languages.{Placed, numbered, spot, name};
ghost use Rattle.fk_parse_combinators.specs.Reads.{Nesting};
ghost use Rattle.fk_parse_combinators.specs.Kinds.{just};
ghost use Rattle.fk_parse_combinators.specs.Readers.{next_is, expect, unexpected};
ghost use Rattle.fk_parse_combinators.specs.Ahead.{
  seen,
  Shortens,
  Leaves,
  next_kind,
  second_kind,
  pair_is,
  triple_is,
};
ghost use Rattle.fk_parse_combinators.specs.Faults.{IsMemory};
ghost use Rattle.fk_parse_combinators.specs.Gives.{Gives, Halts};

use crate::fault::SyntaxFault;
use fk_lex::token::{Token, TokenKind};
use fk_syntax::place::{Name, Spot};
use std::marker::Model;

/// A token, and its index among those of its text.
#[derive(Clone, Copy)]
pub struct Numbered<'a> {
    pub at: u32,
    pub token: Token<'a>,
}

impl<'a> Numbered<'a> {
    /// The token's index and place.
    pub fn spot(&self) -> Spot
        ensures { result ≡ spot (seen self.now) }
    {
        Spot {
            at: self.at,
            place: self.token.place,
        }
    }

    /// The name that the token is.
    pub fn name(&self) -> Name<'a>
        ensures { named result ≡ name (seen self.now) }
    {
        Name {
            bytes: self.token.bytes,
            at: self.at,
            place: self.token.place,
        }
    }
}

/// The tokens that are still to be read.
#[derive(Drop)]
pub struct Cursor<'t, 'a> {
    at: u32,
    rest: &'t [Token<'a>],
}

impl<'t, 'a> Model for Cursor<'t, 'a> {
    ghost use Rattle.std.specs.Prelude.{List, map, length, ◌+◌, ◌<◌, ◌^◌};
    ghost use Rattle.fk_lex.specs.View.{spelled};
    ghost use Rattle.fk_parse_combinators.specs.Languages.{Placed, numbered};

    ghost Value = { List Placed };

    ghost view = { λ c. numbered c.at (map spelled c.rest.now) };

    ghost invariant = { λ c. c.at + length c.rest.now < 2 ^ 32 };
}

impl<'t, 'a> Cursor<'t, 'a> {
    /// A cursor before the token with index `at`.
    pub fn new(tokens: &'t [Token<'a>], at: usize) -> Self
        requires within { at ≤ length tokens.now }
        requires few { length tokens.now < 2 ^ 32 }
        ensures { result ≡ numbered at (map spelled (drop at tokens.now)) }
    {
        Cursor {
            at: at as u32,
            rest: &tokens[at..],
        }
    }

    /// The number of tokens left.
    pub fn len(&self) -> usize
        ensures { result ≡ length self.now }
    {
        self.rest.len()
    }

    /// The kind of the next token, if one is left.
    pub fn peek(&self) -> Option<TokenKind>
        ensures kind { result ≡ next_kind self.now }
        ensures few { length self.now < 2 ^ 32 }
    {
        match self.rest {
            [token, ..] => Some(token.kind),
            [] => None,
        }
    }

    /// The kind of the token after the next one, if there is one.
    pub fn second(&self) -> Option<TokenKind>
        ensures { result ≡ second_kind self.now }
    {
        match self.rest {
            [_, token, ..] => Some(token.kind),
            _ => None,
        }
    }

    /// Whether the next token has this kind.
    pub fn next_is(&self, kind: TokenKind) -> bool
        ensures next { result ≡ next_is (just kind) self.now }
        ensures few { length self.now < 2 ^ 32 }
    {
        match self.peek() {
            Some(next) => kind == next,
            None => false,
        }
    }

    /// Whether the next two tokens have these kinds.
    #[tactic(auto, unfolding(crate::specs::Kinds::just))]
    pub fn pair_is(&self, first: TokenKind, second: TokenKind) -> bool
        ensures { result ≡ pair_is first second self.now }
    {
        match self.rest {
            [s, t, ..] => first == s.kind && second == t.kind,
            _ => false,
        }
    }

    /// Whether the next three tokens have these kinds.
    #[tactic(auto, unfolding(crate::specs::Kinds::just))]
    pub fn triple_is(&self, first: TokenKind, second: TokenKind, third: TokenKind) -> bool
        ensures { result ≡ triple_is first second third self.now }
    {
        match self.rest {
            [s, t, u, ..] => first == s.kind && second == t.kind && third == u.kind,
            _ => false,
        }
    }

    /// Reads the next token, whatever it is.
    pub fn next(&mut self) -> Result<Numbered<'a>, SyntaxFault>
        ensures read { IfOk result (λ token. self.old ≡ seen token ∷ self.new) }
        ensures shorter { IfOk result (λ _. Shortens self.old self.new) }
        ensures end { IfErr result (λ fault. (fault ≡ SyntaxFault.EndOfText) × (self.old ≡ [])) }
    {
        let [token, rest @ ..] = self.rest else {
            return Err(SyntaxFault::EndOfText);
        };
        let numbered = Numbered {
            at: self.at,
            token: *token,
        };
        self.at += 1;
        self.rest = rest;
        Ok(numbered)
    }

    /// The fault that the next token doesn't fit here.
    pub fn unexpected(&self) -> SyntaxFault
        ensures fault { Halts (unexpected {A = Placed} self.now) result self.now }
        ensures no_memory { ¬ IsMemory result }
    {
        match self.rest {
            [token, ..] => SyntaxFault::Unexpected(token.place),
            [] => SyntaxFault::EndOfText,
        }
    }

    /// The fault that the next token opens a level too many.
    pub fn nesting(&self) -> SyntaxFault
        requires { 0 < length self.now }
        ensures fault { Halts {A = Placed} (Err (Nesting self.now)) result self.now }
        ensures no_memory { ¬ IsMemory result }
    {
        match self.rest {
            [token, ..] => SyntaxFault::Nesting(token.place),
            [] => SyntaxFault::EndOfText,
        }
    }

    /// Reads the next token if it has this kind.
    pub fn accept(&mut self, kind: TokenKind) -> Option<Numbered<'a>>
        ensures next { next_is (just kind) self.old ≡ is_some result }
        ensures read { IfSome result (λ token. expect kind self.old ≡ Ok (seen token, self.new)) }
        ensures shorter { IfSome result (λ _. Shortens self.old self.new) }
        ensures same { IfNone result (self.new ≡ self.old) }
        ensures few { Leaves self.old self.new }
    {
        if !self.next_is(kind) {
            return None;
        }
        match self.next() {
            Ok(token) => Some(token),
            Err(_) => None,
        }
    }

    /// Reads the next token, which must have this kind.
    pub fn expect(&mut self, kind: TokenKind) -> Result<Numbered<'a>, SyntaxFault>
        ensures read { Gives seen result self.new (expect kind self.old) }
        ensures shorter { IfOk result (λ _. Shortens self.old self.new) }
        ensures no_memory { IfErr result (λ fault. ¬ IsMemory fault) }
    {
        if self.next_is(kind) {
            self.next()
        } else {
            Err(self.unexpected())
        }
    }
}
