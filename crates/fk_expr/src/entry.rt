//! Expressions among the tokens of a text.

ghost use Rattle.std.specs.Prelude.{◌≤◌, ◌<◌, ◌^◌, Ok, Err, length, IfOk, IfErr};
ghost use Rattle.fk_syntax.specs.View.{tree_of};
ghost use Rattle.fk_expr.specs.Grammar.{Comma, Assignment};
ghost use Rattle.fk_parse_combinators.specs.Reads.{Reads};
ghost use Rattle.fk_parse_combinators.specs.Faults.{Tells, tokens_from};

use crate::production;
use fk_lex::token::Token;
use fk_parse_combinators::cursor::Cursor;
use fk_parse_combinators::fault::SyntaxFault;
use fk_parse_combinators::limits::LEVELS;
use fk_syntax::expression::Expr;
use std::alloc::Global;

/// Reads the comma expression that begins at token `at`, inside `level` open levels. Returns it
/// with the index of the token after it. It is the longest run of tokens that begins an expression,
/// with no bound on its nesting.
///
/// # Errors
///
/// If the longest run isn't an expression: `EndOfText` if it reaches the end of the tokens, else
/// `Unexpected` at the token after it. `Nesting` takes precedence over both and over a result, at
/// the first token of the run that opens a level too many. `Memory` may come for any tokens, if
/// there isn't enough memory.
pub fn expression<'a>(
    alloc: Global,
    tokens: &[Token<'a>],
    at: usize,
    level: u32,
) -> Result<(Expr<'a>, usize), SyntaxFault>
    requires begins { at ≤ length tokens.now }
    requires few { length tokens.now < 2 ^ 32 }
    requires levels { level ≤ LEVELS }
    ensures read { IfOk result (λ x. Reads (Comma level) (tokens_from at tokens.now)
        (Ok (tree_of x.0, tokens_from x.1 tokens.now))) }
    ensures within { IfOk result (λ x. x.1 ≤ length tokens.now) }
    ensures refused { IfErr result
        (Tells (λ stop. Reads (Comma level) (tokens_from at tokens.now) (Err stop))) }
{
    let mut cursor = Cursor::new(tokens, at);
    let value = production::comma(alloc, &mut cursor, LEVELS - level)?;
    Ok((value, tokens.len() - cursor.len()))
}

/// Reads the assignment expression that begins at token `at`: an expression that isn't joined by a
/// comma.
///
/// # Errors
///
/// Those of [`expression`].
pub fn assignment<'a>(
    alloc: Global,
    tokens: &[Token<'a>],
    at: usize,
    level: u32,
) -> Result<(Expr<'a>, usize), SyntaxFault>
    requires begins { at ≤ length tokens.now }
    requires few { length tokens.now < 2 ^ 32 }
    requires levels { level ≤ LEVELS }
    ensures read { IfOk result (λ x. Reads (Assignment level) (tokens_from at tokens.now)
        (Ok (tree_of x.0, tokens_from x.1 tokens.now))) }
    ensures within { IfOk result (λ x. x.1 ≤ length tokens.now) }
    ensures refused { IfErr result
        (Tells (λ stop. Reads (Assignment level) (tokens_from at tokens.now) (Err stop))) }
{
    let mut cursor = Cursor::new(tokens, at);
    let value = production::assignment(alloc, &mut cursor, LEVELS - level)?;
    Ok((value, tokens.len() - cursor.len()))
}
