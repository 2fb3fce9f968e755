//! Programs.

ghost use Rattle.std.specs.Prelude.{◌≡◌, ◌^◌, ◌<◌, length, map, Ok, Err, IfOk, IfErr};
ghost use Rattle.fk_syntax.specs.ProgramView.{item_of, program_of};
ghost use Rattle.fk_syntax.specs.WellFormed.{IsWellFormed};
ghost use Rattle.fk_lex.specs.View.{spelled};
ghost use Rattle.fk_parse_combinators.specs.Languages.{numbered};
ghost use Rattle.fk_parse_combinators.specs.Faults.{Tells};
ghost use Rattle.fk_parse.specs.Parses.{SpellsProgram, beginning, end_of};
ghost use Rattle.fk_parse.specs.Refusals.{RefusesTokens};
ghost use Rattle.fk_parse.specs.Parts.{read_text_within};

use crate::item::items;
use fk_lex::token::Token;
use fk_parse_combinators::cursor::Cursor;
use fk_parse_combinators::fault::SyntaxFault;
use fk_parse_combinators::limits::LEVELS;
use fk_syntax::place::Place;
use fk_syntax::program::{Item, Program};
use std::alloc::Global;

/// The program that these tokens spell, by the grammar of Fork95. An `else` belongs to the nearest
/// `if`, and a parenthesis directly after `start` opens its count. Statements and expressions nest
/// at most [`LEVELS`] deep.
///
/// # Errors
///
/// `Unexpected` has the first token with which no text of the grammar goes on, however deep it may
/// nest. `Nesting` has the token that opens a level too many. Of both the earlier token counts, and
/// at the same token `Unexpected`. `EndOfText` means that the tokens begin a text but aren't a
/// whole one. `Memory` may come for any tokens, if there isn't enough memory.
pub fn parse<'a>(alloc: Global, tokens: &[Token<'a>]) -> Result<Program<'a>, SyntaxFault>
    requires few { length tokens.now < 2 ^ 32 }
    requires narrow { (end_of beginning (map spelled tokens.now)).column < 2 ^ 32 }
    ensures program { IfOk result (λ p. SpellsProgram (map spelled tokens.now) (program_of p)) }
    ensures refused { IfErr result (RefusesTokens (map spelled tokens.now)) }
    ensures well_formed { IfOk result (λ p. IsWellFormed (program_of p)) }
{
    let items = text(alloc, tokens, LEVELS)?;
    Ok(Program {
        items,
        end: end(tokens),
        tokens: tokens.len() as u32,
    })
}

/// The items of all tokens, where at most `left` levels may be open.
fn text<'a>(alloc: Global, tokens: &[Token<'a>], left: u32) -> Result<Vec<Item<'a>>, SyntaxFault>
    requires few { length tokens.now < 2 ^ 32 }
    requires levels { 0 < left }
    ensures read { IfOk result (λ items. read_text_within left (numbered 0 (map spelled tokens.now))
        ≡ Ok (map item_of items.items)) }
    ensures refused { IfErr result
        (Tells (λ stop. read_text_within left (numbered 0 (map spelled tokens.now)) ≡ Err stop)) }
{
    let mut cursor = Cursor::new(tokens, 0);
    let items = items(alloc, &mut cursor, left)?;
    if cursor.len() > 0 {
        return Err(cursor.unexpected());
    }
    Ok(items)
}

/// The place directly after the last token; 1:1 if there are no tokens.
fn end(tokens: &[Token]) -> Place
    requires { (end_of beginning (map spelled tokens.now)).column < 2 ^ 32 }
    ensures { result ≡ end_of beginning (map spelled tokens.now) }
{
    match tokens {
        [.., last] => Place {
            line: last.place.line,
            column: last.place.column + last.bytes.len() as u32,
        },
        [] => Place { line: 1, column: 1 },
    }
}
