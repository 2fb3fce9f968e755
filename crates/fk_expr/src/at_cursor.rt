//! Productions that other grammars read at a cursor: expressions, and the base of a type.
//!
//! Each contract gives the result twice: by the grammar, as the contracts of [`crate::expression`]
//! do, and in terms of a reader on lists of tokens. The readers of the crates above are built from
//! these.

ghost use Rattle.std.specs.Prelude.{◌≤◌, ◌-◌, Ok, Err, IfOk, IfErr};
ghost use Rattle.fk_syntax.specs.View.{base_of, tree_of};
ghost use Rattle.fk_expr.specs.Grammar.{Assignment, Comma, base};
ghost use Rattle.fk_expr.specs.Reading.{inner, read_base, read_comma, read_assignment};
ghost use Rattle.fk_parse_combinators.specs.Reads.{Reads};
ghost use Rattle.fk_parse_combinators.specs.Faults.{IsMemory, Tells};
ghost use Rattle.fk_parse_combinators.specs.Ahead.{Shortens};
ghost use Rattle.fk_parse_combinators.specs.Gives.{Gives};

use crate::{production, types};
use fk_parse_combinators::cursor::Cursor;
use fk_parse_combinators::fault::SyntaxFault;
use fk_parse_combinators::limits::LEVELS;
use fk_syntax::expression::{Base, Expr};
use std::alloc::Global;

/// Reads the comma expression at the cursor, where `left` of the [`LEVELS`] levels are left.
///
/// # Errors
///
/// Those of [`crate::expression`].
pub fn comma<'a>(
    alloc: Global,
    cursor: &mut Cursor<'_, 'a>,
    left: u32,
) -> Result<Expr<'a>, SyntaxFault>
    ensures grammar { left ≤ LEVELS → IfOk result (λ e.
        Reads (Comma (LEVELS - left)) cursor.old (Ok (tree_of e, cursor.new))) }
    ensures refused { left ≤ LEVELS → IfErr result
        (Tells (λ stop. Reads (Comma (LEVELS - left)) cursor.old (Err stop))) }
    ensures read { Gives tree_of result cursor.new
        (read_comma (inner left) cursor.old) }
    ensures shorter { IfOk result (λ _. Shortens cursor.old cursor.new) }
{
    production::comma(alloc, cursor, left)
}

/// Reads the assignment expression at the cursor: an expression that isn't joined by a comma.
///
/// # Errors
///
/// Those of [`crate::expression`].
pub fn assignment<'a>(
    alloc: Global,
    cursor: &mut Cursor<'_, 'a>,
    left: u32,
) -> Result<Expr<'a>, SyntaxFault>
    ensures grammar { left ≤ LEVELS → IfOk result (λ e.
        Reads (Assignment (LEVELS - left)) cursor.old (Ok (tree_of e, cursor.new))) }
    ensures refused { left ≤ LEVELS → IfErr result
        (Tells (λ stop. Reads (Assignment (LEVELS - left)) cursor.old (Err stop))) }
    ensures read { Gives tree_of result cursor.new
        (read_assignment (inner left) cursor.old) }
    ensures shorter { IfOk result (λ _. Shortens cursor.old cursor.new) }
{
    production::assignment(alloc, cursor, left)
}

/// Reads the base of the type at the cursor: `int`, `unsigned`, `unsigned int`, `void` or a
/// `struct` with its name.
///
/// # Errors
///
/// `Unexpected` at the first token that doesn't go on with a type; `EndOfText` if the tokens end.
pub fn base<'a>(cursor: &mut Cursor<'_, 'a>) -> Result<Base<'a>, SyntaxFault>
    ensures grammar { IfOk result
        (λ b. Reads (λ bound. base 0) cursor.old (Ok (base_of b, cursor.new))) }
    ensures refused { IfErr result (Tells (λ stop. Reads (λ bound. base 0) cursor.old (Err stop))) }
    ensures read { Gives base_of result cursor.new (read_base cursor.old) }
    ensures shorter { IfOk result (λ _. Shortens cursor.old cursor.new) }
    ensures no_memory { IfErr result (λ fault. ¬ IsMemory fault) }
{
    types::base(cursor)
}
