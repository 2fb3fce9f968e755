//! Types.

ghost use Rattle.std.specs.Prelude.{length, IfErr, IfOk};
ghost use Rattle.fk_syntax.specs.View.{base_of, type_of};
ghost use Rattle.fk_parse_combinators.specs.Kinds.{just};
ghost use Rattle.fk_parse_combinators.specs.Readers.{expect, repeated};
ghost use Rattle.fk_parse_combinators.specs.Ahead.{Shortens, Leaves};
ghost use Rattle.fk_parse_combinators.specs.Faults.{IsMemory};
ghost use Rattle.fk_parse_combinators.specs.Gives.{Gives, Makes};
ghost use Rattle.fk_expr.specs.Reading.{read_base, read_type_name};

use fk_lex::token::TokenKind;
use fk_parse_combinators::cursor::Cursor;
use fk_parse_combinators::fault::SyntaxFault;
use fk_syntax::expression::{Base, TypeName};

/// Reads a type and its stars.
pub fn type_name<'a>(cursor: &mut Cursor<'_, 'a>) -> Result<TypeName<'a>, SyntaxFault>
    ensures read { Gives type_of result cursor.new (read_type_name cursor.old) }
    ensures shorter { IfOk result (λ _. Shortens cursor.old cursor.new) }
    ensures no_memory { IfErr result (λ fault. ¬ IsMemory fault) }
{
    let base = base(cursor)?;
    let stars = stars(cursor)?;
    Ok(TypeName { base, stars })
}

/// Reads `*` tokens, as many as there are. Returns their number.
pub fn stars(cursor: &mut Cursor) -> Result<u32, SyntaxFault>
    ensures read { Makes length (λ n. n) result cursor.new
        (repeated (just TokenKind.Star) (expect TokenKind.Star) cursor.old) }
    ensures few { IfOk result (λ _. Leaves cursor.old cursor.new) }
    ensures no_memory { IfErr result (λ fault. ¬ IsMemory fault) }
{
    let mut stars = 0;
    while let Some(_star) = cursor.accept(TokenKind::Star) {
        stars += 1;
    }
    Ok(stars)
}

/// `int`, `unsigned`, `unsigned int`, `void` or a `struct` with its name.
pub fn base<'a>(cursor: &mut Cursor<'_, 'a>) -> Result<Base<'a>, SyntaxFault>
    ensures read { Gives base_of result cursor.new (read_base cursor.old) }
    ensures shorter { IfOk result (λ _. Shortens cursor.old cursor.new) }
    ensures no_memory { IfErr result (λ fault. ¬ IsMemory fault) }
{
    if let Some(_int) = cursor.accept(TokenKind::Int) {
        return Ok(Base::Int);
    }
    if let Some(_unsigned) = cursor.accept(TokenKind::Unsigned) {
        let _int = cursor.accept(TokenKind::Int);
        return Ok(Base::Unsigned);
    }
    if let Some(_void) = cursor.accept(TokenKind::Void) {
        return Ok(Base::Void);
    }
    cursor.expect(TokenKind::Struct)?;
    Ok(Base::Struct(cursor.expect(TokenKind::Word)?.name()))
}
