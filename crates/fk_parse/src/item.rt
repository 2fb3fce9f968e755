//! Items: structs, variables of file scope, and functions.
//!
//! `left` is the number of levels that may be open in a text. A function's body opens the first
//! one.

ghost use Rattle.std.specs.Prelude.{◌-◌, ◌<◌, map, IfOk};
ghost use Rattle.std.specs.Option.{option_map};
ghost use Rattle.fk_syntax.specs.View.{named, base_of, type_of};
ghost use Rattle.fk_syntax.specs.Program.{statements_of};
ghost use Rattle.fk_syntax.specs.ProgramView.{statement_of, item_of};
ghost use Rattle.fk_parse_combinators.specs.Readers.{repeated};
ghost use Rattle.fk_parse_combinators.specs.Ahead.{Shortens};
ghost use Rattle.fk_parse_combinators.specs.Gives.{Gives, Makes};
ghost use Rattle.fk_expr.specs.Reading.{inner};
ghost use Rattle.fk_parse.specs.Reading.{
  begins_item,
  read_struct,
  read_variables_tail,
  read_function_tail,
  read_bare,
  read_moded,
};
ghost use Rattle.fk_parse.specs.Parts.{
  read_body_within,
  read_optional_body,
  read_item_within,
  function_made,
  variables_made,
};

use crate::told::{expect_mode, item_is_next, mode_is_next};
use fk_expr::at_cursor::base;
use fk_expr::types::stars;
use fk_lex::token::TokenKind;
use fk_parse_combinators::cursor::Cursor;
use fk_parse_combinators::fault::SyntaxFault;
use fk_parse_declarations::declaration::{
    Declarator, add_member, add_members, array_length, first_value, parameters, rows, variables,
};
use fk_parse_declarations::told::sharing_is_next;
use fk_parse_statements::statement::block;
use fk_syntax::expression::{Base, TypeName};
use fk_syntax::place::Name;
use fk_syntax::program::{Function, Item, Mode, Stmt};
use std::alloc::Global;

/// program = { item }
pub fn items<'a>(
    alloc: Global,
    cursor: &mut Cursor<'_, 'a>,
    left: u32,
) -> Result<Vec<Item<'a>>, SyntaxFault>
    requires { 0 < left }
    ensures read { Gives (λ items. map item_of items.items) result cursor.new
        (repeated begins_item (read_item_within left) cursor.old) }
{
    let mut items = Vec::new(alloc);
    while item_is_next(cursor) {
        items.push(item(alloc, cursor, left)?)?;
    }
    Ok(items)
}

/// A struct, variables or a function.
#[tactic(auto, using(fk_expr::proofs::Halting::halting), unfolding(crate::specs::Reading::read_item))]
fn item<'a>(alloc: Global, cursor: &mut Cursor<'_, 'a>, left: u32) -> Result<Item<'a>, SyntaxFault>
    requires { 0 < left }
    ensures read { Gives item_of result cursor.new (read_item_within left cursor.old) }
    ensures shorter { IfOk result (λ _. Shortens cursor.old cursor.new) }
{
    if cursor.triple_is(TokenKind::Struct, TokenKind::Word, TokenKind::OpenBrace) {
        return struct_item(alloc, cursor);
    }
    if sharing_is_next(cursor) {
        return Ok(Item::Variables(variables(alloc, cursor, left)?));
    }
    if mode_is_next(cursor) {
        return moded(alloc, cursor, left);
    }
    bare(alloc, cursor, left)
}

/// "struct" Name "{" member { member } "}" ";"
#[tactic(auto, using(fk_expr::proofs::Halting::halting), unfolding(crate::specs::Reading::read_struct))]
fn struct_item<'a>(alloc: Global, cursor: &mut Cursor<'_, 'a>) -> Result<Item<'a>, SyntaxFault>
    ensures read { Gives item_of result cursor.new (read_struct cursor.old) }
    ensures shorter { IfOk result (λ _. Shortens cursor.old cursor.new) }
{
    cursor.expect(TokenKind::Struct)?;
    let name = cursor.expect(TokenKind::Word)?.name();
    cursor.expect(TokenKind::OpenBrace)?;
    let mut members = Vec::new(alloc);
    add_member(cursor, &mut members)?;
    add_members(cursor, &mut members)?;
    cursor.expect(TokenKind::CloseBrace)?;
    cursor.expect(TokenKind::Semicolon)?;
    Ok(Item::Struct(name, members))
}

/// mode type stars Name, and the rest of a function
#[tactic(auto, using(fk_expr::proofs::Halting::halting), unfolding(crate::specs::Reading::read_moded))]
fn moded<'a>(alloc: Global, cursor: &mut Cursor<'_, 'a>, left: u32) -> Result<Item<'a>, SyntaxFault>
    requires { 0 < left }
    ensures read { Gives item_of result cursor.new
        (read_moded (read_body_within left) cursor.old) }
    ensures shorter { IfOk result (λ _. Shortens cursor.old cursor.new) }
{
    let (_, mode) = expect_mode(cursor)?;
    let base = base(cursor)?;
    let stars = stars(cursor)?;
    let name = cursor.expect(TokenKind::Word)?.name();
    function(alloc, cursor, left, mode, TypeName { base, stars }, name)
}

/// An item that begins with a type. It is a function if a parenthesis follows its name.
#[tactic(auto, using(fk_expr::proofs::Halting::halting), unfolding(crate::specs::Reading::read_bare, crate::specs::Reading::read_tail))]
fn bare<'a>(alloc: Global, cursor: &mut Cursor<'_, 'a>, left: u32) -> Result<Item<'a>, SyntaxFault>
    requires { 0 < left }
    ensures read { Gives item_of result cursor.new
        (read_bare (inner left) (read_body_within left) cursor.old) }
    ensures shorter { IfOk result (λ _. Shortens cursor.old cursor.new) }
{
    let base = base(cursor)?;
    let stars = stars(cursor)?;
    let name = cursor.expect(TokenKind::Word)?.name();
    if !cursor.next_is(TokenKind::OpenParenthesis) {
        return file_variables(alloc, cursor, left, base, stars, name);
    }
    let kind = TypeName { base, stars };
    function(alloc, cursor, left, Mode::Async, kind, name)
}

/// The rest of a declaration of variables, after the name of the first one.
#[tactic(auto, using(fk_expr::proofs::Halting::halting), unfolding(crate::specs::Reading::read_variables_tail, fk_parse_declarations::specs::Reading::read_rest))]
fn file_variables<'a>(
    alloc: Global,
    cursor: &mut Cursor<'_, 'a>,
    left: u32,
    base: Base<'a>,
    stars: u32,
    name: Name<'a>,
) -> Result<Item<'a>, SyntaxFault>
    ensures read { Makes (variables_made (base_of base.entry) stars (named name.entry))
        item_of result cursor.new
        (read_variables_tail (inner left) cursor.old) }
    ensures shorter { IfOk result (λ _. Shortens cursor.old cursor.new) }
{
    let length = array_length(cursor)?;
    let first = first_value(alloc, cursor, left)?;
    let first = Declarator {
        stars,
        name,
        length,
        first,
    };
    let rows = rows(alloc, cursor, left, false, base, first)?;
    cursor.expect(TokenKind::Semicolon)?;
    Ok(Item::Variables(rows))
}

/// The rest of a function, after its name: "(" params ")" ( ";" | block )
#[tactic(auto, using(fk_expr::proofs::Halting::halting), unfolding(crate::specs::Reading::read_function_tail))]
fn function<'a>(
    alloc: Global,
    cursor: &mut Cursor<'_, 'a>,
    left: u32,
    mode: Mode,
    kind: TypeName<'a>,
    name: Name<'a>,
) -> Result<Item<'a>, SyntaxFault>
    requires { 0 < left }
    ensures read { Makes (function_made mode (type_of kind.entry) (named name.entry))
        item_of result cursor.new
        (read_function_tail (read_body_within left) cursor.old) }
    ensures shorter { IfOk result (λ _. Shortens cursor.old cursor.new) }
{
    cursor.expect(TokenKind::OpenParenthesis)?;
    let params = parameters(alloc, cursor)?;
    cursor.expect(TokenKind::CloseParenthesis)?;
    let body = body(alloc, cursor, left)?;
    Ok(Item::Function(Function {
        mode,
        result: kind,
        name,
        params,
        body,
    }))
}

/// ";" | block
fn body<'a>(
    alloc: Global,
    cursor: &mut Cursor<'_, 'a>,
    left: u32,
) -> Result<Option<Vec<Stmt<'a>>>, SyntaxFault>
    requires { 0 < left }
    ensures read { Gives (λ body. option_map (λ b. statements_of (map statement_of b.items)) body)
        result cursor.new (read_optional_body (read_body_within left) cursor.old) }
    ensures shorter { IfOk result (λ _. Shortens cursor.old cursor.new) }
{
    if cursor.next_is(TokenKind::OpenBrace) {
        return Ok(Some(block(alloc, cursor, left - 1)?));
    }
    cursor.expect(TokenKind::Semicolon)?;
    Ok(None)
}
