//! Declarations: variables, members of structs, and parameters.

ghost use Rattle.std.specs.Prelude.{◌≡◌, ◌<◌, ◌^◌, ◌∷◌, ◌++◌, length, map, IfErr};
ghost use Rattle.std.specs.Prelude.{IfOk};
ghost use Rattle.std.specs.Option.{option_map};
ghost use Rattle.fk_syntax.specs.View.{base_of, tree_of};
ghost use Rattle.fk_syntax.specs.ProgramView.{declared_of};
ghost use Rattle.fk_parse_combinators.specs.Readers.{repeated};
ghost use Rattle.fk_parse_combinators.specs.Ahead.{Shortens, Leaves};
ghost use Rattle.fk_parse_combinators.specs.Faults.{IsMemory};
ghost use Rattle.fk_parse_combinators.specs.Gives.{Gives, Makes};
ghost use Rattle.fk_expr.specs.Reading.{inner, begins_type};
ghost use Rattle.fk_parse_declarations.specs.Grammar.{declared, is_shared, joined_lists};
ghost use Rattle.fk_parse_declarations.specs.Reading.{read_variables, read_variable, read_member};
ghost use Rattle.fk_parse_declarations.specs.Reading.{read_member_name, read_parameters};
ghost use Rattle.fk_parse_declarations.specs.Reading.{read_parameter, read_separated};
ghost use Rattle.fk_parse_declarations.specs.Parts.{read_sharing, read_array_length};
ghost use Rattle.fk_parse_declarations.specs.Parts.{read_first_value, read_others};
ghost use Rattle.fk_parse_declarations.specs.View.{declarator_of};

use crate::lists::{one, put};
use crate::told::{expect_sharing, parameter_is_next, sharing_is_next};
use fk_expr::at_cursor::{assignment, base};
use fk_expr::told::{expect_number, type_is_next};
use fk_expr::types::stars;
use fk_lex::token::TokenKind;
use fk_parse_combinators::cursor::Cursor;
use fk_parse_combinators::fault::SyntaxFault;
use fk_syntax::expression::{Base, Expr, TypeName};
use fk_syntax::place::Name;
use fk_syntax::program::Declared;
use std::alloc::Global;

/// A declared name without its sharing and the base of its type.
#[derive(Drop)]
pub struct Declarator<'a> {
    pub stars: u32,
    pub name: Name<'a>,
    pub length: Option<u32>,
    pub first: Option<Expr<'a>>,
}

impl<'a> Declarator<'a> {
    /// The whole declaration, with this sharing and base.
    pub fn complete(self, shared: bool, base: Base<'a>) -> Declared<'a>
        ensures { declared_of result ≡ declared shared (base_of base.entry)
            (declarator_of self.entry) }
    {
        let Declarator {
            stars,
            name,
            length,
            first,
        } = self;
        Declared {
            shared,
            kind: TypeName { base, stars },
            name,
            length,
            first,
        }
    }
}

/// [ "sh" | "pr" ] type variable { "," variable } ";"
#[tactic(auto, using(fk_expr::proofs::Halting::halting), unfolding(crate::specs::Reading::read_variables, crate::specs::Reading::read_separated))]
pub fn variables<'a>(
    alloc: Global,
    cursor: &mut Cursor<'_, 'a>,
    left: u32,
) -> Result<Vec<Declared<'a>>, SyntaxFault>
    ensures read { Gives (λ rows. map declared_of rows.items) result cursor.new
        (read_variables (inner left) cursor.old) }
    ensures shorter { IfOk result (λ _. Shortens cursor.old cursor.new) }
{
    let shared = shared(cursor)?;
    let base = base(cursor)?;
    let first = variable(alloc, cursor, left)?;
    let rows = rows(alloc, cursor, left, shared, base, first)?;
    match cursor.expect(TokenKind::Semicolon) {
        Ok(_end) => Ok(rows),
        Err(fault) => {
            drop(rows);
            Err(fault)
        }
    }
}

/// The rows of the first variable and of { "," variable }
pub fn rows<'a>(
    alloc: Global,
    cursor: &mut Cursor<'_, 'a>,
    left: u32,
    shared: bool,
    base: Base<'a>,
    first: Declarator<'a>,
) -> Result<Vec<Declared<'a>>, SyntaxFault>
    ensures read { Makes
        (λ others. map (declared shared (base_of base.entry)) (declarator_of first.entry ∷ others))
        (λ rows. map declared_of rows.items) result cursor.new (read_others left cursor.old) }
    ensures few { IfOk result (λ _. Leaves cursor.old cursor.new) }
{
    // Most declarations have one variable.
    let mut rows = one(alloc, first.complete(shared, base))?;
    while let Some(_comma) = cursor.accept(TokenKind::Comma) {
        put(
            &mut rows,
            variable(alloc, cursor, left)?.complete(shared, base),
        )?;
    }
    Ok(rows)
}

/// stars Name [ length ] [ "=" assign ]
#[tactic(auto, using(fk_expr::proofs::Halting::halting), unfolding(crate::specs::Reading::read_variable, crate::specs::Reading::read_rest))]
fn variable<'a>(
    alloc: Global,
    cursor: &mut Cursor<'_, 'a>,
    left: u32,
) -> Result<Declarator<'a>, SyntaxFault>
    ensures read { Gives declarator_of result cursor.new
        (read_variable (inner left) cursor.old) }
    ensures shorter { IfOk result (λ _. Shortens cursor.old cursor.new) }
{
    let stars = stars(cursor)?;
    let name = cursor.expect(TokenKind::Word)?.name();
    let length = array_length(cursor)?;
    let first = first_value(alloc, cursor, left)?;
    Ok(Declarator {
        stars,
        name,
        length,
        first,
    })
}

/// [ "=" assign ]
pub fn first_value<'a>(
    alloc: Global,
    cursor: &mut Cursor<'_, 'a>,
    left: u32,
) -> Result<Option<Expr<'a>>, SyntaxFault>
    ensures read { Gives (λ first. option_map tree_of first) result cursor.new
        (read_first_value left cursor.old) }
    ensures few { IfOk result (λ _. Leaves cursor.old cursor.new) }
{
    let Some(_assign) = cursor.accept(TokenKind::Assign) else {
        return Ok(None);
    };
    Ok(Some(assignment(alloc, cursor, left)?))
}

/// [ "[" Number "]" ]
#[tactic(auto, using(fk_expr::proofs::Halting::halting), unfolding(crate::specs::Reading::read_length))]
pub fn array_length(cursor: &mut Cursor) -> Result<Option<u32>, SyntaxFault>
    ensures read { Gives (λ found. found) result cursor.new (read_array_length cursor.old) }
    ensures few { IfOk result (λ _. Leaves cursor.old cursor.new) }
    ensures no_memory { IfErr result (λ fault. ¬ IsMemory fault) }
{
    let Some(_open) = cursor.accept(TokenKind::OpenBracket) else {
        return Ok(None);
    };
    let (_, (length, _)) = expect_number(cursor)?;
    cursor.expect(TokenKind::CloseBracket)?;
    Ok(Some(length))
}

/// member = type stars Name [ length ] { "," stars Name [ length ] } ";" Its rows are added to
/// `members`.
#[tactic(auto, using(fk_expr::proofs::Halting::halting), unfolding(crate::specs::Reading::read_member, crate::specs::Reading::read_separated))]
pub fn add_member<'a>(
    cursor: &mut Cursor<'_, 'a>,
    members: &mut Vec<Declared<'a>>,
) -> Result<(), SyntaxFault>
    ensures read { Makes (λ added. map declared_of members.old.items ++ added)
        (λ _. map declared_of members.new.items) result cursor.new (read_member cursor.old) }
    ensures shorter { IfOk result (λ _. Shortens cursor.old cursor.new) }
{
    let base = base(cursor)?;
    put(members, member_name(cursor)?.complete(false, base))?;
    while let Some(_comma) = cursor.accept(TokenKind::Comma) {
        put(members, member_name(cursor)?.complete(false, base))?;
    }
    cursor.expect(TokenKind::Semicolon)?;
    Ok(())
}

/// { member } Its rows are added to `members`.
pub fn add_members<'a>(
    cursor: &mut Cursor<'_, 'a>,
    members: &mut Vec<Declared<'a>>,
) -> Result<(), SyntaxFault>
    ensures read { Makes (λ lists. map declared_of members.old.items ++ joined_lists lists)
        (λ _. map declared_of members.new.items) result cursor.new
        (repeated begins_type read_member cursor.old) }
    ensures few { IfOk result (λ _. Leaves cursor.old cursor.new) }
{
    while type_is_next(cursor) {
        add_member(cursor, members)?;
    }
    Ok(())
}

/// stars Name [ length ]
#[tactic(auto, using(fk_expr::proofs::Halting::halting), unfolding(crate::specs::Reading::read_member_name))]
fn member_name<'a>(cursor: &mut Cursor<'_, 'a>) -> Result<Declarator<'a>, SyntaxFault>
    ensures read { Gives declarator_of result cursor.new (read_member_name cursor.old) }
    ensures shorter { IfOk result (λ _. Shortens cursor.old cursor.new) }
    ensures no_memory { IfErr result (λ fault. ¬ IsMemory fault) }
{
    let stars = stars(cursor)?;
    let name = cursor.expect(TokenKind::Word)?.name();
    let length = array_length(cursor)?;
    Ok(Declarator {
        stars,
        name,
        length,
        first: None,
    })
}

/// params = [ "void" ] | param { "," param }
#[tactic(auto, using(fk_expr::proofs::Halting::halting), unfolding(crate::specs::Reading::read_parameters))]
pub fn parameters<'a>(
    alloc: Global,
    cursor: &mut Cursor<'_, 'a>,
) -> Result<Vec<Declared<'a>>, SyntaxFault>
    ensures read { Gives (λ parameters. map declared_of parameters.items) result cursor.new
        (read_parameters cursor.old) }
    ensures few { IfOk result (λ _. Leaves cursor.old cursor.new) }
{
    if cursor.pair_is(TokenKind::Void, TokenKind::CloseParenthesis) {
        cursor.expect(TokenKind::Void)?;
        return Ok(Vec::new(alloc));
    }
    if !parameter_is_next(cursor) {
        return Ok(Vec::new(alloc));
    }
    some_parameters(alloc, cursor)
}

/// param { "," param }
#[tactic(auto, using(fk_expr::proofs::Halting::halting), unfolding(crate::specs::Reading::read_separated))]
fn some_parameters<'a>(
    alloc: Global,
    cursor: &mut Cursor<'_, 'a>,
) -> Result<Vec<Declared<'a>>, SyntaxFault>
    ensures read { Gives (λ parameters. map declared_of parameters.items) result cursor.new
        (read_separated read_parameter cursor.old) }
    ensures shorter { IfOk result (λ _. Shortens cursor.old cursor.new) }
{
    let mut parameters = Vec::new(alloc);
    put(&mut parameters, parameter(cursor)?)?;
    while let Some(_comma) = cursor.accept(TokenKind::Comma) {
        put(&mut parameters, parameter(cursor)?)?;
    }
    Ok(parameters)
}

/// param = [ "sh" | "pr" ] type stars Name
#[tactic(auto, using(fk_expr::proofs::Halting::halting), unfolding(crate::specs::Reading::read_parameter))]
fn parameter<'a>(cursor: &mut Cursor<'_, 'a>) -> Result<Declared<'a>, SyntaxFault>
    ensures read { Gives declared_of result cursor.new (read_parameter cursor.old) }
    ensures shorter { IfOk result (λ _. Shortens cursor.old cursor.new) }
    ensures no_memory { IfErr result (λ fault. ¬ IsMemory fault) }
{
    let shared = shared(cursor)?;
    let base = base(cursor)?;
    let stars = stars(cursor)?;
    let name = cursor.expect(TokenKind::Word)?.name();
    Ok(Declared {
        shared,
        kind: TypeName { base, stars },
        name,
        length: None,
        first: None,
    })
}

/// [ "sh" | "pr" ]; returns whether it is `sh`.
fn shared(cursor: &mut Cursor) -> Result<bool, SyntaxFault>
    ensures read { Makes is_shared (λ shared. shared) result cursor.new (read_sharing cursor.old) }
    ensures few { IfOk result (λ _. Leaves cursor.old cursor.new) }
    ensures no_memory { IfErr result (λ fault. ¬ IsMemory fault) }
{
    if !sharing_is_next(cursor) {
        return Ok(false);
    }
    let (_, shared) = expect_sharing(cursor)?;
    Ok(shared)
}
