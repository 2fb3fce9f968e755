//! The pieces of a text, in the order in which they are checked.

ghost use Rattle.std.specs.Prelude.{◌≡◌, ◌∷◌, ◌++◌, [], map, IfOk, OnOk};
ghost use Rattle.std.specs.Option.{option_map};
ghost use Rattle.fk_syntax.specs.View.{type_of, tree_of};
ghost use Rattle.fk_syntax.specs.Program.{statements_of};
ghost use Rattle.fk_syntax.specs.ProgramView.{declared_of, statement_of, function_of, item_of};
ghost use Rattle.fk_types_obligations.specs.declared.piece.Role.TheVariants as r;
ghost use Rattle.fk_types_obligations.specs.Pieces as t;
ghost use Rattle.fk_types_obligations.specs.Pieces.{optional_pieces, variables_pieces, file_pieces};
ghost use Rattle.fk_types_obligations.specs.Pieces.{parameters_pieces, statement_pieces};
ghost use Rattle.fk_types_obligations.specs.Pieces.{statements_pieces, function_pieces};
ghost use Rattle.fk_types_obligations.specs.Pieces.{item_pieces, items_pieces};
ghost use Rattle.fk_types_obligations.specs.View.{piece_of};
ghost use Rattle.fk_types_obligations.specs.PiecesView.{pieces_in};

use crate::piece::{Piece, Role};
use fk_syntax::{Declared, Expr, Function, Item, Spot, Stmt, TypeName};
use std::alloc::{AllocError, Global};

/// The pieces of a text, in the order in which they are checked. The body of a `do` comes before
/// its condition.
#[derive(Drop)]
pub struct Pieces<'p, 'a> {
    list: Vec<Piece<'p, 'a>>,
}

impl<'p, 'a> Pieces<'p, 'a> {
    /// The pieces of some items. It fails only if there isn't enough memory.
    pub fn of(alloc: Global, items: &'p [Item<'a>]) -> Result<Self, AllocError>
        ensures { IfOk result (λ into. pieces_in into ≡ items_pieces (map item_of items.now)) }
    {
        // Most items have at least one piece.
        let mut into = Pieces {
            list: Vec::with_capacity(alloc, items.len())?,
        };
        Self::add_items(items, &mut into)?;
        Ok(into)
    }

    /// The pieces, in order.
    pub fn list(&self) -> &[Piece<'p, 'a>]
        ensures { map piece_of result.now ≡ pieces_in self.now }
    {
        &self.list
    }

    // The inputs come before the list that grows, because such calls have shorter proofs than
    // methods.
    fn add(piece: Piece<'p, 'a>, into: &mut Self) -> Result<(), AllocError>
        ensures { OnOk result (pieces_in into.new
            ≡ pieces_in into.old ++ piece_of piece.entry ∷ []) }
    {
        into.list.push(piece)?;
        Ok(())
    }

    fn add_used(value: &'p Expr<'a>, role: Role, into: &mut Self) -> Result<(), AllocError>
        ensures { OnOk result (pieces_in into.new
            ≡ pieces_in into.old ++ t.Used role (tree_of value.now) ∷ []) }
    {
        Self::add(Piece::Used(role, value), into)
    }

    fn add_optional(
        value: &'p Option<Expr<'a>>,
        role: Role,
        into: &mut Self,
    ) -> Result<(), AllocError>
        ensures { OnOk result (pieces_in into.new
            ≡ pieces_in into.old ++ optional_pieces role (option_map tree_of value.now)) }
    {
        match value {
            Some(value) => Self::add_used(value, role, into),
            None => Ok(()),
        }
    }

    fn add_variables(variables: &'p [Declared<'a>], into: &mut Self) -> Result<(), AllocError>
        ensures { OnOk result (pieces_in into.new
            ≡ pieces_in into.old ++ variables_pieces (map declared_of variables.now)) }
    {
        for variable in variables {
            Self::add(Piece::Variable(variable), into)?;
        }
        Ok(())
    }

    fn add_of_file(variables: &'p [Declared<'a>], into: &mut Self) -> Result<(), AllocError>
        ensures { OnOk result (pieces_in into.new
            ≡ pieces_in into.old ++ file_pieces (map declared_of variables.now)) }
    {
        for variable in variables {
            Self::add(Piece::FileVariable(variable), into)?;
        }
        Ok(())
    }

    fn add_parameters(parameters: &'p [Declared<'a>], into: &mut Self) -> Result<(), AllocError>
        ensures { OnOk result (pieces_in into.new
            ≡ pieces_in into.old ++ parameters_pieces (map declared_of parameters.now)) }
    {
        for parameter in parameters {
            Self::add(Piece::Parameter(parameter), into)?;
        }
        Ok(())
    }

    // Adds the three expressions of a `for`.
    fn add_head(
        before: &'p Option<Expr<'a>>,
        condition: &'p Option<Expr<'a>>,
        after: &'p Option<Expr<'a>>,
        into: &mut Self,
    ) -> Result<(), AllocError>
        ensures { OnOk result (pieces_in into.new ≡ pieces_in into.old
            ++ (optional_pieces r.Alone (option_map tree_of before.now)
            ++ optional_pieces r.Condition (option_map tree_of condition.now)
            ++ optional_pieces r.Alone (option_map tree_of after.now))) }
    {
        Self::add_optional(before, Role::Alone, into)?;
        Self::add_optional(condition, Role::Condition, into)?;
        Self::add_optional(after, Role::Alone, into)
    }

    // Adds the three expressions of a `fork`.
    fn add_parts(
        parts: &'p Expr<'a>,
        part: &'p Expr<'a>,
        rank: &'p Option<Expr<'a>>,
        into: &mut Self,
    ) -> Result<(), AllocError>
        ensures { OnOk result (pieces_in into.new ≡ pieces_in into.old
            ++ (t.Used r.Word (tree_of parts.now) ∷ t.Used r.Word (tree_of part.now)
            ∷ optional_pieces r.Word (option_map tree_of rank.now))) }
    {
        Self::add_used(parts, Role::Word, into)?;
        Self::add_used(part, Role::Word, into)?;
        Self::add_optional(rank, Role::Word, into)
    }

    // Adds a `return` in a function with this result type.
    //
    // Here and below, each piece is made in a function of its own, because a function that makes a
    // piece and does more has a longer proof.
    fn add_return(
        value: &'p Option<Expr<'a>>,
        gives: &'p TypeName<'a>,
        spot: Spot,
        into: &mut Self,
    ) -> Result<(), AllocError>
        ensures { OnOk result (pieces_in into.new ≡ pieces_in into.old
            ++ t.Return (type_of gives.now) spot (option_map tree_of value.now) ∷ []) }
    {
        Self::add(Piece::Return(gives, spot, value), into)
    }

    #[cycle(statement)]
    fn add_statement(
        statement: &'p Stmt<'a>,
        gives: &'p TypeName<'a>,
        into: &mut Self,
    ) -> Result<(), AllocError>
        ensures { OnOk result (pieces_in into.new ≡ pieces_in into.old
            ++ statement_pieces (type_of gives.now) (statement_of statement.now)) }
    {
        match statement {
            Stmt::Empty | Stmt::Barrier(_) | Stmt::Break(_) | Stmt::Continue(_) => Ok(()),
            Stmt::Expression(value) => Self::add_used(value, Role::Alone, into),
            Stmt::Block(statements) => Self::add_statements(statements, gives, into),
            Stmt::Declare(variables) => Self::add_variables(variables, into),
            Stmt::If(_, condition, then, otherwise) => {
                Self::add_used(condition, Role::Condition, into)?;
                Self::add_statement(then, gives, into)?;
                match otherwise {
                    Some(otherwise) => Self::add_statement(otherwise, gives, into),
                    None => Ok(()),
                }
            }
            Stmt::While(_, condition, body) => {
                Self::add_used(condition, Role::Condition, into)?;
                Self::add_statement(body, gives, into)
            }
            Stmt::DoWhile(_, body, condition) => {
                Self::add_statement(body, gives, into)?;
                Self::add_used(condition, Role::Condition, into)
            }
            Stmt::For(_, before, condition, after, body) => {
                Self::add_head(before, condition, after, into)?;
                Self::add_statement(body, gives, into)
            }
            Stmt::Start(_, count, body) => {
                Self::add_optional(count, Role::Word, into)?;
                Self::add_statement(body, gives, into)
            }
            Stmt::Farm(_, body) | Stmt::Seq(_, body) => Self::add_statement(body, gives, into),
            Stmt::Fork(_, parts, part, rank, body) => {
                Self::add_parts(parts, part, rank, into)?;
                Self::add_statement(body, gives, into)
            }
            Stmt::Return(spot, value) => Self::add_return(value, gives, *spot, into),
        }
    }

    #[cycle(statement)]
    fn add_statements(
        statements: &'p [Stmt<'a>],
        gives: &'p TypeName<'a>,
        into: &mut Self,
    ) -> Result<(), AllocError>
        ensures { OnOk result (pieces_in into.new ≡ pieces_in into.old ++ statements_pieces
            (type_of gives.now) (statements_of (map statement_of statements.now))) }
    {
        for statement in statements {
            Self::add_statement(statement, gives, into)?;
        }
        Ok(())
    }

    // Adds the header of a function.
    fn add_header(function: &'p Function<'a>, into: &mut Self) -> Result<(), AllocError>
        ensures { OnOk result (pieces_in into.new
            ≡ pieces_in into.old ++ t.Header (function_of function.now) ∷ []) }
    {
        Self::add(Piece::Header(function), into)
    }

    fn add_function(function: &'p Function<'a>, into: &mut Self) -> Result<(), AllocError>
        ensures { OnOk result (pieces_in into.new
            ≡ pieces_in into.old ++ function_pieces (function_of function.now)) }
    {
        Self::add_header(function, into)?;
        Self::add_parameters(&function.params, into)?;
        match &function.body {
            Some(body) => Self::add_statements(body, &function.result, into),
            None => Ok(()),
        }
    }

    fn add_item(item: &'p Item<'a>, into: &mut Self) -> Result<(), AllocError>
        ensures { OnOk result (pieces_in into.new
            ≡ pieces_in into.old ++ item_pieces (item_of item.now)) }
    {
        match item {
            Item::Struct(_, _) => Ok(()),
            Item::Variables(variables) => Self::add_of_file(variables, into),
            Item::Function(function) => Self::add_function(function, into),
        }
    }

    fn add_items(items: &'p [Item<'a>], into: &mut Self) -> Result<(), AllocError>
        ensures { OnOk result (pieces_in into.new
            ≡ pieces_in into.old ++ items_pieces (map item_of items.now)) }
    {
        for item in items {
            Self::add_item(item, into)?;
        }
        Ok(())
    }
}
