//! The tokens of a program, with the surroundings of each.

ghost use Rattle.std.specs.Prelude.{◌≡◌, ◌∷◌, ◌++◌, [], map, IfOk, OnOk};
ghost use Rattle.std.specs.Option.{option_map};
ghost use Rattle.fk_syntax.specs.Tree.{links_of, trees_of, suffixes_of};
ghost use Rattle.fk_syntax.specs.View.{tree_of, link_of, suffix_of, named};
ghost use Rattle.fk_syntax.specs.Program.{statements_of};
ghost use Rattle.fk_syntax.specs.ProgramView.{declared_of, statement_of, function_of, item_of};
ghost use Rattle.fk_regions.specs.declared.token.Word.TheVariants as w;
ghost use Rattle.fk_regions.specs.TokensView.{seen_in};
ghost use Rattle.fk_regions.specs.Tokens.{spot_of, token_in, other, spelling_of, tree_tokens};
ghost use Rattle.fk_regions.specs.Tokens.{links_tokens, trees_tokens, suffixes_tokens};
ghost use Rattle.fk_regions.specs.Tokens.{optional_tokens, variable_tokens, variables_tokens};
ghost use Rattle.fk_regions.specs.Tokens.{own_tokens, statement_tokens, statements_tokens};
ghost use Rattle.fk_regions.specs.Tokens.{holder_of, body_tokens, item_tokens, items_tokens};
ghost use Rattle.fk_regions.specs.Collected.{within, outside, seen};

use crate::around::{Around, Holder};
use crate::token::{Token, Word, spelling_of, word_of_sign};
use fk_syntax::{Declared, Expr, Function, Item, Link, Name, Spot, Stmt, Suffix};
use std::alloc::{AllocError, Global};

/// Tokens, with the surroundings of each.
#[derive(Drop)]
pub(crate) struct Tokens {
    list: Vec<Token>,
}

impl Tokens {
    /// The tokens of a program. It fails only if there isn't enough memory.
    pub(crate) fn of(alloc: Global, items: &[Item]) -> Result<Vec<Token>, AllocError>
        ensures { IfOk result
            (λ tokens. map seen tokens.items
            ≡ items_tokens within outside (map item_of items.now)) }
    {
        // Most items have at least one of these tokens.
        let mut tokens = Tokens {
            list: Vec::with_capacity(alloc, items.len())?,
        };
        Self::add_items(items, &mut tokens)?;
        Ok(tokens.list)
    }

    // The inputs come before the list that grows, because such calls have shorter proofs than
    // methods.
    fn add(&mut self, around: Around, spot: Spot, word: Word) -> Result<(), AllocError>
        ensures { OnOk result (seen_in self.new ≡ seen_in self.old
            ++ token_in around spot word ∷ []) }
    {
        self.list.push(Token { around, spot, word })?;
        Ok(())
    }

    fn add_other(&mut self, around: Around, spot: Spot) -> Result<(), AllocError>
        ensures { OnOk result (seen_in self.new ≡ seen_in self.old
            ++ other around spot ∷ []) }
    {
        self.add(around, spot, Word::Other)
    }

    // Adds the name of a member or of a declared variable.
    fn add_member(name: &Name, around: Around, into: &mut Self) -> Result<(), AllocError>
        ensures { OnOk result (seen_in into.new ≡ seen_in into.old
            ++ other around (spot_of (named name.now)) ∷ []) }
    {
        into.add_other(around, spot_of(name))
    }

    #[cycle(expression)]
    fn add_expression(expression: &Expr, around: Around, into: &mut Self) -> Result<(), AllocError>
        ensures { OnOk result (seen_in into.new
            ≡ seen_in into.old ++ tree_tokens around (tree_of expression.now)) }
    {
        match expression {
            Expr::Number(spot, _, _)
            | Expr::Puts(spot, _)
            | Expr::Sizeof(spot, _)
            | Expr::GroupNumber(spot)
            | Expr::GroupRank(spot) => into.add_other(around, *spot),
            Expr::Named(name) => {
                into.add(around, spot_of(name), Word::Name(spelling_of(name.bytes)))
            }
            Expr::Prefix(spot, _, operand) | Expr::Cast(spot, _, operand) => {
                Self::add_operand(operand, around, *spot, into)
            }
            Expr::Chain(first, links) => {
                Self::add_expression(first, around, into)?;
                Self::add_links(links, around, into)
            }
            Expr::Postfix(whole, suffixes) => {
                Self::add_expression(whole, around, into)?;
                Self::add_suffixes(suffixes, around, into)
            }
            Expr::Assign(spot, _, target, value) => {
                Self::add_assigned(target, value, around, *spot, into)
            }
            Expr::Choose(spot, condition, first, second) => {
                Self::add_choice(condition, first, second, around, *spot, into)
            }
        }
    }

    // Adds a sign or a cast, and its operand.
    #[cycle(expression)]
    fn add_operand(
        operand: &Expr,
        around: Around,
        spot: Spot,
        into: &mut Self,
    ) -> Result<(), AllocError>
        ensures { OnOk result (seen_in into.new ≡ seen_in into.old
            ++ (other around spot ∷ tree_tokens around (tree_of operand.now))) }
    {
        into.add_other(around, spot)?;
        Self::add_expression(operand, around, into)
    }

    // Adds the sign and the two sides of an assignment.
    #[cycle(expression)]
    fn add_assigned<'e, 'a>(
        target: &'e Expr<'a>,
        value: &'e Expr<'a>,
        around: Around,
        spot: Spot,
        into: &mut Self,
    ) -> Result<(), AllocError>
        ensures { OnOk result (seen_in into.new ≡ seen_in into.old
            ++ (other around spot ∷ tree_tokens around (tree_of target.now)
            ++ tree_tokens around (tree_of value.now))) }
    {
        into.add_other(around, spot)?;
        Self::add_expression(target, around, into)?;
        Self::add_expression(value, around, into)
    }

    // Adds the sign and the three parts of a `?:`.
    #[cycle(expression)]
    fn add_choice<'e, 'a>(
        condition: &'e Expr<'a>,
        first: &'e Expr<'a>,
        second: &'e Expr<'a>,
        around: Around,
        spot: Spot,
        into: &mut Self,
    ) -> Result<(), AllocError>
        ensures { OnOk result (seen_in into.new ≡ seen_in into.old
            ++ (token_in around spot w.Branching ∷ tree_tokens around (tree_of condition.now)
            ++ tree_tokens around (tree_of first.now)
            ++ tree_tokens around (tree_of second.now))) }
    {
        into.add(around, spot, Word::Branching)?;
        Self::add_expression(condition, around, into)?;
        Self::add_expression(first, around, into)?;
        Self::add_expression(second, around, into)
    }

    #[cycle(expression)]
    fn add_links(links: &[Link], around: Around, into: &mut Self) -> Result<(), AllocError>
        ensures { OnOk result (seen_in into.new ≡ seen_in into.old
            ++ links_tokens around (links_of (map link_of links.now))) }
    {
        for link in links {
            into.add(around, link.spot, word_of_sign(link.sign))?;
            Self::add_expression(&link.right, around, into)?;
        }
        Ok(())
    }

    #[cycle(expression)]
    fn add_suffixes(suffixes: &[Suffix], around: Around, into: &mut Self) -> Result<(), AllocError>
        ensures { OnOk result (seen_in into.new ≡ seen_in into.old
            ++ suffixes_tokens around (suffixes_of (map suffix_of suffixes.now))) }
    {
        for suffix in suffixes {
            match suffix {
                Suffix::Index(spot, by) => {
                    into.add_other(around, *spot)?;
                    Self::add_expression(by, around, into)?;
                }
                Suffix::Call(spot, arguments) => {
                    into.add_other(around, *spot)?;
                    Self::add_expressions(arguments, around, into)?;
                }
                Suffix::Dot(spot, member) | Suffix::Arrow(spot, member) => {
                    into.add_other(around, *spot)?;
                    Self::add_member(member, around, into)?;
                }
                Suffix::Up(spot) | Suffix::Down(spot) => into.add_other(around, *spot)?,
            }
        }
        Ok(())
    }

    #[cycle(expression)]
    fn add_expressions(
        expressions: &[Expr],
        around: Around,
        into: &mut Self,
    ) -> Result<(), AllocError>
        ensures { OnOk result (seen_in into.new ≡ seen_in into.old
            ++ trees_tokens around (trees_of (map tree_of expressions.now))) }
    {
        for expression in expressions {
            Self::add_expression(expression, around, into)?;
        }
        Ok(())
    }

    fn add_optional(value: &Option<Expr>, around: Around, into: &mut Self) -> Result<(), AllocError>
        ensures { OnOk result (seen_in into.new ≡ seen_in into.old
            ++ optional_tokens around (option_map tree_of value.now)) }
    {
        match value {
            Some(value) => Self::add_expression(value, around, into),
            None => Ok(()),
        }
    }

    fn add_variable(variable: &Declared, around: Around, into: &mut Self) -> Result<(), AllocError>
        ensures { OnOk result (seen_in into.new ≡ seen_in into.old
            ++ variable_tokens around (declared_of variable.now)) }
    {
        Self::add_member(&variable.name, around, into)?;
        Self::add_optional(&variable.first, around, into)
    }

    fn add_variables(
        variables: &[Declared],
        around: Around,
        into: &mut Self,
    ) -> Result<(), AllocError>
        ensures { OnOk result (seen_in into.new ≡ seen_in into.old
            ++ variables_tokens around (map declared_of variables.now)) }
    {
        for variable in variables {
            Self::add_variable(variable, around, into)?;
        }
        Ok(())
    }

    // Adds the keyword and the three expressions of a `for`.
    fn add_head<'e, 'a>(
        before: &'e Option<Expr<'a>>,
        condition: &'e Option<Expr<'a>>,
        after: &'e Option<Expr<'a>>,
        around: Around,
        spot: Spot,
        into: &mut Self,
    ) -> Result<(), AllocError>
        ensures { OnOk result (seen_in into.new ≡ seen_in into.old
            ++ (token_in around spot w.Loop ∷ optional_tokens around (option_map tree_of before.now)
            ++ optional_tokens around (option_map tree_of condition.now)
            ++ optional_tokens around (option_map tree_of after.now))) }
    {
        into.add(around, spot, Word::Loop)?;
        Self::add_optional(before, around, into)?;
        Self::add_optional(condition, around, into)?;
        Self::add_optional(after, around, into)
    }

    // Adds the keyword and the three expressions of a `fork`.
    fn add_parts<'e, 'a>(
        parts: &'e Expr<'a>,
        part: &'e Expr<'a>,
        rank: &'e Option<Expr<'a>>,
        around: Around,
        spot: Spot,
        into: &mut Self,
    ) -> Result<(), AllocError>
        ensures { OnOk result (seen_in into.new ≡ seen_in into.old
            ++ (token_in around spot w.Fork ∷ tree_tokens around (tree_of parts.now)
            ++ tree_tokens around (tree_of part.now)
            ++ optional_tokens around (option_map tree_of rank.now))) }
    {
        into.add(around, spot, Word::Fork)?;
        Self::add_expression(parts, around, into)?;
        Self::add_expression(part, around, into)?;
        Self::add_optional(rank, around, into)
    }

    // Adds a keyword and the expression after it, if there is one.
    fn add_value(
        value: &Option<Expr>,
        around: Around,
        spot: Spot,
        word: Word,
        into: &mut Self,
    ) -> Result<(), AllocError>
        ensures { OnOk result (seen_in into.new ≡ seen_in into.old
            ++ (token_in around spot word
            ∷ optional_tokens around (option_map tree_of value.now))) }
    {
        into.add(around, spot, word)?;
        Self::add_optional(value, around, into)
    }

    // Adds a keyword and the condition after it.
    fn add_condition(
        condition: &Expr,
        around: Around,
        spot: Spot,
        word: Word,
        into: &mut Self,
    ) -> Result<(), AllocError>
        ensures { OnOk result (seen_in into.new ≡ seen_in into.old
            ++ (token_in around spot word ∷ tree_tokens around (tree_of condition.now))) }
    {
        into.add(around, spot, word)?;
        Self::add_expression(condition, around, into)
    }

    // Adds the tokens directly in a statement: its keyword and its expressions.
    fn add_own(statement: &Stmt, around: Around, into: &mut Self) -> Result<(), AllocError>
        ensures { OnOk result (seen_in into.new
            ≡ seen_in into.old ++ own_tokens around (statement_of statement.now)) }
    {
        match statement {
            Stmt::Empty | Stmt::Block(_) => Ok(()),
            Stmt::Expression(value) => Self::add_expression(value, around, into),
            Stmt::Declare(variables) => Self::add_variables(variables, around, into),
            Stmt::If(spot, condition, _, _) => {
                Self::add_condition(condition, around, *spot, Word::If, into)
            }
            Stmt::While(spot, condition, _) | Stmt::DoWhile(spot, _, condition) => {
                Self::add_condition(condition, around, *spot, Word::Loop, into)
            }
            Stmt::For(spot, before, condition, after, _) => {
                Self::add_head(before, condition, after, around, *spot, into)
            }
            Stmt::Start(spot, count, _) => Self::add_value(count, around, *spot, Word::Start, into),
            Stmt::Farm(spot, _) => into.add(around, *spot, Word::Farm),
            Stmt::Seq(spot, _) => into.add(around, *spot, Word::Seq),
            Stmt::Fork(spot, parts, part, rank, _) => {
                Self::add_parts(parts, part, rank, around, *spot, into)
            }
            Stmt::Barrier(spot) => into.add(around, *spot, Word::Barrier),
            Stmt::Break(spot) => into.add(around, *spot, Word::Break),
            Stmt::Continue(spot) => into.add(around, *spot, Word::Continue),
            Stmt::Return(spot, value) => Self::add_value(value, around, *spot, Word::Return, into),
        }
    }

    #[cycle(statement)]
    fn add_statement(statement: &Stmt, around: Around, into: &mut Self) -> Result<(), AllocError>
        ensures { OnOk result (seen_in into.new
            ≡ seen_in into.old ++ statement_tokens within around (statement_of statement.now)) }
    {
        Self::add_own(statement, around, into)?;
        match statement {
            Stmt::Block(statements) => {
                Self::add_statements(statements, around.within(Holder::Block), into)
            }
            Stmt::If(_, _, then, otherwise) => {
                let inside = around.within(Holder::Branch);
                Self::add_statement(then, inside, into)?;
                match otherwise {
                    Some(otherwise) => Self::add_statement(otherwise, inside, into),
                    None => Ok(()),
                }
            }
            Stmt::While(_, _, body) | Stmt::DoWhile(_, body, _) | Stmt::For(_, _, _, _, body) => {
                Self::add_statement(body, around.within(Holder::Loop), into)
            }
            Stmt::Start(_, _, body) => Self::add_statement(
                body,
                around.within(Holder::Start),
                into,
            ),
            Stmt::Farm(_, body) => Self::add_statement(body, around.within(Holder::Farm), into),
            Stmt::Seq(_, body) => Self::add_statement(body, around.within(Holder::Seq), into),
            Stmt::Fork(_, _, _, _, body) => Self::add_statement(
                body,
                around.within(Holder::Fork),
                into,
            ),
            Stmt::Empty
            | Stmt::Expression(_)
            | Stmt::Declare(_)
            | Stmt::Barrier(_)
            | Stmt::Break(_)
            | Stmt::Continue(_)
            | Stmt::Return(_, _) => Ok(()),
        }
    }

    #[cycle(statement)]
    fn add_statements(
        statements: &[Stmt],
        around: Around,
        into: &mut Self,
    ) -> Result<(), AllocError>
        ensures { OnOk result (seen_in into.new ≡ seen_in into.old
            ++ statements_tokens within around (statements_of (map statement_of statements.now))) }
    {
        for statement in statements {
            Self::add_statement(statement, around, into)?;
        }
        Ok(())
    }

    fn add_function(function: &Function, into: &mut Self) -> Result<(), AllocError>
        ensures { OnOk result (seen_in into.new ≡ seen_in into.old
            ++ body_tokens within (within (holder_of (function_of function.now)) outside)
            (function_of function.now).body) }
    {
        match &function.body {
            Some(body) => Self::add_statements(
                body,
                Around::outside().within(holder_of(function)),
                into,
            ),
            None => Ok(()),
        }
    }

    fn add_item(item: &Item, into: &mut Self) -> Result<(), AllocError>
        ensures { OnOk result (seen_in into.new
            ≡ seen_in into.old ++ item_tokens within outside (item_of item.now)) }
    {
        match item {
            Item::Struct(_, _) => Ok(()),
            Item::Variables(variables) => Self::add_variables(variables, Around::outside(), into),
            Item::Function(function) => Self::add_function(function, into),
        }
    }

    fn add_items(items: &[Item], into: &mut Self) -> Result<(), AllocError>
        ensures { OnOk result (seen_in into.new
            ≡ seen_in into.old ++ items_tokens within outside (map item_of items.now)) }
    {
        for item in items {
            Self::add_item(item, into)?;
        }
        Ok(())
    }
}

// The token of a name and its place.
fn spot_of(name: &Name) -> Spot
    ensures { result ≡ spot_of (named name.now) }
{
    Spot {
        at: name.at,
        place: name.place,
    }
}

// The holder that is the outermost block of a function.
fn holder_of(function: &Function) -> Holder
    ensures { result ≡ holder_of (function_of function.now) }
{
    if function.name.bytes == b"main".as_slice() {
        Holder::Main(function.mode)
    } else {
        Holder::Function(function.mode)
    }
}
