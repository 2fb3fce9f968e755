//! The tokens of a program that matter for sharing, with the surroundings of each.

ghost use Rattle.std.specs.Prelude.{◌≡◌, ◌∷◌, ◌++◌, [], map, IfOk, OnOk};
ghost use Rattle.std.specs.Option.{option_map};
ghost use Rattle.fk_syntax.specs.Tree as t;
ghost use Rattle.fk_syntax.specs.Tree.{links_of, trees_of, suffixes_of};
ghost use Rattle.fk_syntax.specs.View.{tree_of, link_of, suffix_of, named};
ghost use Rattle.fk_syntax.specs.Program.{statements_of};
ghost use Rattle.fk_syntax.specs.ProgramView.{declared_of, statement_of, function_of, item_of};
ghost use Rattle.fk_sharing_class.specs.Things.{thing_in};
ghost use Rattle.fk_sharing_class.specs.Class.{is_shared, is_joined_shared, is_chain_shared};
ghost use Rattle.fk_sharing_class.specs.Class.{is_postfix_shared};
ghost use Rattle.fk_regions.specs.Tokens.{spot_of};
ghost use Rattle.fk_sharing.specs.declared.token.Word.TheVariants as w;
ghost use Rattle.fk_sharing.specs.TokensView.{seen_in};
ghost use Rattle.fk_sharing.specs.Tokens.{word_of_sign, token_in, plain, bare, tree_tokens};
ghost use Rattle.fk_sharing.specs.Tokens.{links_tokens, trees_tokens, suffixes_tokens};
ghost use Rattle.fk_sharing.specs.Tokens.{optional_tokens, is_condition_shared, variable_tokens};
ghost use Rattle.fk_sharing.specs.Tokens.{variables_tokens, condition_tokens, head_tokens};
ghost use Rattle.fk_sharing.specs.Tokens.{parts_tokens, statement_tokens, statements_tokens};
ghost use Rattle.fk_sharing.specs.Tokens.{parameters_tokens, body_tokens, function_tokens};
ghost use Rattle.fk_sharing.specs.Tokens.{item_tokens, items_tokens};
ghost use Rattle.fk_sharing.specs.Own.{decision_tokens, is_decision_shared, own_tokens};
ghost use Rattle.fk_sharing.specs.Collected.{within, outside, seen};

use crate::around::{Around, Holder};
use crate::token::{Token, Word, form_of, named_thing, word_of_sign};
use fk_regions::{Region, region_of};
use fk_sharing_class::{
    is_assigned_shared, is_call_shared, is_joined_shared, is_name_shared, thing_at,
};
use fk_syntax::{Declared, Expr, Function, Item, Link, Mode, Name, Sign, Spot, Stmt, Suffix};
use fk_types_names::Names;
use std::alloc::{AllocError, Global};

const SYNCHRONOUS: Holder = Holder::Body(Region::Synchronous);

const ASYNCHRONOUS: Holder = Holder::Body(Region::Asynchronous);

/// Tokens, with the surroundings of each.
#[derive(Drop)]
pub(crate) struct Tokens {
    list: Vec<Token>,
}

impl Tokens {
    /// The tokens of a program. It fails only if there isn't enough memory.
    pub(crate) fn of(alloc: Global, items: &[Item], names: &Names) -> Result<Vec<Token>, AllocError>
        ensures { IfOk result (λ tokens. map seen tokens.items
            ≡ items_tokens (thing_in names.now) within outside (map item_of items.now)) }
    {
        // Most items have at least one of these tokens.
        let mut tokens = Tokens {
            list: Vec::with_capacity(alloc, items.len())?,
        };
        Self::add_items(items, names, &mut tokens)?;
        Ok(tokens.list)
    }

    // The inputs come before the list that grows, because such calls have shorter proofs than
    // methods.
    fn add(
        &mut self,
        around: Around,
        spot: Spot,
        shared: bool,
        word: Word,
    ) -> Result<(), AllocError>
        ensures { OnOk result (seen_in self.new ≡ seen_in self.old
            ++ token_in around spot shared word ∷ []) }
    {
        self.list.push(Token {
            around,
            spot,
            shared,
            word,
        })?;
        Ok(())
    }

    // Adds the main token of an expression, and returns its class. `shared` tells whether it is
    // shared.
    fn add_plain(&mut self, around: Around, spot: Spot, shared: bool) -> Result<bool, AllocError>
        ensures tokens { OnOk result (seen_in self.new ≡ seen_in self.old
            ++ plain around spot shared ∷ []) }
        ensures class { IfOk result (λ is. is ≡ shared) }
    {
        self.add(around, spot, shared, Word::Other)?;
        Ok(shared)
    }

    // Adds a token that isn't the main token of an expression.
    fn add_bare(&mut self, around: Around, spot: Spot, word: Word) -> Result<(), AllocError>
        ensures { OnOk result (seen_in self.new ≡ seen_in self.old
            ++ bare around spot word ∷ []) }
    {
        self.add(around, spot, false, word)
    }

    // Adds the tokens of an expression. Returns whether it is shared.
    #[cycle(expression)]
    fn add_expression(
        expression: &Expr,
        names: &Names,
        around: Around,
        into: &mut Self,
    ) -> Result<bool, AllocError>
        ensures tokens { OnOk result (seen_in into.new ≡ seen_in into.old
            ++ tree_tokens (thing_in names.now) around (tree_of expression.now)) }
        ensures class { IfOk result
            (λ is. is ≡ is_shared (thing_in names.now) (tree_of expression.now)) }
    {
        match expression {
            Expr::Number(spot, _, _) | Expr::Sizeof(spot, _) | Expr::GroupNumber(spot) => {
                into.add_plain(around, *spot, true)
            }
            Expr::Puts(spot, _) | Expr::GroupRank(spot) => into.add_plain(around, *spot, false),
            Expr::Named(name) => Self::add_named(name, names, around, into),
            Expr::Prefix(spot, sign, operand) => {
                Self::add_prefix(operand, names, around, *spot, *sign, into)
            }
            Expr::Cast(spot, _, operand) => {
                let shared = Self::add_expression(operand, names, around, into)?;
                into.add_plain(around, *spot, shared)
            }
            Expr::Chain(first, links) => {
                let first = Self::add_expression(first, names, around, into)?;
                Self::add_links(links, names, around, first, into)
            }
            Expr::Postfix(whole, suffixes) => {
                let before = Self::add_expression(whole, names, around, into)?;
                let called = is_call_shared(names, whole);
                Self::add_suffixes(suffixes, names, around, before, called, into)
            }
            Expr::Assign(spot, sign, target, value) => {
                Self::add_assigned(target, value, names, around, *spot, *sign, into)
            }
            Expr::Choose(spot, condition, first, second) => {
                Self::add_choice(condition, first, second, names, around, *spot, into)
            }
        }
    }

    // Adds a name in an expression. Returns whether it is shared.
    fn add_named(
        name: &Name,
        names: &Names,
        around: Around,
        into: &mut Self,
    ) -> Result<bool, AllocError>
        ensures tokens { OnOk result (seen_in into.new ≡ seen_in into.old
            ++ tree_tokens (thing_in names.now) around (t.Variable (named name.now))) }
        ensures class { IfOk result
            (λ is. is ≡ is_shared (thing_in names.now) (t.Variable (named name.now))) }
    {
        let shared = is_name_shared(thing_at(names, name.at), name.bytes);
        into.add_plain(around, spot_of(name), shared)
    }

    // Adds an operand and the sign before it. Returns whether the expression is shared.
    #[cycle(expression)]
    fn add_prefix(
        operand: &Expr,
        names: &Names,
        around: Around,
        spot: Spot,
        sign: Sign,
        into: &mut Self,
    ) -> Result<bool, AllocError>
        ensures tokens { OnOk result (seen_in into.new ≡ seen_in into.old
            ++ tree_tokens (thing_in names.now) around
            (t.Prefix spot sign (tree_of operand.now))) }
        ensures class { IfOk result (λ is. is
            ≡ is_shared (thing_in names.now) (t.Prefix spot sign (tree_of operand.now))) }
    {
        let shared = Self::add_expression(operand, names, around, into)?;
        let word = Word::Prefix(sign, named_thing(operand, names));
        into.add(around, spot, shared, word)?;
        Ok(shared)
    }

    // Adds an assignment. Returns whether it is shared.
    #[cycle(expression)]
    fn add_assigned<'t, 'a>(
        target: &'t Expr<'a>,
        value: &'t Expr<'a>,
        names: &Names,
        around: Around,
        spot: Spot,
        sign: Sign,
        into: &mut Self,
    ) -> Result<bool, AllocError>
        ensures tokens { OnOk result (seen_in into.new ≡ seen_in into.old
            ++ tree_tokens (thing_in names.now) around
            (t.Assign spot sign (tree_of target.now) (tree_of value.now))) }
        ensures class { IfOk result (λ is. is ≡ is_shared (thing_in names.now)
            (t.Assign spot sign (tree_of target.now) (tree_of value.now))) }
    {
        let target = Self::add_expression(target, names, around, into)?;
        let value = Self::add_expression(value, names, around, into)?;
        into.add_plain(around, spot, is_assigned_shared(sign, target, value))
    }

    // Adds a `?:`. Returns whether it is shared.
    #[cycle(expression)]
    fn add_choice<'t, 'a>(
        condition: &'t Expr<'a>,
        first: &'t Expr<'a>,
        second: &'t Expr<'a>,
        names: &Names,
        around: Around,
        spot: Spot,
        into: &mut Self,
    ) -> Result<bool, AllocError>
        ensures tokens { OnOk result (seen_in into.new ≡ seen_in into.old
            ++ tree_tokens (thing_in names.now) around (t.Choose spot
            (tree_of condition.now) (tree_of first.now) (tree_of second.now))) }
        ensures class { IfOk result (λ is. is ≡ is_shared (thing_in names.now) (t.Choose spot
            (tree_of condition.now) (tree_of first.now) (tree_of second.now))) }
    {
        let condition = Self::add_expression(condition, names, around, into)?;
        let first = Self::add_expression(first, names, around, into)?;
        let second = Self::add_expression(second, names, around, into)?;
        into.add_question(around, spot, condition, condition && first && second)
    }

    // Adds the `?` of a `?:`. `condition` tells whether its condition is shared, and `shared`
    // whether the whole expression is. Returns `shared`.
    fn add_question(
        &mut self,
        around: Around,
        spot: Spot,
        condition: bool,
        shared: bool,
    ) -> Result<bool, AllocError>
        ensures tokens { OnOk result (seen_in self.new ≡ seen_in self.old
            ++ token_in around spot shared (w.Decides condition) ∷ []) }
        ensures class { IfOk result (λ is. is ≡ shared) }
    {
        self.add(around, spot, shared, Word::Decides(condition))?;
        Ok(shared)
    }

    // Adds a sign of a chain. `before` and `right` tell whether the expressions before and after it
    // are shared. Returns whether the chain up to there is.
    fn add_sign(
        &mut self,
        around: Around,
        spot: Spot,
        sign: Sign,
        before: bool,
        right: bool,
    ) -> Result<bool, AllocError>
        ensures tokens { OnOk result (seen_in self.new ≡ seen_in self.old
            ++ token_in around spot (is_joined_shared sign before right) (word_of_sign sign before)
            ∷ []) }
        ensures class { IfOk result (λ is. is ≡ is_joined_shared sign before right) }
    {
        let shared = is_joined_shared(sign, before, right);
        self.add(around, spot, shared, word_of_sign(sign, before))?;
        Ok(shared)
    }

    // Adds the links of a chain. `first` tells whether its first operand is shared. Returns whether
    // the chain is.
    #[cycle(expression)]
    fn add_links(
        links: &[Link],
        names: &Names,
        around: Around,
        first: bool,
        into: &mut Self,
    ) -> Result<bool, AllocError>
        ensures tokens { OnOk result (seen_in into.new ≡ seen_in into.old
            ++ links_tokens (thing_in names.now) around first (links_of (map link_of links.now))) }
        ensures class { IfOk result (λ is. is
            ≡ is_chain_shared (thing_in names.now) first (links_of (map link_of links.now))) }
    {
        let mut shared = first;
        for link in links {
            let right = Self::add_expression(&link.right, names, around, into)?;
            shared = into.add_sign(around, link.spot, link.sign, shared, right)?;
        }
        Ok(shared)
    }

    // Adds the suffixes of an expression. `whole` tells whether it is shared, and `call` whether a
    // call of it is. Returns whether it is shared with the suffixes.
    #[cycle(expression)]
    fn add_suffixes(
        suffixes: &[Suffix],
        names: &Names,
        around: Around,
        whole: bool,
        call: bool,
        into: &mut Self,
    ) -> Result<bool, AllocError>
        ensures tokens { OnOk result (seen_in into.new ≡ seen_in into.old
            ++ suffixes_tokens (thing_in names.now) around whole call
            (suffixes_of (map suffix_of suffixes.now))) }
        ensures class { IfOk result (λ is. is ≡ is_postfix_shared (thing_in names.now) whole call
            (suffixes_of (map suffix_of suffixes.now))) }
    {
        let mut shared = whole;
        let mut called = call;
        for suffix in suffixes {
            match suffix {
                Suffix::Index(spot, by) => {
                    let by = Self::add_expression(by, names, around, into)?;
                    shared = into.add_plain(around, *spot, shared && by)?;
                }
                Suffix::Call(spot, arguments) => {
                    Self::add_expressions(arguments, names, around, into)?;
                    shared = into.add_plain(around, *spot, called)?;
                }
                Suffix::Dot(spot, _)
                | Suffix::Arrow(spot, _)
                | Suffix::Up(spot)
                | Suffix::Down(spot) => shared = into.add_plain(around, *spot, shared)?,
            }
            called = false;
        }
        Ok(shared)
    }

    #[cycle(expression)]
    fn add_expressions(
        expressions: &[Expr],
        names: &Names,
        around: Around,
        into: &mut Self,
    ) -> Result<(), AllocError>
        ensures { OnOk result (seen_in into.new ≡ seen_in into.old
            ++ trees_tokens (thing_in names.now) around
            (trees_of (map tree_of expressions.now))) }
    {
        for expression in expressions {
            let _shared = Self::add_expression(expression, names, around, into)?;
        }
        Ok(())
    }

    // Adds an expression that may be absent. Returns whether it is shared; an absent one is.
    fn add_optional(
        value: &Option<Expr>,
        names: &Names,
        around: Around,
        into: &mut Self,
    ) -> Result<bool, AllocError>
        ensures tokens { OnOk result (seen_in into.new ≡ seen_in into.old
            ++ optional_tokens (thing_in names.now) around (option_map tree_of value.now)) }
        ensures class { IfOk result (λ is. is
            ≡ is_condition_shared (thing_in names.now) (option_map tree_of value.now)) }
    {
        match value {
            Some(value) => Self::add_expression(value, names, around, into),
            None => Ok(true),
        }
    }

    fn add_variable(
        variable: &Declared,
        names: &Names,
        around: Around,
        into: &mut Self,
    ) -> Result<(), AllocError>
        ensures { OnOk result (seen_in into.new ≡ seen_in into.old
            ++ variable_tokens (thing_in names.now) around (declared_of variable.now)) }
    {
        let _shared = Self::add_optional(&variable.first, names, around, into)?;
        let word = Word::Variable(variable.shared, form_of(variable));
        into.add_bare(around, spot_of(&variable.name), word)
    }

    fn add_variables(
        variables: &[Declared],
        names: &Names,
        around: Around,
        into: &mut Self,
    ) -> Result<(), AllocError>
        ensures { OnOk result (seen_in into.new ≡ seen_in into.old
            ++ variables_tokens (thing_in names.now) around (map declared_of variables.now)) }
    {
        for variable in variables {
            Self::add_variable(variable, names, around, into)?;
        }
        Ok(())
    }

    // Adds a condition and the keyword that decides by it. Returns whether the condition is shared.
    fn add_condition(
        condition: &Expr,
        names: &Names,
        around: Around,
        spot: Spot,
        into: &mut Self,
    ) -> Result<bool, AllocError>
        ensures tokens { OnOk result (seen_in into.new ≡ seen_in into.old
            ++ condition_tokens (thing_in names.now) around spot (tree_of condition.now)) }
        ensures class { IfOk result
            (λ is. is ≡ is_shared (thing_in names.now) (tree_of condition.now)) }
    {
        let shared = Self::add_expression(condition, names, around, into)?;
        into.add_bare(around, spot, Word::Decides(shared))?;
        Ok(shared)
    }

    // Adds the keyword and the three expressions of a `for`. Returns whether its condition is
    // shared.
    fn add_head<'t, 'a>(
        before: &'t Option<Expr<'a>>,
        condition: &'t Option<Expr<'a>>,
        after: &'t Option<Expr<'a>>,
        names: &Names,
        around: Around,
        spot: Spot,
        into: &mut Self,
    ) -> Result<bool, AllocError>
        ensures tokens { OnOk result (seen_in into.new ≡ seen_in into.old
            ++ head_tokens (thing_in names.now) around spot (option_map tree_of before.now)
            (option_map tree_of condition.now) (option_map tree_of after.now)) }
        ensures class { IfOk result (λ is. is
            ≡ is_condition_shared (thing_in names.now) (option_map tree_of condition.now)) }
    {
        let _before = Self::add_optional(before, names, around, into)?;
        let shared = Self::add_optional(condition, names, around, into)?;
        let _after = Self::add_optional(after, names, around, into)?;
        into.add_bare(around, spot, Word::Decides(shared))?;
        Ok(shared)
    }

    // Adds the three expressions of a `fork`.
    fn add_parts<'t, 'a>(
        parts: &'t Expr<'a>,
        part: &'t Expr<'a>,
        rank: &'t Option<Expr<'a>>,
        names: &Names,
        around: Around,
        into: &mut Self,
    ) -> Result<(), AllocError>
        ensures { OnOk result (seen_in into.new ≡ seen_in into.old
            ++ parts_tokens (thing_in names.now) around (tree_of parts.now) (tree_of part.now)
            (option_map tree_of rank.now)) }
    {
        let _parts = Self::add_expression(parts, names, around, into)?;
        let _part = Self::add_expression(part, names, around, into)?;
        let _rank = Self::add_optional(rank, names, around, into)?;
        Ok(())
    }

    // Adds the tokens that decide in a statement whether its parts are run. Returns whether the
    // condition is shared, which is true if there is none.
    fn add_decision(
        statement: &Stmt,
        names: &Names,
        around: Around,
        into: &mut Self,
    ) -> Result<bool, AllocError>
        ensures tokens { OnOk result (seen_in into.new ≡ seen_in into.old
            ++ decision_tokens (thing_in names.now) around (statement_of statement.now)) }
        ensures class { IfOk result (λ is. is
            ≡ is_decision_shared (thing_in names.now) (statement_of statement.now)) }
    {
        match statement {
            Stmt::If(spot, condition, _, _) => {
                Self::add_condition(condition, names, around, *spot, into)
            }
            Stmt::While(spot, condition, _) | Stmt::DoWhile(spot, _, condition) => {
                Self::add_condition(condition, names, around, *spot, into)
            }
            Stmt::For(spot, before, condition, after, _) => {
                Self::add_head(before, condition, after, names, around, *spot, into)
            }
            Stmt::Empty
            | Stmt::Expression(_)
            | Stmt::Declare(_)
            | Stmt::Block(_)
            | Stmt::Start(_, _, _)
            | Stmt::Farm(_, _)
            | Stmt::Seq(_, _)
            | Stmt::Fork(_, _, _, _, _)
            | Stmt::Barrier(_)
            | Stmt::Break(_)
            | Stmt::Continue(_)
            | Stmt::Return(_, _) => Ok(true),
        }
    }

    // Adds the tokens directly in a statement without a condition.
    fn add_own(
        statement: &Stmt,
        names: &Names,
        around: Around,
        into: &mut Self,
    ) -> Result<(), AllocError>
        ensures { OnOk result (seen_in into.new ≡ seen_in into.old
            ++ own_tokens (thing_in names.now) around (statement_of statement.now)) }
    {
        match statement {
            Stmt::Expression(value) => {
                let _shared = Self::add_expression(value, names, around, into)?;
                Ok(())
            }
            Stmt::Declare(variables) => Self::add_variables(variables, names, around, into),
            Stmt::Start(_, count, _) => {
                let _shared = Self::add_optional(count, names, around, into)?;
                Ok(())
            }
            Stmt::Fork(_, parts, part, rank, _) => {
                Self::add_parts(parts, part, rank, names, around, into)
            }
            Stmt::Break(spot) => into.add_bare(around, *spot, Word::Break),
            Stmt::Continue(spot) => into.add_bare(around, *spot, Word::Continue),
            Stmt::Return(spot, value) => {
                let _shared = Self::add_optional(value, names, around, into)?;
                into.add_bare(around, *spot, Word::Return)
            }
            Stmt::Empty
            | Stmt::Barrier(_)
            | Stmt::Block(_)
            | Stmt::If(_, _, _, _)
            | Stmt::While(_, _, _)
            | Stmt::DoWhile(_, _, _)
            | Stmt::For(_, _, _, _, _)
            | Stmt::Farm(_, _)
            | Stmt::Seq(_, _) => Ok(()),
        }
    }

    #[cycle(statement)]
    fn add_statement(
        statement: &Stmt,
        names: &Names,
        around: Around,
        into: &mut Self,
    ) -> Result<(), AllocError>
        ensures { OnOk result (seen_in into.new ≡ seen_in into.old
            ++ statement_tokens (thing_in names.now) within around (statement_of statement.now)) }
    {
        match statement {
            Stmt::Block(statements) => Self::add_statements(statements, names, around, into),
            Stmt::If(_, _, then, otherwise) => {
                let shared = Self::add_decision(statement, names, around, into)?;
                let inside = around.within(Holder::Branch(shared));
                Self::add_statement(then, names, inside, into)?;
                match otherwise {
                    Some(otherwise) => Self::add_statement(otherwise, names, inside, into),
                    None => Ok(()),
                }
            }
            Stmt::While(_, _, body) | Stmt::DoWhile(_, body, _) | Stmt::For(_, _, _, _, body) => {
                let shared = Self::add_decision(statement, names, around, into)?;
                Self::add_statement(body, names, around.within(Holder::Loop(shared)), into)
            }
            Stmt::Start(_, _, body) | Stmt::Fork(_, _, _, _, body) => {
                Self::add_own(statement, names, around, into)?;
                Self::add_statement(body, names, around.within(SYNCHRONOUS), into)
            }
            Stmt::Farm(_, body) | Stmt::Seq(_, body) => {
                Self::add_statement(body, names, around.within(ASYNCHRONOUS), into)
            }
            Stmt::Empty
            | Stmt::Expression(_)
            | Stmt::Declare(_)
            | Stmt::Barrier(_)
            | Stmt::Break(_)
            | Stmt::Continue(_)
            | Stmt::Return(_, _) => Self::add_own(statement, names, around, into),
        }
    }

    #[cycle(statement)]
    fn add_statements(
        statements: &[Stmt],
        names: &Names,
        around: Around,
        into: &mut Self,
    ) -> Result<(), AllocError>
        ensures { OnOk result (seen_in into.new ≡ seen_in into.old
            ++ statements_tokens (thing_in names.now) within around
            (statements_of (map statement_of statements.now))) }
    {
        for statement in statements {
            Self::add_statement(statement, names, around, into)?;
        }
        Ok(())
    }

    fn add_parameters(
        parameters: &[Declared],
        around: Around,
        mode: Mode,
        into: &mut Self,
    ) -> Result<(), AllocError>
        ensures { OnOk result (seen_in into.new ≡ seen_in into.old
            ++ parameters_tokens around mode (map declared_of parameters.now)) }
    {
        for parameter in parameters {
            let word = Word::Parameter(parameter.shared, mode);
            into.add_bare(around, spot_of(&parameter.name), word)?;
        }
        Ok(())
    }

    fn add_function(function: &Function, names: &Names, into: &mut Self) -> Result<(), AllocError>
        ensures { OnOk result (seen_in into.new ≡ seen_in into.old
            ++ function_tokens (thing_in names.now) within outside (function_of function.now)) }
    {
        let outside = Around::outside();
        Self::add_parameters(&function.params, outside, function.mode, into)?;
        match &function.body {
            Some(body) => {
                let inside = outside.within(Holder::Body(region_of(function.mode)));
                Self::add_statements(body, names, inside, into)
            }
            None => Ok(()),
        }
    }

    fn add_item(item: &Item, names: &Names, into: &mut Self) -> Result<(), AllocError>
        ensures { OnOk result (seen_in into.new ≡ seen_in into.old
            ++ item_tokens (thing_in names.now) within outside (item_of item.now)) }
    {
        match item {
            Item::Struct(_, _) => Ok(()),
            Item::Variables(variables) => Self::add_variables(
                variables,
                names,
                Around::outside(),
                into,
            ),
            Item::Function(function) => Self::add_function(function, names, into),
        }
    }

    fn add_items(items: &[Item], names: &Names, into: &mut Self) -> Result<(), AllocError>
        ensures { OnOk result (seen_in into.new ≡ seen_in into.old
            ++ items_tokens (thing_in names.now) within outside (map item_of items.now)) }
    {
        for item in items {
            Self::add_item(item, names, into)?;
        }
        Ok(())
    }
}

// The token of a name and its place.
fn spot_of(name: &Name) -> Spot
    ensures { result ≡ spot_of (named name.now) }
{
    Spot {
        at: name.at,
        place: name.place,
    }
}
