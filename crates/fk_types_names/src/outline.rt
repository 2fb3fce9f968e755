//! The scopes and names of a program, in the order in which they are read.

ghost use Rattle.std.specs.Prelude.{◌≡◌, ◌∷◌, ◌++◌, [], map, IfOk, OnOk};
ghost use Rattle.std.specs.Option.{option_map};
ghost use Rattle.fk_syntax.specs.Tree.{links_of, trees_of, suffixes_of};
ghost use Rattle.fk_syntax.specs.View.{tree_of, link_of, suffix_of, named};
ghost use Rattle.fk_syntax.specs.Program.{statements_of};
ghost use Rattle.fk_syntax.specs.ProgramView.{declared_of, statement_of, function_of, item_of};
ghost use Rattle.fk_syntax.specs.ProgramView.{program_of};
ghost use Rattle.fk_types_names.specs.Outline as o;
ghost use Rattle.fk_types_names.specs.Outline.{tree_marks, links_marks, trees_marks};
ghost use Rattle.fk_types_names.specs.Outline.{suffixes_marks, optional_marks, variable_marks};
ghost use Rattle.fk_types_names.specs.Outline.{variables_marks, body_marks, scope, statement_marks};
ghost use Rattle.fk_types_names.specs.Outline.{statements_marks, function_marks, item_marks};
ghost use Rattle.fk_types_names.specs.Outline.{items_marks, name_of};
ghost use Rattle.fk_types_names.specs.View.{mark_of, declaration_of};
ghost use Rattle.fk_types_names.specs.OutlineView.{marks_in};
ghost use Rattle.fk_types_names.specs.Visible.{is_opening, is_closing};
ghost use Rattle.fk_types_names.specs.Filling.{is_header};

use fk_syntax::{Declared, Expr, Function, Item, Link, Name, Stmt, Suffix};
use std::alloc::{AllocError, Global};

/// A declaration other than that of a struct or a member.
#[derive(Clone, Copy)]
pub enum Declaration<'p, 'a> {
    /// A variable or a parameter.
    Variable(&'p Declared<'a>),
    /// A header of a function, with its body if it has one.
    Function(&'p Function<'a>),
}

impl<'a> Declaration<'_, 'a> {
    /// The bytes of its name.
    pub fn name(&self) -> &'a [u8]
        ensures { result.now ≡ (name_of (declaration_of self.now)).bytes }
    {
        match self {
            Declaration::Variable(variable) => variable.name.bytes,
            Declaration::Function(function) => function.name.bytes,
        }
    }
}

/// A point of a text that matters for names.
#[derive(Clone, Copy)]
pub enum Mark<'p, 'a> {
    /// A scope begins.
    Opens,
    /// The innermost open scope ends.
    Closes,
    /// The name of a declaration.
    Declares(Declaration<'p, 'a>),
    /// A name in an expression.
    Uses(Name<'a>),
}

impl Mark<'_, '_> {
    /// Whether the mark opens a scope.
    pub fn is_opening(&self) -> bool
        ensures { result ≡ is_opening (mark_of self.now) }
    {
        match self {
            Mark::Opens => true,
            Mark::Closes | Mark::Declares(_) | Mark::Uses(_) => false,
        }
    }

    /// Whether the mark declares a header of a function.
    pub fn is_header(&self) -> bool
        ensures { result ≡ is_header (mark_of self.now) }
    {
        matches!(self, Mark::Declares(Declaration::Function(_)))
    }

    /// Whether the mark closes a scope.
    pub fn is_closing(&self) -> bool
        ensures { result ≡ is_closing (mark_of self.now) }
    {
        match self {
            Mark::Closes => true,
            Mark::Opens | Mark::Declares(_) | Mark::Uses(_) => false,
        }
    }
}

/// The marks of a text, in the order in which they are read.
#[derive(Drop)]
pub(crate) struct Outline<'p, 'a> {
    marks: Vec<Mark<'p, 'a>>,
}

impl<'p, 'a> Outline<'p, 'a> {
    /// The marks of a program. It fails only if there isn't enough memory.
    pub(crate) fn of(alloc: Global, items: &'p [Item<'a>]) -> Result<Self, AllocError>
        ensures { IfOk result (λ outline. marks_in outline ≡ items_marks (map item_of items.now)) }
    {
        // Most items declare one name.
        let mut outline = Outline {
            marks: Vec::with_capacity(alloc, items.len())?,
        };
        Self::add_items(items, &mut outline)?;
        Ok(outline)
    }

    /// The marks, in order.
    pub(crate) fn marks(&self) -> &[Mark<'p, 'a>]
        ensures { map mark_of result.now ≡ marks_in self.now }
    {
        &self.marks
    }

    // The inputs come before the list that grows, because such calls have shorter proofs than
    // methods.
    fn add(mark: Mark<'p, 'a>, into: &mut Self) -> Result<(), AllocError>
        ensures { OnOk result (marks_in into.new ≡ marks_in into.old ++ mark_of mark.entry ∷ []) }
    {
        into.marks.push(mark)?;
        Ok(())
    }

    #[cycle(expression)]
    fn add_expression(expression: &'p Expr<'a>, into: &mut Self) -> Result<(), AllocError>
        ensures { OnOk result
            (marks_in into.new ≡ marks_in into.old ++ tree_marks (tree_of expression.now)) }
    {
        match expression {
            Expr::Number(_, _, _)
            | Expr::Puts(_, _)
            | Expr::Sizeof(_, _)
            | Expr::GroupNumber(_)
            | Expr::GroupRank(_) => Ok(()),
            Expr::Named(name) => Self::add(Mark::Uses(*name), into),
            Expr::Prefix(_, _, operand) | Expr::Cast(_, _, operand) => {
                Self::add_expression(operand, into)
            }
            Expr::Chain(first, links) => {
                Self::add_expression(first, into)?;
                Self::add_links(links, into)
            }
            Expr::Postfix(whole, suffixes) => {
                Self::add_expression(whole, into)?;
                Self::add_suffixes(suffixes, into)
            }
            Expr::Assign(_, _, target, value) => {
                Self::add_expression(target, into)?;
                Self::add_expression(value, into)
            }
            Expr::Choose(_, condition, first, second) => {
                Self::add_expression(condition, into)?;
                Self::add_expression(first, into)?;
                Self::add_expression(second, into)
            }
        }
    }

    #[cycle(expression)]
    fn add_links(links: &'p [Link<'a>], into: &mut Self) -> Result<(), AllocError>
        ensures { OnOk result (marks_in into.new
            ≡ marks_in into.old ++ links_marks (links_of (map link_of links.now))) }
    {
        for link in links {
            Self::add_expression(&link.right, into)?;
        }
        Ok(())
    }

    #[cycle(expression)]
    fn add_suffixes(suffixes: &'p [Suffix<'a>], into: &mut Self) -> Result<(), AllocError>
        ensures { OnOk result (marks_in into.new
            ≡ marks_in into.old ++ suffixes_marks (suffixes_of (map suffix_of suffixes.now))) }
    {
        for suffix in suffixes {
            match suffix {
                Suffix::Index(_, by) => Self::add_expression(by, into)?,
                Suffix::Call(_, arguments) => Self::add_expressions(arguments, into)?,
                Suffix::Dot(_, _) | Suffix::Arrow(_, _) | Suffix::Up(_) | Suffix::Down(_) => {}
            }
        }
        Ok(())
    }

    #[cycle(expression)]
    fn add_expressions(expressions: &'p [Expr<'a>], into: &mut Self) -> Result<(), AllocError>
        ensures { OnOk result (marks_in into.new
            ≡ marks_in into.old ++ trees_marks (trees_of (map tree_of expressions.now))) }
    {
        for expression in expressions {
            Self::add_expression(expression, into)?;
        }
        Ok(())
    }

    fn add_optional(expression: &'p Option<Expr<'a>>, into: &mut Self) -> Result<(), AllocError>
        ensures { OnOk result (marks_in into.new
            ≡ marks_in into.old ++ optional_marks (option_map tree_of expression.now)) }
    {
        match expression {
            Some(expression) => Self::add_expression(expression, into),
            None => Ok(()),
        }
    }

    fn add_variable(variable: &'p Declared<'a>, into: &mut Self) -> Result<(), AllocError>
        ensures { OnOk result (marks_in into.new
            ≡ marks_in into.old ++ variable_marks (declared_of variable.now)) }
    {
        Self::add(Mark::Declares(Declaration::Variable(variable)), into)?;
        Self::add_optional(&variable.first, into)
    }

    fn add_variables(variables: &'p [Declared<'a>], into: &mut Self) -> Result<(), AllocError>
        ensures { OnOk result (marks_in into.new
            ≡ marks_in into.old ++ variables_marks (map declared_of variables.now)) }
    {
        for variable in variables {
            Self::add_variable(variable, into)?;
        }
        Ok(())
    }

    // Adds the three expressions of a `for`.
    fn add_head(
        before: &'p Option<Expr<'a>>,
        condition: &'p Option<Expr<'a>>,
        after: &'p Option<Expr<'a>>,
        into: &mut Self,
    ) -> Result<(), AllocError>
        ensures { OnOk result (marks_in into.new ≡ marks_in into.old
            ++ (optional_marks (option_map tree_of before.now)
            ++ optional_marks (option_map tree_of condition.now)
            ++ optional_marks (option_map tree_of after.now))) }
    {
        Self::add_optional(before, into)?;
        Self::add_optional(condition, into)?;
        Self::add_optional(after, into)
    }

    // Adds the three expressions of a `fork`.
    fn add_parts(
        parts: &'p Expr<'a>,
        part: &'p Expr<'a>,
        rank: &'p Option<Expr<'a>>,
        into: &mut Self,
    ) -> Result<(), AllocError>
        ensures { OnOk result (marks_in into.new ≡ marks_in into.old
            ++ (tree_marks (tree_of parts.now)
            ++ tree_marks (tree_of part.now)
            ++ optional_marks (option_map tree_of rank.now))) }
    {
        Self::add_expression(parts, into)?;
        Self::add_expression(part, into)?;
        Self::add_optional(rank, into)
    }

    #[cycle(statement)]
    fn add_statement(statement: &'p Stmt<'a>, into: &mut Self) -> Result<(), AllocError>
        ensures { OnOk result (marks_in into.new
            ≡ marks_in into.old ++ statement_marks (statement_of statement.now)) }
    {
        match statement {
            Stmt::Empty | Stmt::Barrier(_) | Stmt::Break(_) | Stmt::Continue(_) => Ok(()),
            Stmt::Expression(value) => Self::add_expression(value, into),
            Stmt::Block(statements) => Self::add_block(statements, into),
            Stmt::Declare(variables) => Self::add_variables(variables, into),
            Stmt::If(_, condition, then, otherwise) => {
                Self::add_expression(condition, into)?;
                Self::add_body(then, into)?;
                match otherwise {
                    Some(otherwise) => Self::add_body(otherwise, into),
                    None => Ok(()),
                }
            }
            Stmt::While(_, condition, body) => Self::add_while(body, condition, into),
            Stmt::DoWhile(_, body, condition) => Self::add_do_while(body, condition, into),
            Stmt::For(_, before, condition, after, body) => {
                Self::add_for(body, before, condition, after, into)
            }
            Stmt::Start(_, count, body) => Self::add_start(body, count, into),
            Stmt::Farm(_, body) | Stmt::Seq(_, body) => Self::add_body(body, into),
            Stmt::Fork(_, parts, part, rank, body) => Self::add_fork(body, parts, part, rank, into),
            Stmt::Return(_, value) => Self::add_optional(value, into),
        }
    }

    // Adds a condition and the body after it.
    #[cycle(statement)]
    fn add_while(
        body: &'p Stmt<'a>,
        condition: &'p Expr<'a>,
        into: &mut Self,
    ) -> Result<(), AllocError>
        ensures { OnOk result (marks_in into.new ≡ marks_in into.old
            ++ (tree_marks (tree_of condition.now)
            ++ scope (statement_marks (statement_of body.now)))) }
    {
        Self::add_expression(condition, into)?;
        Self::add_body(body, into)
    }

    // Adds a body and the condition after it.
    #[cycle(statement)]
    fn add_do_while(
        body: &'p Stmt<'a>,
        condition: &'p Expr<'a>,
        into: &mut Self,
    ) -> Result<(), AllocError>
        ensures { OnOk result (marks_in into.new ≡ marks_in into.old
            ++ (scope (statement_marks (statement_of body.now))
            ++ tree_marks (tree_of condition.now))) }
    {
        Self::add_body(body, into)?;
        Self::add_expression(condition, into)
    }

    // Adds the three expressions of a `for` and the body after them.
    #[cycle(statement)]
    fn add_for(
        body: &'p Stmt<'a>,
        before: &'p Option<Expr<'a>>,
        condition: &'p Option<Expr<'a>>,
        after: &'p Option<Expr<'a>>,
        into: &mut Self,
    ) -> Result<(), AllocError>
        ensures { OnOk result (marks_in into.new ≡ marks_in into.old
            ++ (optional_marks (option_map tree_of before.now)
            ++ optional_marks (option_map tree_of condition.now)
            ++ optional_marks (option_map tree_of after.now)
            ++ scope (statement_marks (statement_of body.now)))) }
    {
        Self::add_head(before, condition, after, into)?;
        Self::add_body(body, into)
    }

    // Adds the count of a `start` and the body after it.
    #[cycle(statement)]
    fn add_start(
        body: &'p Stmt<'a>,
        count: &'p Option<Expr<'a>>,
        into: &mut Self,
    ) -> Result<(), AllocError>
        ensures { OnOk result (marks_in into.new ≡ marks_in into.old
            ++ (optional_marks (option_map tree_of count.now)
            ++ scope (statement_marks (statement_of body.now)))) }
    {
        Self::add_optional(count, into)?;
        Self::add_body(body, into)
    }

    // Adds the three expressions of a `fork` and the body after them.
    #[cycle(statement)]
    fn add_fork(
        body: &'p Stmt<'a>,
        parts: &'p Expr<'a>,
        part: &'p Expr<'a>,
        rank: &'p Option<Expr<'a>>,
        into: &mut Self,
    ) -> Result<(), AllocError>
        ensures { OnOk result (marks_in into.new ≡ marks_in into.old
            ++ (tree_marks (tree_of parts.now)
            ++ tree_marks (tree_of part.now)
            ++ optional_marks (option_map tree_of rank.now)
            ++ scope (statement_marks (statement_of body.now)))) }
    {
        Self::add_parts(parts, part, rank, into)?;
        Self::add_body(body, into)
    }

    // Adds a statement that is the body of another one.
    #[cycle(statement)]
    fn add_body(body: &'p Stmt<'a>, into: &mut Self) -> Result<(), AllocError>
        ensures { OnOk result (marks_in into.new
            ≡ marks_in into.old ++ scope (statement_marks (statement_of body.now))) }
    {
        Self::add(Mark::Opens, into)?;
        Self::add_statement(body, into)?;
        Self::add(Mark::Closes, into)
    }

    #[cycle(statement)]
    fn add_block(statements: &'p [Stmt<'a>], into: &mut Self) -> Result<(), AllocError>
        ensures { OnOk result (marks_in into.new ≡ marks_in into.old
            ++ scope (statements_marks (statements_of (map statement_of statements.now)))) }
    {
        Self::add(Mark::Opens, into)?;
        Self::add_statements(statements, into)?;
        Self::add(Mark::Closes, into)
    }

    #[cycle(statement)]
    fn add_statements(statements: &'p [Stmt<'a>], into: &mut Self) -> Result<(), AllocError>
        ensures { OnOk result (marks_in into.new ≡ marks_in into.old
            ++ statements_marks (statements_of (map statement_of statements.now))) }
    {
        for statement in statements {
            Self::add_statement(statement, into)?;
        }
        Ok(())
    }

    fn add_function(function: &'p Function<'a>, into: &mut Self) -> Result<(), AllocError>
        ensures { OnOk result (marks_in into.new
            ≡ marks_in into.old ++ function_marks (function_of function.now)) }
    {
        Self::add(Mark::Declares(Declaration::Function(function)), into)?;
        Self::add_scope(function, into)
    }

    // Adds the scope of a function.
    fn add_scope(function: &'p Function<'a>, into: &mut Self) -> Result<(), AllocError>
        ensures { OnOk result (marks_in into.new ≡ marks_in into.old
            ++ scope (variables_marks (function_of function.now).parameters
            ++ body_marks (function_of function.now).body)) }
    {
        Self::add(Mark::Opens, into)?;
        Self::add_inside(function, into)?;
        Self::add(Mark::Closes, into)
    }

    // Adds the parameters of a function, and its body if it has one.
    fn add_inside(function: &'p Function<'a>, into: &mut Self) -> Result<(), AllocError>
        ensures { OnOk result (marks_in into.new ≡ marks_in into.old
            ++ (variables_marks (function_of function.now).parameters
            ++ body_marks (function_of function.now).body)) }
    {
        Self::add_variables(&function.params, into)?;
        match &function.body {
            Some(body) => Self::add_statements(body, into),
            None => Ok(()),
        }
    }

    fn add_item(item: &'p Item<'a>, into: &mut Self) -> Result<(), AllocError>
        ensures { OnOk result
            (marks_in into.new ≡ marks_in into.old ++ item_marks (item_of item.now)) }
    {
        match item {
            Item::Struct(_, _) => Ok(()),
            Item::Variables(variables) => Self::add_variables(variables, into),
            Item::Function(function) => Self::add_function(function, into),
        }
    }

    fn add_items(items: &'p [Item<'a>], into: &mut Self) -> Result<(), AllocError>
        ensures { OnOk result
            (marks_in into.new ≡ marks_in into.old ++ items_marks (map item_of items.now)) }
    {
        for item in items {
            Self::add_item(item, into)?;
        }
        Ok(())
    }
}
