//! A walk over the token indices in a tree, in the order of the tokens in the text.
//!
//! Each function takes the part of the tree as its first reference. Its lifetimes thus have the
//! same numbers as in `Vec` and in its callees, and no proof compares its type with itself.

ghost use Rattle.std.specs.Prelude.{◌≡◌, ◌∷◌, ◌++◌, fold, map};
ghost use Rattle.std.specs.Option.{option_map};
ghost use Rattle.fk_syntax.specs.declared.nodes.Index.{Index};
ghost use Rattle.fk_syntax.specs.declared.nodes.Index.TheVariants.{Node};
ghost use Rattle.fk_syntax.specs.Tree.{links_of, trees_of, suffixes_of};
ghost use Rattle.fk_syntax.specs.View.{tree_of, link_of, suffix_of, type_of};
ghost use Rattle.fk_syntax.specs.Program.{statements_of};
ghost use Rattle.fk_syntax.specs.ProgramView.{declared_of, statement_of, function_of, item_of};
ghost use Rattle.fk_syntax.specs.ProgramView.{program_of};
ghost use Rattle.fk_syntax.specs.Nodes.{type_indices, tree_indices, links_indices, trees_indices};
ghost use Rattle.fk_syntax.specs.Nodes.{suffixes_indices, optional_indices, declared_indices};
ghost use Rattle.fk_syntax.specs.Nodes.{declarations_indices, statement_indices};
ghost use Rattle.fk_syntax.specs.Nodes.{statements_indices, function_indices, item_indices};
ghost use Rattle.fk_syntax.specs.Nodes.{items_indices};

use fk_syntax::{
    Base, Declared, Expr, Function, Index, Item, Link, Program, Spot, Stmt, Suffix, TypeName,
};

/// What a walk shows each index to.
pub trait Visitor {
    /// The state of the visitor after it was shown an index.
    ghost after: { Self → Index → Self };

    /// Takes note of an index.
    fn visit(&mut self, index: Index)
        ensures { self.new ≡ after self.old index };
}

fn visit_spot<V: Visitor>(spot: Spot, visitor: &mut V)
    ensures { visitor.new ≡ V.after visitor.old (Node spot.at) }
{
    visitor.visit(Index::Node(spot.at));
}

fn visit_type<V: Visitor>(kind: &TypeName, visitor: &mut V)
    ensures { visitor.new ≡ fold V.after visitor.old (type_indices (type_of kind.now)) }
{
    if let Base::Struct(name) = kind.base {
        visitor.visit(Index::StructName(name.at));
    }
}

#[cycle(expression)]
fn visit_expression<V: Visitor>(expression: &Expr, visitor: &mut V)
    ensures { visitor.new ≡ fold V.after visitor.old (tree_indices (tree_of expression.now)) }
{
    match expression {
        Expr::Number(spot, _, _)
        | Expr::Puts(spot, _)
        | Expr::GroupNumber(spot)
        | Expr::GroupRank(spot) => visitor.visit(Index::Node(spot.at)),
        Expr::Sizeof(spot, kind) => {
            visitor.visit(Index::Node(spot.at));
            visit_type(kind, visitor);
        }
        Expr::Named(name) => visitor.visit(Index::Node(name.at)),
        Expr::Prefix(spot, _, operand) => {
            visitor.visit(Index::Node(spot.at));
            visit_expression(operand, visitor);
        }
        Expr::Cast(spot, kind, operand) => {
            visitor.visit(Index::Node(spot.at));
            visit_type(kind, visitor);
            visit_expression(operand, visitor);
        }
        Expr::Chain(first, links) => {
            visit_expression(first, visitor);
            visit_links(links, visitor);
        }
        Expr::Postfix(whole, suffixes) => {
            visit_expression(whole, visitor);
            visit_suffixes(suffixes, visitor);
        }
        Expr::Assign(spot, _, target, value) => {
            visit_expression(target, visitor);
            visitor.visit(Index::Node(spot.at));
            visit_expression(value, visitor);
        }
        Expr::Choose(spot, condition, first, second) => {
            visit_expression(condition, visitor);
            visitor.visit(Index::Node(spot.at));
            visit_expression(first, visitor);
            visit_expression(second, visitor);
        }
    }
}

#[cycle(expression)]
fn visit_links<V: Visitor>(links: &[Link], visitor: &mut V)
    ensures { visitor.new
        ≡ fold V.after visitor.old (links_indices (links_of (map link_of links.now))) }
{
    for link in links {
        visitor.visit(Index::Node(link.spot.at));
        visit_expression(&link.right, visitor);
    }
}

#[cycle(expression)]
fn visit_suffixes<V: Visitor>(suffixes: &[Suffix], visitor: &mut V)
    ensures { visitor.new
        ≡ fold V.after visitor.old (suffixes_indices (suffixes_of (map suffix_of suffixes.now))) }
{
    for suffix in suffixes {
        match suffix {
            Suffix::Index(spot, by) => {
                visitor.visit(Index::Node(spot.at));
                visit_expression(by, visitor);
            }
            Suffix::Call(spot, arguments) => {
                visitor.visit(Index::Node(spot.at));
                visit_expressions(arguments, visitor);
            }
            Suffix::Dot(spot, member) | Suffix::Arrow(spot, member) => {
                visitor.visit(Index::Node(spot.at));
                visitor.visit(Index::Node(member.at));
            }
            Suffix::Up(spot) | Suffix::Down(spot) => visitor.visit(Index::Node(spot.at)),
        }
    }
}

#[cycle(expression)]
fn visit_expressions<V: Visitor>(expressions: &[Expr], visitor: &mut V)
    ensures { visitor.new
        ≡ fold V.after visitor.old (trees_indices (trees_of (map tree_of expressions.now))) }
{
    for expression in expressions {
        visit_expression(expression, visitor);
    }
}

fn visit_optional<V: Visitor>(expression: &Option<Expr>, visitor: &mut V)
    ensures { visitor.new
        ≡ fold V.after visitor.old (optional_indices (option_map tree_of expression.now)) }
{
    if let Some(expression) = expression {
        visit_expression(expression, visitor);
    }
}

// Visits a keyword, and the value after it if there is one, as for a `return`.
fn visit_value<V: Visitor>(spot: Spot, value: &Option<Expr>, visitor: &mut V)
    ensures { visitor.new ≡ fold V.after visitor.old
        (Node spot.at ∷ optional_indices (option_map tree_of value.now)) }
{
    visitor.visit(Index::Node(spot.at));
    visit_optional(value, visitor);
}

// Visits a keyword and a condition, as for a `while`.
fn visit_condition<V: Visitor>(spot: Spot, condition: &Expr, visitor: &mut V)
    ensures { visitor.new ≡ fold V.after visitor.old
        (Node spot.at ∷ tree_indices (tree_of condition.now)) }
{
    visitor.visit(Index::Node(spot.at));
    visit_expression(condition, visitor);
}

// Visits the head of a `for`.
fn visit_for<'e, 'a, V: Visitor>(
    spot: Spot,
    before: &'e Option<Expr<'a>>,
    condition: &'e Option<Expr<'a>>,
    after: &'e Option<Expr<'a>>,
    visitor: &mut V,
)
    ensures { visitor.new ≡ fold V.after visitor.old (Node spot.at
        ∷ optional_indices (option_map tree_of before.now)
        ++ optional_indices (option_map tree_of condition.now)
        ++ optional_indices (option_map tree_of after.now)) }
{
    visitor.visit(Index::Node(spot.at));
    visit_optional(before, visitor);
    visit_optional(condition, visitor);
    visit_optional(after, visitor);
}

// Visits the head of a `fork`.
fn visit_fork<'e, 'a, V: Visitor>(
    spot: Spot,
    parts: &'e Expr<'a>,
    part: &'e Expr<'a>,
    rank: &'e Option<Expr<'a>>,
    visitor: &mut V,
)
    ensures { visitor.new ≡ fold V.after visitor.old (Node spot.at
        ∷ tree_indices (tree_of parts.now)
        ++ tree_indices (tree_of part.now)
        ++ optional_indices (option_map tree_of rank.now)) }
{
    visitor.visit(Index::Node(spot.at));
    visit_expression(parts, visitor);
    visit_expression(part, visitor);
    visit_optional(rank, visitor);
}

fn visit_declared<V: Visitor>(declared: &Declared, visitor: &mut V)
    ensures { visitor.new
        ≡ fold V.after visitor.old (declared_indices (declared_of declared.now)) }
{
    visit_type(&declared.kind, visitor);
    visitor.visit(Index::Node(declared.name.at));
    visit_optional(&declared.first, visitor);
}

fn visit_declarations<V: Visitor>(declarations: &[Declared], visitor: &mut V)
    ensures { visitor.new
        ≡ fold V.after visitor.old (declarations_indices (map declared_of declarations.now)) }
{
    for declared in declarations {
        visit_declared(declared, visitor);
    }
}

#[cycle(statement)]
fn visit_statement<V: Visitor>(statement: &Stmt, visitor: &mut V)
    ensures { visitor.new
        ≡ fold V.after visitor.old (statement_indices (statement_of statement.now)) }
{
    match statement {
        Stmt::Empty => {}
        Stmt::Expression(value) => visit_expression(value, visitor),
        Stmt::Block(statements) => visit_statements(statements, visitor),
        Stmt::Declare(variables) => visit_declarations(variables, visitor),
        Stmt::If(spot, condition, then, otherwise) => {
            visit_condition(*spot, condition, visitor);
            visit_statement(then, visitor);
            if let Some(otherwise) = otherwise {
                visit_statement(otherwise, visitor);
            }
        }
        Stmt::While(spot, condition, body) => {
            visit_condition(*spot, condition, visitor);
            visit_statement(body, visitor);
        }
        Stmt::DoWhile(spot, body, condition) => {
            visitor.visit(Index::Node(spot.at));
            visit_statement(body, visitor);
            visit_expression(condition, visitor);
        }
        Stmt::For(spot, before, condition, after, body) => {
            visit_for(*spot, before, condition, after, visitor);
            visit_statement(body, visitor);
        }
        Stmt::Start(spot, count, body) => {
            visit_value(*spot, count, visitor);
            visit_statement(body, visitor);
        }
        Stmt::Farm(spot, body) | Stmt::Seq(spot, body) => {
            visitor.visit(Index::Node(spot.at));
            visit_statement(body, visitor);
        }
        Stmt::Fork(spot, parts, part, rank, body) => {
            visit_fork(*spot, parts, part, rank, visitor);
            visit_statement(body, visitor);
        }
        Stmt::Barrier(spot) | Stmt::Break(spot) | Stmt::Continue(spot) => visit_spot(
            *spot, visitor,
        ),
        Stmt::Return(spot, value) => visit_value(*spot, value, visitor),
    }
}

#[cycle(statement)]
fn visit_statements<V: Visitor>(statements: &[Stmt], visitor: &mut V)
    ensures { visitor.new ≡ fold V.after visitor.old
        (statements_indices (statements_of (map statement_of statements.now))) }
{
    for statement in statements {
        visit_statement(statement, visitor);
    }
}

fn visit_function<V: Visitor>(function: &Function, visitor: &mut V)
    ensures { visitor.new
        ≡ fold V.after visitor.old (function_indices (function_of function.now)) }
{
    visit_type(&function.result, visitor);
    visitor.visit(Index::Node(function.name.at));
    visit_declarations(&function.params, visitor);
    if let Some(body) = &function.body {
        visit_statements(body, visitor);
    }
}

fn visit_item<V: Visitor>(item: &Item, visitor: &mut V)
    ensures { visitor.new ≡ fold V.after visitor.old (item_indices (item_of item.now)) }
{
    match item {
        Item::Struct(name, members) => {
            visitor.visit(Index::Node(name.at));
            visit_declarations(members, visitor);
        }
        Item::Variables(variables) => visit_declarations(variables, visitor),
        Item::Function(function) => visit_function(function, visitor),
    }
}

/// Shows a visitor each index in a program.
pub fn visit_program<V: Visitor>(program: &Program, visitor: &mut V)
    ensures { visitor.new
        ≡ fold V.after visitor.old (items_indices (program_of program.now).items) }
{
    for item in &program.items {
        visit_item(item, visitor);
    }
}
