//! The operations of functions, and of a text.

ghost use Rattle.std.specs.Prelude.{◌≡◌, ◌∷◌, List, map, codes, is_some};
ghost use Rattle.fk_syntax.specs.View.{named};
ghost use Rattle.fk_syntax.specs.Program.{ItemTree, statements_of};
ghost use Rattle.fk_syntax.specs.ProgramView.{statement_of, function_of, item_of};
ghost use Rattle.fk_meaning_forms.specs.Tables.{frame_at};
ghost use Rattle.fk_meaning_forms.specs.Expressions.{is_name};
ghost use Rattle.fk_meaning_forms.specs.Statements as s;
ghost use Rattle.fk_meaning_forms.specs.Program as f;
ghost use Rattle.fk_layout_walk.specs.Known.{tables_of, functions_of, IsSound};
ghost use Rattle.fk_layout_walk.specs.Through.{through};
ghost use Rattle.fk_layout_walk_statements.specs.Inside.{inside_of};
ghost use Rattle.fk_layout_walk_statements.specs.Texts.{functions_in, code_in, through_all};

use crate::inside::Inside;
use crate::nested::statements;
use crate::simple::finish;
use fk_layout_walk::{ProgramTables, Visitor, is_nothing};
use fk_syntax::{Function, Item, Name, Stmt};

// The facts about a function that its statements need.
fn inside_function(known: &ProgramTables, name: Name) -> Inside
    requires { IsSound known.now }
    ensures main { result.main ≡ is_name (named name.entry) (codes "main") }
    ensures framed { result.framed
        ≡ is_some (frame_at (tables_of known.now) (named name.entry).at 0) }
{
    Inside {
        main: name.bytes == b"main".as_slice(),
        framed: known.is_framed(name.at, false),
    }
}

// The statements of a function, and its end.
fn body<V: Visitor>(
    known: &ProgramTables,
    visitor: &mut V,
    list: &[Stmt],
    inside: Inside,
    void: bool,
)
    requires { IsSound known.now }
    ensures { visitor.new ≡ through V.after V.counts (functions_of known.now) visitor.old
        (s.body_of (tables_of known.now) (functions_of known.now) (inside_of inside) void
        (statements_of (map statement_of list.now))) }
{
    if statements(known, visitor, inside, list).is_some() {
        finish(known, visitor, inside, void);
    }
}

/// Shows a visitor the operations of a function, with that of its end. A function without a body
/// has none.
pub fn function<V: Visitor>(known: &ProgramTables, visitor: &mut V, whole: &Function)
    requires { IsSound known.now }
    ensures { visitor.new ≡ through V.after V.counts (functions_of known.now) visitor.old
        (code_in known.now (function_of whole.now)) }
{
    if let Some(list) = &whole.body {
        let inside = inside_function(known, whole.name);
        body(known, visitor, list, inside, is_nothing(&whole.result));
    }
}

// Shows a visitor the operations of an item; only functions have any.
fn item<V: Visitor>(known: &ProgramTables, visitor: &mut V, whole: &Item)
    requires { IsSound known.now }
    ensures { (others : List ItemTree)
        → through_all V.after V.counts known.now visitor.old
        (f.functions_of (item_of whole.now ∷ others))
        ≡ through_all V.after V.counts known.now visitor.new (f.functions_of others) }
{
    match whole {
        Item::Function(whole) => function(known, visitor, whole),
        Item::Struct(_, _) | Item::Variables(_) => {}
    }
}

fn items<V: Visitor>(known: &ProgramTables, visitor: &mut V, list: &[Item])
    requires { IsSound known.now }
    ensures { visitor.new ≡ through_all V.after V.counts known.now visitor.old
        (f.functions_of (map item_of list.now)) }
{
    for one in list {
        item(known, visitor, one);
    }
}

/// Shows a visitor all operations of the text, function by function in its order.
pub fn text<V: Visitor>(known: &ProgramTables, visitor: &mut V)
    requires { IsSound known.now }
    ensures { visitor.new ≡ through_all V.after V.counts known.now visitor.old
        (functions_in known.now) }
{
    items(known, visitor, known.items);
}
