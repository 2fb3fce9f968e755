//! The number of words of a group frame.

ghost use Rattle.std.specs.Prelude.{◌≡◌, map};
ghost use Rattle.fk_syntax.specs.Program.{statements_of};
ghost use Rattle.fk_syntax.specs.ProgramView.{declared_of, statement_of};
ghost use Rattle.fk_layout_slots.specs.KnownView.{told_by};
ghost use Rattle.fk_layout_slots.specs.Words as w;

use crate::known::TypeNotes;
use fk_syntax::{Declared, Stmt};

// The words that are taken after a variable or parameter.
fn declared_words(variable: &Declared, known: &TypeNotes, taken: u32) -> u32
    ensures { result ≡ w.declared_words (told_by known.now) taken (declared_of variable.now) }
{
    if variable.shared {
        taken.saturating_add(known.words(variable.name.at))
    } else {
        taken
    }
}

// The words that are taken after variables or parameters.
fn variables_words(variables: &[Declared], known: &TypeNotes, taken: u32) -> u32
    ensures { result
        ≡ w.variables_words (told_by known.now) taken (map declared_of variables.now) }
{
    let mut behind = taken;
    for variable in variables {
        behind = declared_words(variable, known, behind);
    }
    behind
}

/// The words of the frame around a statement that are taken after it, where `taken` words are taken
/// before it.
#[cycle(statement)]
pub(crate) fn statement_words(statement: &Stmt, known: &TypeNotes, taken: u32) -> u32
    ensures { result
        ≡ w.statement_words (told_by known.now) taken (statement_of statement.now) }
{
    match statement {
        Stmt::Block(list) => statements_words(list, known, taken),
        Stmt::Declare(variables) => variables_words(variables, known, taken),
        Stmt::If(spot, _, first, otherwise) => {
            if known.splits(spot.at) {
                return taken;
            }
            let behind = statement_words(first, known, taken);
            match otherwise {
                Some(second) => statement_words(second, known, behind),
                None => behind,
            }
        }
        Stmt::While(spot, _, body)
        | Stmt::DoWhile(spot, body, _)
        | Stmt::For(spot, _, _, _, body) => {
            if known.splits(spot.at) {
                taken
            } else {
                statement_words(body, known, taken)
            }
        }
        Stmt::Farm(_, body) | Stmt::Seq(_, body) => statement_words(body, known, taken),
        Stmt::Empty
        | Stmt::Expression(_)
        | Stmt::Start(_, _, _)
        | Stmt::Fork(_, _, _, _, _)
        | Stmt::Barrier(_)
        | Stmt::Break(_)
        | Stmt::Continue(_)
        | Stmt::Return(_, _) => taken,
    }
}

#[cycle(statement)]
fn statements_words(statements: &[Stmt], known: &TypeNotes, taken: u32) -> u32
    ensures { result ≡ w.statements_words (told_by known.now) taken
        (statements_of (map statement_of statements.now)) }
{
    let mut behind = taken;
    for statement in statements {
        behind = statement_words(statement, known, behind);
    }
    behind
}

/// The number of words of a function's own frame.
pub(crate) fn own_words<'t, 'a>(
    parameters: &'t [Declared<'a>],
    body: &'t [Stmt<'a>],
    known: &TypeNotes,
) -> u32
    ensures { result ≡ w.own_words (told_by known.now) (map declared_of parameters.now)
        (statements_of (map statement_of body.now)) }
{
    statements_words(body, known, variables_words(parameters, known, 0))
}
