//! The facts of a program that keeps the rules about names and types.

ghost use Rattle.std.specs.Prelude.{◌≡◌, ◌^◌, ◌≤◌, length, IfOk};
ghost use Rattle.fk_syntax.specs.ProgramView.{program_of};
ghost use Rattle.fk_syntax.specs.WellFormed.{IsWellFormed};
ghost use Rattle.fk_types_structs.specs.Whole.{structs_in, IsSound};
ghost use Rattle.fk_types_names.specs.Names.{AreNames};
ghost use Rattle.fk_types_judgments.specs.Names.{Env};
ghost use Rattle.fk_types_obligations.specs.Pieces as p;
ghost use Rattle.fk_types_obligations.specs.PiecesView.{pieces_in};
ghost use Rattle.fk_types_rules.specs.Noted.{AreTypes};
ghost use Rattle.fk_types_rules.specs.Facts.{AreFactsIn};
ghost use Rattle.fk_types.specs.Notes.{note_of, notes_of};

use fk_syntax::{Facts, Note, Program};
use fk_types_bindings::bindings;
use fk_types_kinds::Kinds;
use fk_types_names::Names;
use fk_types_obligations::Pieces;
use fk_types_operators::ExpressionType;
use fk_types_structs::Structs;
use std::alloc::{AllocError, Global};

// The note of a token with this kind and binding. The facts of regions and sharing aren't known
// yet.
fn note_of(kind: u32, binding: u32) -> Note
    ensures { result ≡ note_of kind binding }
{
    Note {
        kind,
        binding,
        sync: false,
        shared: false,
        splits: false,
    }
}

// The notes of tokens.
fn notes(alloc: Global, kinds: &[u32], bindings: &[u32]) -> Result<Vec<Note>, AllocError>
    requires { length bindings.now ≡ length kinds.now }
    ensures { IfOk result (λ notes. notes.items ≡ notes_of kinds.now bindings.now) }
{
    let mut notes = Vec::with_capacity(alloc, kinds.len())?;
    for (at, kind) in kinds.iter().enumerate() {
        notes.push(note_of(*kind, bindings[at]))?;
    }
    Ok(notes)
}

/// The facts of a program, by its pieces and the types of its tokens.
pub(crate) fn facts<'k, 'p, 'a>(
    alloc: Global,
    program: &'p Program<'a>,
    structs: &'k Structs<'p, 'a>,
    names: &'k Names<'p, 'a>,
    pieces: &Pieces<'p, 'a>,
    types: &'k [Option<ExpressionType>],
) -> Result<Facts, AllocError>
    requires well_formed { IsWellFormed (program_of program.now) }
    requires sound { IsSound structs.now }
    requires names { AreNames (program_of program.now) names.now }
    requires pieces { pieces_in pieces.now ≡ p.pieces (program_of program.now) }
    requires tokens { length types.now ≡ (program_of program.now).tokens }
    requires small { length types.now ≤ 2 ^ 20 }
    ensures { IfOk result (λ facts. (env : Env) → env.structs ≡ structs_in structs.now
        → AreTypes env (program_of program.now) types.now
        → AreFactsIn env (program_of program.now) facts) }
{
    let kinds = Kinds::of(alloc, structs, types)?;
    let bindings = bindings(alloc, structs, names, pieces.list(), types)?;
    let notes = notes(alloc, &kinds.numbers, &bindings)?;
    Ok(Facts {
        notes,
        kinds: kinds.list,
    })
}
