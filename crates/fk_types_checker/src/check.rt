//! The rules that a program breaks, and the types of its tokens.

ghost use Rattle.std.specs.Prelude.{◌≡◌, fold, IfOk, OnOk, OnErr};
ghost use Rattle.fk_syntax.specs.ProgramView.{program_of};
ghost use Rattle.fk_check_rules.specs.Least.{IsLeast, either};
ghost use Rattle.fk_types_structs.specs.Whole.{structs_in, IsSound};
ghost use Rattle.fk_types_struct_rules.specs.Structs.{StructsBreak};
ghost use Rattle.fk_types_names.specs.Scoped.{AreScoped};
ghost use Rattle.fk_types_name_rules.specs.Broken.{NamesBreak};
ghost use Rattle.fk_types_forms.specs.Scope.{env_in};
ghost use Rattle.fk_types_expressions.specs.Read.{with_note};
ghost use Rattle.fk_types_obligations.specs.Pieces as p;
ghost use Rattle.fk_types_obligations.specs.PiecesView.{pieces_in};
ghost use Rattle.fk_types_rules.specs.Noted.{pieces_noted};
ghost use Rattle.fk_types_rules.specs.Broken.{Broken};

use crate::judge::pieces_fault;
use fk_check_rules::{Fault, first_of};
use fk_syntax::Program;
use fk_types_forms::Scope;
use fk_types_name_rules::name_fault;
use fk_types_names::ScopedMarks;
use fk_types_obligations::Pieces;
use fk_types_operators::ExpressionType;
use fk_types_struct_rules::structs_fault;
use fk_types_structs::Structs;
use std::alloc::{AllocError, Global};

// The first fault in a program's structs and names.
fn declared_fault(
    alloc: Global,
    program: &Program,
    scoped: &ScopedMarks,
    structs: &Structs,
) -> Result<Option<Fault>, AllocError>
    requires scoped { AreScoped (program_of program.now) scoped.now }
    requires sound { IsSound structs.now }
    ensures { IfOk result (IsLeast
        (either (StructsBreak (structs_in structs.now)) (NamesBreak (program_of program.now)))) }
{
    let held = structs_fault(alloc, structs)?;
    let named = name_fault(alloc, program, scoped)?;
    Ok(first_of(held, named))
}

/// The first rule about names and types that a program breaks, by its place and then by its number,
/// given its marks, its pieces and the scope of its names. The types of its tokens are noted in a
/// table: those of expressions at their signs, names and numbers, that of a variable or parameter
/// at its name, and that of the calls of a function at its name. It takes linear time.
///
/// # Errors
///
/// There isn't enough memory; then nothing is noted.
pub fn program_fault(
    alloc: Global,
    program: &Program,
    scoped: &ScopedMarks,
    pieces: &Pieces,
    scope: &Scope,
    types: &mut [Option<ExpressionType>],
) -> Result<Option<Fault>, AllocError>
    requires scoped { AreScoped (program_of program.now) scoped.now }
    requires pieces { pieces_in pieces.now ≡ p.pieces (program_of program.now) }
    requires sound { IsSound scope.now.structs.now }
    ensures least { IfOk result (IsLeast (Broken (env_in scope.now) (program_of program.now))) }
    ensures types { OnOk result (types.new ≡ fold with_note types.old
        (pieces_noted (env_in scope.now) (p.pieces (program_of program.now)))) }
    ensures unchanged { OnErr result (types.new ≡ types.old) }
{
    let declared = declared_fault(alloc, program, scoped, scope.structs)?;
    let fault = pieces_fault(scope, types, pieces.list());
    Ok(first_of(declared, fault))
}
