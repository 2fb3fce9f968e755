//! Rules 1 to 20 of a whole program, and its facts.

ghost use Rattle.std.specs.Prelude.{◌≡◌, ◌≢◌, ◌≤◌, ◌^◌, IfErr, IfOk, MatchResult};
ghost use Rattle.fk_syntax.specs.ProgramView.{program_of};
ghost use Rattle.fk_syntax.specs.WellFormed.{IsWellFormed};
ghost use Rattle.fk_types_structs.specs.Types.{structs_of};
ghost use Rattle.fk_types_structs.specs.Whole.{structs_in, IsSound};
ghost use Rattle.fk_types_names.specs.Names.{AreNames};
ghost use Rattle.fk_types_names.specs.Scoped.{AreScoped};
ghost use Rattle.fk_types_rules.specs.Broken.{IsRefusal};
ghost use Rattle.fk_types_rules.specs.Facts.{AreFacts};

use crate::facts::facts;
use fk_syntax::{CheckFault, Facts, Program};
use fk_types_checker::program_fault;
use fk_types_environment::Environment;
use fk_types_names::{Names, ScopedMarks};
use fk_types_obligations::Pieces;
use fk_types_structs::Structs;
use std::alloc::{AllocError, Global};

// The facts of a program, by its marks, structs and names, or the first rule that it breaks. A lack
// of memory is a result of its own.
fn checked<'c, 'p, 'a>(
    alloc: Global,
    program: &'p Program<'a>,
    scoped: &ScopedMarks<'p, 'a>,
    structs: &'c Structs<'p, 'a>,
    names: &'c Names<'p, 'a>,
) -> Result<Result<Facts, CheckFault>, AllocError>
    requires well_formed { IsWellFormed (program_of program.now) }
    requires small { program.now.tokens ≤ 2 ^ 20 }
    requires scoped { AreScoped (program_of program.now) scoped.now }
    requires sound { IsSound structs.now }
    requires structs { structs_in structs.now ≡ structs_of (program_of program.now).items }
    requires names { AreNames (program_of program.now) names.now }
    ensures answer { IfOk result (λ answer. MatchResult answer
        (λ facts. AreFacts (program_of program.now) facts)
        (λ fault. IsRefusal (program_of program.now) fault)) }
    ensures memory { IfOk result (λ answer. IfErr answer (λ fault. fault ≢ CheckFault.Memory)) }
{
    let environment = Environment::of(alloc, structs, names)?;
    let scope = environment.scope(&*structs, &*names);
    let pieces = Pieces::of(alloc, &program.items)?;
    let mut types = vec![in alloc; None; program.tokens as usize]?;
    let fault = program_fault(alloc, program, scoped, &pieces, &scope, &mut types)?;
    match fault {
        Some(fault) => Ok(Err(CheckFault::Rule(fault.place, fault.rule.number()))),
        None => {
            let facts = facts(alloc, program, structs, names, &pieces, &types)?;
            Ok(Ok(facts))
        }
    }
}

// Checks a program whose names are resolved.
fn checked_by<'p, 'a>(
    alloc: Global,
    program: &'p Program<'a>,
    scoped: &ScopedMarks<'p, 'a>,
    names: &Names<'p, 'a>,
) -> Result<Result<Facts, CheckFault>, AllocError>
    requires well_formed { IsWellFormed (program_of program.now) }
    requires small { program.now.tokens ≤ 2 ^ 20 }
    requires scoped { AreScoped (program_of program.now) scoped.now }
    requires names { AreNames (program_of program.now) names.now }
    ensures answer { IfOk result (λ answer. MatchResult answer
        (λ facts. AreFacts (program_of program.now) facts)
        (λ fault. IsRefusal (program_of program.now) fault)) }
    ensures memory { IfOk result (λ answer. IfErr answer (λ fault. fault ≢ CheckFault.Memory)) }
{
    let structs = Structs::new(alloc, &program.items)?;
    checked(alloc, program, scoped, &structs, names)
}

/// The facts of a program by its marks and names, in linear time. Each token has a note:
///
/// - Its kind is the index of the kind of its type in the list of kinds. Each kind is once in that
///   list, in the order of the first occurrences. The main token of an expression, which is its
///   sign, name or number, has the type of the expression. The name of a declared variable or
///   parameter has its type, and the name of a declared function has the type of its calls. A token
///   without a type has the number 0.
/// - Its binding depends on the token. The name of a variable, a parameter or a function, where it
///   is declared or in an expression, has the number of the declaration that it denotes, from 0;
///   for a function that is the header with the body. A predeclared name has 2^32 - 1. A member
///   after `.` or `->` has the number of words before it in its struct. `sizeof` has the number of
///   bytes that it gives. Any other token has 0.
/// - The facts of regions and sharing are false everywhere.
///
/// # Errors
///
/// The first rule about names and types that the program breaks, one of 1 to 20, by its place and
/// then by its number; or want of memory.
pub fn types<'p, 'a>(
    alloc: Global,
    program: &'p Program<'a>,
    scoped: &ScopedMarks<'p, 'a>,
    names: &Names<'p, 'a>,
) -> Result<Facts, CheckFault>
    requires well_formed { IsWellFormed (program_of program.now) }
    requires small { program.now.tokens ≤ 2 ^ 20 }
    requires scoped { AreScoped (program_of program.now) scoped.now }
    requires names { AreNames (program_of program.now) names.now }
    ensures { MatchResult result
        (λ facts. AreFacts (program_of program.now) facts)
        (λ fault. IsRefusal (program_of program.now) fault) }
{
    match checked_by(alloc, program, scoped, names) {
        Ok(answer) => answer,
        Err(_) => Err(CheckFault::Memory),
    }
}
