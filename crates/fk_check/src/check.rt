//! All rules, one family after the other.

ghost use Rattle.std.specs.Prelude.{◌≡◌, ◌≤◌, ◌^◌, Ok, Err, IfErr, IfOk, MatchResult, OnOk};
ghost use Rattle.fk_syntax.specs.ProgramView.{program_of};
ghost use Rattle.fk_syntax.specs.WellFormed.{IsWellFormed};
ghost use Rattle.fk_check.specs.Rules.{IsRefusal, Keeps};
ghost use Rattle.fk_check.specs.Known.{AreAllFacts};

use fk_regions::regions;
use fk_sharing::sharing;
use fk_syntax::{CheckFault, Facts, Program};
use fk_types::types;
use fk_types_names::{ScopedMarks, resolve};
use std::alloc::Global;

// The facts of a program, or the first of the faults of its regions and of its sharing. The result
// is `Memory` only if one of these faults is.
fn told(
    facts: Facts,
    placed: Result<(), CheckFault>,
    shared: Result<(), CheckFault>,
) -> Result<Facts, CheckFault>
    ensures { MatchResult placed
        (λ _. MatchResult shared (λ _. result ≡ Ok facts) (λ fault. result ≡ Err fault))
        (λ fault. result ≡ Err fault) }
{
    placed?;
    shared?;
    Ok(facts)
}

/// What is known of a program that keeps all rules, in linear time: for each token what `types` of
/// `fk_types` says of it, whether it stands in a synchronous region, whether it is the main
/// token of a shared expression, and whether a group splits there.
///
/// # Errors
///
/// The first rule that the program breaks. The rules 1 to 20, about names and types, come before
/// the rules 21 to 32, about regions, and these before the rules 33 to 40, about sharing. Among the
/// rules of one family, the first one that is broken is reported, by its place and then by its
/// number. `Memory` if there isn't enough memory.
pub fn checked(alloc: Global, program: &Program) -> Result<Facts, CheckFault>
    requires well_formed { IsWellFormed (program_of program.now) }
    requires small { program.now.tokens ≤ 2 ^ 20 }
    ensures facts { IfOk result (AreAllFacts (program_of program.now)) }
    ensures kept { OnOk result (Keeps (program_of program.now)) }
    ensures refused { IfErr result (IsRefusal (program_of program.now)) }
{
    let Ok(scoped) = ScopedMarks::of(alloc, program) else {
        return Err(CheckFault::Memory);
    };
    let Ok(names) = resolve(alloc, program, &scoped) else {
        return Err(CheckFault::Memory);
    };
    let mut facts = types(alloc, program, &scoped, &names)?;
    let placed = regions(alloc, program, &names, &mut facts);
    let shared = sharing(alloc, program, &names, &mut facts);
    told(facts, placed, shared)
}
