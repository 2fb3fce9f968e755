//! Classes, private splits and their rules.

ghost use Rattle.std.specs.Prelude.{◌≡◌, ◌≢◌, IfErr, MatchResult, OnErr};
ghost use Rattle.fk_syntax.specs.Program.{ProgramTree};
ghost use Rattle.fk_syntax.specs.ProgramView.{program_of};
ghost use Rattle.fk_check_rules.specs.Least.{IsLeast, among};
ghost use Rattle.fk_types_names.specs.Names.{AreNames};
ghost use Rattle.fk_sharing.specs.Broken.{AreShared, IsRefusal};
ghost use Rattle.fk_sharing.specs.Found.{AreKept, TokenBreaks};

use crate::collect::Tokens;
use crate::judge::token_fault;
use crate::marks::mark;
use crate::token::Token;
use fk_check_rules::{Fault, first_of};
use fk_syntax::{CheckFault, Facts, Program};
use fk_types_names::Names;
use std::alloc::Global;

// The first rule that one of the tokens breaks.
fn first_fault(tokens: &[Token]) -> Option<Fault>
    ensures { IsLeast (among TokenBreaks tokens.now) result }
{
    let mut fault = None;
    for token in tokens {
        fault = first_of(fault, token_fault(token));
    }
    fault
}

// Sets in each note of the facts, by the tokens of a program, whether its token is the main token
// of a shared expression and whether a group splits there, or returns the first rule that one of
// them breaks. It takes no memory.
fn set_sharing(tokens: &[Token], facts: &mut Facts) -> Result<(), CheckFault>
    ensures answer { (program : ProgramTree) (names : Names) → AreNames program names
        → AreKept program names tokens.now → MatchResult result
        (λ _. AreShared program facts.old facts.new) (λ fault. IsRefusal program fault) }
    ensures refused { OnErr result (facts.new ≡ facts.old) }
    ensures memory { IfErr result (λ fault. fault ≢ CheckFault.Memory) }
{
    match first_fault(tokens) {
        Some(fault) => Err(CheckFault::Rule(fault.place, fault.rule.number())),
        None => {
            mark(&mut facts.notes, tokens);
            Ok(())
        }
    }
}

/// Sets in each note of the facts whether its token is the main token of a shared expression, and
/// whether a group splits there, by the names of the program. It takes linear time.
///
/// A group splits in a synchronous region where a private condition decides what is run next: at
/// the first keyword of an `if` or a loop, at `&&` and `||` by their left side, and at the `?` of a
/// `?:`.
///
/// # Errors
///
/// The first rule on sharing that the program breaks, by its place and then by its number; or want
/// of memory. The facts are then as they were.
pub fn sharing<'p, 'a>(
    alloc: Global,
    program: &'p Program<'a>,
    names: &Names<'p, 'a>,
    facts: &mut Facts,
) -> Result<(), CheckFault>
    requires { AreNames (program_of program.now) names.now }
    ensures answer { MatchResult result
        (λ _. AreShared (program_of program.now) facts.old facts.new)
        (λ fault. IsRefusal (program_of program.now) fault) }
    ensures refused { OnErr result (facts.new ≡ facts.old) }
{
    match Tokens::of(alloc, &program.items, names) {
        Ok(tokens) => set_sharing(&tokens, facts),
        Err(_) => Err(CheckFault::Memory),
    }
}
