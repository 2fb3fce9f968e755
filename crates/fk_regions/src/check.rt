//! Regions and their rules.

ghost use Rattle.std.specs.Prelude.{◌≡◌, ◌≢◌, IfErr, MatchResult, OnErr};
ghost use Rattle.fk_syntax.specs.Program.{ProgramTree};
ghost use Rattle.fk_syntax.specs.ProgramView.{program_of};
ghost use Rattle.fk_check_rules.specs.Least.{IsLeast, among};
ghost use Rattle.fk_types_names.specs.Names.{AreNames};
ghost use Rattle.fk_regions.specs.Broken.{AreRegions, IsRefusal};
ghost use Rattle.fk_regions.specs.Found.{AreKept, TokenBreaks};

use crate::callee::called_by;
use crate::collect::Tokens;
use crate::judge::token_fault;
use crate::marks::mark;
use crate::token::Token;
use fk_check_rules::{Fault, first_of};
use fk_syntax::{CheckFault, Facts, Program};
use fk_types_names::Names;
use std::alloc::Global;

// The first rule that one of the tokens breaks.
fn first_fault<'p, 'a>(names: &Names<'p, 'a>, tokens: &[Token]) -> Option<Fault>
    ensures { IsLeast (among (TokenBreaks names.now) tokens.now) result }
{
    let mut fault = None;
    for token in tokens {
        fault = first_of(fault, token_fault(token, called_by(names, token.spot.at)));
    }
    fault
}

// Sets in each note of the facts whether its token is in a synchronous region, or returns the first
// rule that one of these tokens breaks. It takes no memory.
fn set_regions<'p, 'a>(
    names: &Names<'p, 'a>,
    tokens: &[Token],
    facts: &mut Facts,
) -> Result<(), CheckFault>
    ensures answer { (program : ProgramTree) → AreNames program names.now
        → AreKept program tokens.now → MatchResult result
        (λ _. AreRegions program facts.old facts.new) (λ fault. IsRefusal program fault) }
    ensures refused { OnErr result (facts.new ≡ facts.old) }
    ensures memory { IfErr result (λ fault. fault ≢ CheckFault.Memory) }
{
    match first_fault(names, tokens) {
        Some(fault) => Err(CheckFault::Rule(fault.place, fault.rule.number())),
        None => {
            mark(&mut facts.notes, tokens);
            Ok(())
        }
    }
}

/// Sets in each note of the facts whether its token is in a synchronous region, by the names of
/// the program, in linear time.
///
/// # Errors
///
/// The first rule on regions that the program breaks, by its place and then by its number; or want
/// of memory. The facts are then as they were.
pub fn regions<'p, 'a>(
    alloc: Global,
    program: &'p Program<'a>,
    names: &Names<'p, 'a>,
    facts: &mut Facts,
) -> Result<(), CheckFault>
    requires { AreNames (program_of program.now) names.now }
    ensures answer { MatchResult result
        (λ _. AreRegions (program_of program.now) facts.old facts.new)
        (λ fault. IsRefusal (program_of program.now) fault) }
    ensures refused { OnErr result (facts.new ≡ facts.old) }
{
    match Tokens::of(alloc, &program.items) {
        Ok(tokens) => set_regions(names, &tokens, facts),
        Err(_) => Err(CheckFault::Memory),
    }
}
