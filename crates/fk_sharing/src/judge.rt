//! The rule that a token breaks at its place.

ghost use Rattle.std.specs.Prelude.{◌≡◌, Some};
ghost use Rattle.fk_check_rules.specs.Least.{IsLeast};
ghost use Rattle.fk_sharing.specs.Broken.{is_splitting};
ghost use Rattle.fk_sharing.specs.Collected.{seen};
ghost use Rattle.fk_sharing.specs.Judged.{private_rule, shared_rule, variable_rule, parameter_rule};
ghost use Rattle.fk_sharing.specs.Judged.{broken_rule, is_private_variable, is_address, Breaks};

use crate::around::{Around, splits};
use crate::token::{Form, Token, Word};
use fk_check_rules::{Fault, Rule};
use fk_regions::Region;
use fk_sharing_class::Thing;
use fk_syntax::{Mode, Sign};

/// Whether a group splits at a token.
pub(crate) fn is_splitting(region: Region, word: Word) -> bool
    ensures { result ≡ is_splitting region word }
{
    match word {
        Word::Decides(shared) => splits(region, shared),
        _ => false,
    }
}

fn is_private_variable(thing: Option<Thing>) -> bool
    ensures { result ≡ is_private_variable thing }
{
    match thing {
        Some(Thing::PrivateVariable) => true,
        Some(Thing::SharedVariable | Thing::Function | Thing::Predeclared) | None => false,
    }
}

fn is_address(sign: Sign) -> bool
    ensures { result ≡ is_address sign }
{
    match sign {
        Sign::Ampersand => true,
        _ => false,
    }
}

// The rule that a variable without `sh` breaks.
fn private_rule(form: Form) -> Option<Rule>
    ensures { result ≡ private_rule form }
{
    match form {
        Form::Scalar => None,
        Form::Array => Some(Rule::PrivateArray),
        Form::Struct => Some(Rule::PrivateStruct),
    }
}

// The rule that a variable with `sh` breaks.
fn shared_rule(around: Around) -> Option<Rule>
    ensures { result ≡ shared_rule around }
{
    if !around.in_function {
        return None;
    }
    match around.region {
        Region::Synchronous => None,
        Region::Asynchronous | Region::Neither => Some(Rule::SharedOutside),
    }
}

fn variable_rule(around: Around, shared: bool, form: Form) -> Option<Rule>
    ensures { result ≡ variable_rule around shared form }
{
    if shared {
        shared_rule(around)
    } else {
        private_rule(form)
    }
}

fn parameter_rule(shared: bool, mode: Mode) -> Option<Rule>
    ensures { result ≡ parameter_rule shared mode }
{
    if !shared {
        return None;
    }
    match mode {
        Mode::Sync => None,
        Mode::Async | Mode::Straight => Some(Rule::SharedParameter),
    }
}

// The rule that a token breaks.
fn broken_rule(around: Around, word: Word) -> Option<Rule>
    ensures { result ≡ broken_rule around word }
{
    match word {
        Word::Return if around.in_split => Some(Rule::ReturnFromSplit),
        Word::Break if around.break_leaves => Some(Rule::BreakFromSplit),
        Word::Continue if around.continue_leaves => Some(Rule::ContinueFromSplit),
        Word::Prefix(sign, thing) if is_address(sign) && is_private_variable(thing) => {
            Some(Rule::PrivateAddress)
        }
        Word::Variable(shared, form) => variable_rule(around, shared, form),
        Word::Parameter(shared, mode) => parameter_rule(shared, mode),
        Word::Return
        | Word::Break
        | Word::Continue
        | Word::Prefix(_, _)
        | Word::Decides(_)
        | Word::Other => None,
    }
}

/// The fault of the rule that a token breaks, if it breaks one.
pub(crate) fn token_fault(token: &Token) -> Option<Fault>
    ensures { IsLeast (Breaks (seen token.now)) result }
{
    let place = token.spot.place;
    match broken_rule(token.around, token.word) {
        Some(rule) => Some(Fault { place, rule }),
        None => None,
    }
}
