//! The rule that a token breaks at its place.

ghost use Rattle.std.specs.Prelude.{◌≡◌, Some};
ghost use Rattle.fk_check_rules.specs.Least.{IsLeast};
ghost use Rattle.fk_regions.specs.Collected.{seen};
ghost use Rattle.fk_regions.specs.Judged.{unless_synchronous, where_synchronous, called_rule};
ghost use Rattle.fk_regions.specs.Judged.{misplaced_rule, is_deciding, straight_rule, Breaks};

use crate::around::{Around, Loops, Region};
use crate::callee::Callee;
use crate::token::{Spelling, Token, Word};
use fk_check_rules::{Fault, Rule, first_of};
use fk_syntax::{Mode, Place};

// The rule, unless the region is synchronous.
fn unless_synchronous(region: Region, rule: Rule) -> Option<Rule>
    ensures { result ≡ unless_synchronous region rule }
{
    match region {
        Region::Synchronous => None,
        Region::Asynchronous | Region::Neither => Some(rule),
    }
}

// The rule, if the region is synchronous.
fn where_synchronous(region: Region, rule: Rule) -> Option<Rule>
    ensures { result ≡ where_synchronous region rule }
{
    match region {
        Region::Synchronous => Some(rule),
        Region::Asynchronous | Region::Neither => None,
    }
}

// The rule that a call breaks by its region.
fn called_rule(region: Region, spelling: Spelling, callee: Option<Callee>) -> Option<Rule>
    ensures { result ≡ called_rule region spelling callee }
{
    match callee? {
        Callee::Function(Mode::Sync) => unless_synchronous(region, Rule::SyncCalledOutside),
        Callee::Function(Mode::Async) => where_synchronous(region, Rule::AsyncCalledInside),
        Callee::Function(Mode::Straight) => None,
        Callee::Predeclared => match spelling {
            Spelling::Shalloc => unless_synchronous(region, Rule::ShallocOutside),
            Spelling::Other => None,
        },
    }
}

// The rule that a token breaks by its surroundings, other than the rule on straight functions.
fn misplaced_rule(around: Around, word: Word, callee: Option<Callee>) -> Option<Rule>
    ensures { result ≡ misplaced_rule around word callee }
{
    match word {
        Word::Start if around.in_main => None,
        Word::Start => Some(Rule::StartNotInMain),
        Word::Farm => unless_synchronous(around.region, Rule::FarmOutside),
        Word::Seq => unless_synchronous(around.region, Rule::SeqOutside),
        Word::Fork => unless_synchronous(around.region, Rule::ForkOutside),
        Word::Barrier => where_synchronous(around.region, Rule::BarrierInside),
        Word::Name(spelling) => called_rule(around.region, spelling, callee),
        Word::Break | Word::Continue => match around.loops {
            Loops::Outside => Some(Rule::NoLoop),
            Loops::Inside => None,
            Loops::Beyond => Some(Rule::LoopLeavesBody),
        },
        Word::Return if around.in_body => Some(Rule::ReturnFromBody),
        Word::Return | Word::If | Word::Loop | Word::Branching | Word::Other => None,
    }
}

// Whether a token decides what is run next, waits, or calls a function that may do so.
fn is_deciding(word: Word, callee: Option<Callee>) -> bool
    ensures { result ≡ is_deciding word callee }
{
    match word {
        Word::If | Word::Loop | Word::Branching | Word::Barrier => true,
        Word::Name(_) => matches!(callee, Some(Callee::Function(Mode::Sync | Mode::Async))),
        _ => false,
    }
}

// The rule on straight functions, if a token breaks it.
fn straight_rule(around: Around, word: Word, callee: Option<Callee>) -> Option<Rule>
    ensures { result ≡ straight_rule around word callee }
{
    if around.straight && is_deciding(word, callee) {
        Some(Rule::NotStraight)
    } else {
        None
    }
}

// The fault of a broken rule at a place, if there is one.
fn fault_at(place: Place, rule: Option<Rule>) -> Option<Fault>
    ensures { IsLeast (λ at broken. (at ≡ place) × (rule ≡ Some broken)) result }
{
    match rule {
        Some(rule) => Some(Fault { place, rule }),
        None => None,
    }
}

/// The first rule that a token breaks. `callee` is what it calls, if it is a name.
pub(crate) fn token_fault(token: &Token, callee: Option<Callee>) -> Option<Fault>
    ensures { IsLeast (Breaks callee (seen token.now)) result }
{
    let misplaced = misplaced_rule(token.around, token.word, callee);
    let straight = straight_rule(token.around, token.word, callee);
    let place = token.spot.place;
    first_of(fault_at(place, misplaced), fault_at(place, straight))
}
