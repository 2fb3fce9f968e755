//! Faults, which are broken rules at places, and the order of faults.

ghost use Rattle.std.specs.Bool.{OnTrue, OnFalse};
ghost use Rattle.std.specs.Prelude.{IsTrue};
ghost use Rattle.fk_check_rules.specs.Least.{IsNoLater, IsEarlier, IsLeast};
ghost use Rattle.fk_check_rules.specs.Told.{told};

use crate::rule::Rule;
use fk_syntax::Place;

/// A rule that is broken, and the place.
#[derive(Clone, Copy, PartialEq, Eq)]
pub struct Fault {
    pub place: Place,
    pub rule: Rule,
}

impl Fault {
    // Whether it comes before another fault, or at the same point.
    fn is_no_later(&self, other: &Fault) -> bool
        ensures yes { OnTrue result (IsNoLater self.now other.now) }
        ensures no { OnFalse result (IsNoLater other.now self.now) }
    {
        if self.place.line != other.place.line {
            return self.place.line < other.place.line;
        }
        if self.place.column != other.place.column {
            return self.place.column < other.place.column;
        }
        self.rule.number() <= other.rule.number()
    }
}

/// The fault of a rule at a place, if a test holds.
pub fn fault_if(rule: Rule, place: Place, holds: bool) -> Option<Fault>
    ensures { IsLeast (told rule place (IsTrue holds)) result }
{
    if holds {
        return Some(Fault { place, rule });
    }
    None
}

/// The first of two faults, by place and then by the number of the rule.
pub fn first_of(first: Option<Fault>, second: Option<Fault>) -> Option<Fault>
    ensures { IsEarlier first second result }
{
    match (first, second) {
        (Some(left), Some(right)) => {
            if left.is_no_later(&right) {
                Some(left)
            } else {
                Some(right)
            }
        }
        (Some(left), None) => Some(left),
        (None, right) => right,
    }
}
