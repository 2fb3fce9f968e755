//! What an audit tells of a run.

ghost use Rattle.std.specs.Prelude.{◌≡◌, ◌<◌, ◌^◌, IfSome};
ghost use Rattle.fk_audit.specs.Mark.{first_of};

use fk_machine::place::SHARED_START;

/// A word that two or more harts touched in one cycle.
#[derive(Clone, Copy, PartialEq, Eq, Debug)]
pub struct Clash {
    /// The number of the cycle, counted from 1.
    pub cycle: u32,
    /// The address of the word.
    pub address: u32,
}

/// The first clash of each kind in a run: that of the least cycle, and in it of the least address.
#[derive(Clone, Copy, PartialEq, Eq, Debug)]
pub struct Verdict {
    /// The first clash of harts that all read.
    pub read: Option<Clash>,
    /// The first clash of harts of which one or more write.
    pub write: Option<Clash>,
}

/// The first clash of a run that had this one so far, if a further cycle has a clash of this word
/// or of none.
pub(crate) fn first_of(found: Option<Clash>, cycle: u32, word: Option<u32>) -> Option<Clash>
    requires { IfSome word (λ w. w < 2 ^ 20) }
    ensures { result ≡ first_of found cycle word }
{
    match (found, word) {
        (Some(clash), _) => Some(clash),
        (None, Some(word)) => Some(Clash {
            cycle,
            address: SHARED_START + 4 * word,
        }),
        (None, None) => None,
    }
}
