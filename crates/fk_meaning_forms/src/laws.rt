//! Laws of the definitions.

ghost use Rattle.fk_meaning_forms.specs.Ranks.{SitesAreRanks};

/// The number of an operation in numbered code is its rank among all operations of the code: the
/// operations have the same order and the same kinds, and their numbers are consecutive.
pub fn sites_are_ranks<A>()
    ensures { SitesAreRanks A }
{}
