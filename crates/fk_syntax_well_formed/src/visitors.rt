//! Visitors that check the indices in a tree.

ghost use Rattle.std.specs.Prelude.{◌≡◌, nat_le};
ghost use Rattle.fk_syntax.specs.ProgramView.{program_of};
ghost use Rattle.fk_syntax.specs.Nodes.{items_indices};
ghost use Rattle.fk_syntax.specs.WellFormed.{nodes};
ghost use Rattle.fk_syntax_well_formed.specs.Visits.{times_of};

use crate::walk::{Visitor, visit_program};
use fk_syntax::{Index, Program};

/// Whether all indices so far are those of tokens.
#[derive(Drop)]
pub struct Bound {
    /// The number of tokens.
    pub tokens: u32,
    pub holds: bool,
}

/// Whether the indices of nodes have risen so far.
#[derive(Drop)]
pub struct Rising {
    /// The least index that may follow.
    pub least: u64,
    pub holds: bool,
}

/// The number of nodes so far with one index, up to 2^32 - 1.
#[derive(Drop)]
pub struct Tally {
    /// The index.
    pub at: u32,
    pub count: u32,
}

/// Whether each node so far is the only one of a program with its index.
#[derive(Drop)]
pub struct Distinct<'a, 'p> {
    pub program: &'p Program<'a>,
    pub holds: bool,
}

impl Visitor for Bound {
    ghost use Rattle.fk_syntax_well_formed.specs.Visits.{bound_after};

    ghost after = { bound_after };

    fn visit(&mut self, index: Index) {
        self.holds = self.holds && index.token() < self.tokens;
    }
}

impl Visitor for Rising {
    ghost use Rattle.fk_syntax_well_formed.specs.Visits.{rising_after};

    ghost after = { rising_after };

    fn visit(&mut self, index: Index) {
        if let Index::Node(at) = index {
            let at = at as u64;
            self.holds = self.holds && self.least <= at;
            self.least = at + 1;
        }
    }
}

impl Visitor for Tally {
    ghost use Rattle.fk_syntax_well_formed.specs.Visits.{tally_after};

    ghost after = { tally_after };

    fn visit(&mut self, index: Index) {
        if let Index::Node(at) = index
            && at == self.at
        {
            self.count = self.count.saturating_add(1);
        }
    }
}

impl Visitor for Distinct<'_, '_> {
    ghost use Rattle.fk_syntax_well_formed.specs.Visits.{distinct_after};

    ghost after = { distinct_after };

    fn visit(&mut self, index: Index) {
        if let Index::Node(at) = index {
            self.holds = self.holds && stands_once(self.program, at);
        }
    }
}

// Whether at most one node of the program has this index.
fn stands_once(program: &Program, at: u32) -> bool
    ensures { result
        ≡ nat_le (times_of at (nodes (items_indices (program_of program.now).items))) 1 }
{
    let mut tally = Tally { at, count: 0 };
    visit_program(program, &mut tally);
    tally.count <= 1
}
