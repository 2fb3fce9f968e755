//! The list of the operations of a text.

ghost use Rattle.std.specs.Prelude.{◌≡◌, ◌≤◌, IfOk, IfErr, length, map};
ghost use Rattle.fk_layout_walk.specs.Known.{tables_of, items_in, IsSound};
ghost use Rattle.fk_layout_walk_statements.specs.Texts.{sites_of_text};
ghost use Rattle.fk_layout.specs.Listing.{site};
ghost use Rattle.fk_layout.specs.Refusal.{HasTooMany};

use crate::sites::{LayoutFault, fitting_sites};
use fk_layout_walk::{Event, Mark, NOWHERE, ProgramTables, Visitor};
use fk_layout_walk_statements::text;
use fk_syntax::Place;
use std::alloc::Global;

/// A site: an operation of a text, as faults and commits name it.
#[derive(Clone, Copy, PartialEq, Eq, Debug)]
pub struct Site {
    /// The number of its kind, from 1 to 34.
    pub kind: u8,
    /// Its place in the text if it can fault, else 0:0.
    pub place: Place,
}

const NO_SITE: Site = Site {
    kind: 0,
    place: NOWHERE,
};

/// A visitor that lists the operations that it is shown, as long as there is room.
#[derive(Drop)]
pub struct Listing {
    pub sites: Vec<Site>,
    /// The number of sites listed so far.
    pub filled: usize,
}

impl Visitor for Listing {
    ghost use Rattle.fk_layout.specs.Listing.{listing_after, no_mark};

    ghost after = { listing_after };

    ghost counts = { no_mark };

    fn meet(&mut self, event: Event) {
        if let Some((operation, place)) = event.operation() {
            if self.filled < self.sites.len() {
                let kind = operation.kind();
                self.sites[self.filled] = Site { kind, place };
                self.filled += 1;
            }
        }
    }

    fn mark(&self) -> Mark {
        Mark {
            values: 0,
            most: 0,
            nesting: 0,
            deepest: 0,
        }
    }
}

/// All operations of a text in the order of its code, function by function. It takes time linear in
/// the text.
///
/// # Errors
/// `TooManySites` if there are more than 16,000, with their number; `Memory` if there isn't enough
/// memory.
pub fn all_sites(alloc: Global, known: &ProgramTables) -> Result<Vec<Site>, LayoutFault>
    requires { IsSound known.now }
    ensures listed { IfOk result (λ sites. sites.items ≡ map site (sites_of_text known.now)) }
    ensures few { IfOk result (λ sites. length sites.items ≤ 16000) }
    ensures refused { IfErr result (HasTooMany (tables_of known.now) (items_in known.now)) }
{
    let count = fitting_sites(known)?;
    let Ok(sites) = vec![in alloc; NO_SITE; count as usize] else {
        return Err(LayoutFault::Memory);
    };
    let mut listing = Listing { sites, filled: 0 };
    text(known, &mut listing);
    Ok(listing.sites)
}
