//! Those who are in a round of a trace.

ghost use Rattle.std.specs.Prelude.{◌≡◌, ℕ, ◌<◌, ◌≤◌, map, vec_len, slice_index, OnOk};
ghost use Rattle.fk_tree.specs.View.{tree_of, processors};
ghost use Rattle.fk_replay_text.specs.View.{range_of};
ghost use Rattle.fk_replay_text.specs.Rounds.{round_of};
ghost use Rattle.fk_replay_phases.specs.Present.{AreNone, present, all_acting};
ghost use Rattle.fk_replay_take.specs.Ranges.{AreRanges, with_range};

use fk_replay_phases::{Acting, acting_in};
use fk_replay_text::Acts;
use fk_tree::Tree;
use std::alloc::AllocError;

/// The processors of some ranges, which rise, and the count of each of them.
pub(crate) fn enlist(
    tree: &Tree,
    acts: &[Acts],
    counts: &mut Vec<u32>,
    acting: &mut Vec<Acting>,
) -> Result<(), AllocError>
    requires ranges { AreRanges (processors tree.now) (map range_of acts.now) }
    requires counts { AreNone (processors tree.now) counts.old.items }
    ensures counts { OnOk result (counts.new.items
        ≡ round_of (processors tree.now) (map range_of acts.now)) }
    ensures acting { OnOk result (acting.new.items
        ≡ all_acting (tree_of tree.now) (present 0 counts.new.items)) }
{
    acting.clear();
    for range in acts {
        enlist_range(tree, *range, counts, acting)?;
    }
    Ok(())
}

/// The processors of a range come after those that are enlisted.
fn enlist_range(
    tree: &Tree,
    acts: Acts,
    counts: &mut Vec<u32>,
    acting: &mut Vec<Acting>,
) -> Result<(), AllocError>
    requires many { vec_len counts.old ≡ processors tree.now }
    requires ordered { acts.first ≤ acts.last }
    requires within { acts.last < processors tree.now }
    requires some { 0 < acts.count }
    requires behind { (h : ℕ) → acts.first ≤ h → slice_index counts.old.items h ≡ 0 }
    requires acting { acting.old.items
        ≡ all_acting (tree_of tree.now) (present 0 counts.old.items) }
    ensures counts { OnOk result (counts.new.items
        ≡ with_range (range_of acts) 0 counts.old.items) }
    ensures acting { OnOk result (acting.new.items
        ≡ all_acting (tree_of tree.now) (present 0 counts.new.items)) }
{
    for number in acts.first..acts.last + 1 {
        counts[number as usize] = acts.count;
        acting.push(acting_in(tree, number))?;
    }
    Ok(())
}
