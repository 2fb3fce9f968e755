//! The processors of a round.

ghost use Rattle.std.specs.Prelude.{◌≡◌, ◌<◌, length};
ghost use Rattle.fk_meaning.specs.Round.{lowest, highest};
ghost use Rattle.fk_tree.specs.View.{tree_of, processors};
ghost use Rattle.fk_replay_phases.specs.Present.{AreNone, present, numbers_of, acting_at};

use fk_tree::Tree;

/// A processor in a round, its node before the round, and the lowest and the highest member there.
#[derive(Clone, Copy)]
pub struct Acting {
    pub number: u32,
    pub node: u64,
    pub lowest: u32,
    pub highest: u32,
}

/// The first of some numbers, or 0.
fn first_of(numbers: &[u32]) -> u32
    ensures { result ≡ lowest numbers.now }
{
    match numbers.first() {
        Some(number) => *number,
        None => 0,
    }
}

/// The last of some numbers, or 0.
#[tactic(auto, using(crate::proofs::Highest::last_one, crate::proofs::Highest::none))]
fn last_of(numbers: &[u32]) -> u32
    ensures { result ≡ highest numbers.now }
{
    if numbers.is_empty() {
        0
    } else {
        numbers[numbers.len() - 1]
    }
}

/// A processor in a round, by the tree before the round.
pub fn acting_in(tree: &Tree, number: u32) -> Acting
    requires { number < processors tree.now }
    ensures { result ≡ acting_at (tree_of tree.now) number }
{
    let node = tree.node_of(number);
    let members = tree.members(node);
    Acting {
        number,
        node,
        lowest: first_of(members),
        highest: last_of(members),
    }
}

/// Nobody is in a round any longer.
pub fn dismiss(acting: &[Acting], counts: &mut Vec<u32>)
    requires numbers { numbers_of acting.now ≡ present 0 counts.old.items }
    ensures counts { AreNone (length counts.old.items) counts.new.items }
{
    for member in acting {
        counts[member.number as usize] = 0;
    }
}
