//! How many members of nodes have come to joint operations.

ghost use Rattle.std.specs.Prelude.{◌≡◌, true, ◌+◌, ◌^◌, ◌<◌, length};
ghost use Rattle.fk_replay_phases.specs.Present.{numbers_of, AreBelow};
ghost use Rattle.fk_replay_arrivals.specs.Arrived.{number_in, is_counted, HasNumber, HasOneMore};
ghost use Rattle.fk_replay_arrivals.specs.Arrived.{HaveForgotten, joint_taken};

use fk_meaning_operation::Joint;
use fk_replay_phases::{Acting, Actor, joint_of};
use fk_replay_steps::Due;

/// How many members of a node are before each joint operation.
#[derive(Clone, Copy)]
pub struct Arrived {
    pub starting: u32,
    pub at_barrier: u32,
    pub closing: u32,
}

/// Nobody is before a joint operation any longer.
fn forget(joint: Joint, arrived: &mut Arrived)
    ensures { HasNumber joint 0 arrived.old arrived.new }
{
    match joint {
        Joint::Starting => arrived.starting = 0,
        Joint::AtBarrier => arrived.at_barrier = 0,
        Joint::Closing => arrived.closing = 0,
        _ => {}
    }
}

/// One more than a number.
fn one_more_than(number: &mut u32) -> u32
    ensures new { number.old + 1 < 2 ^ 32 → number.new ≡ number.old + 1 }
    ensures result { result ≡ number.new }
{
    *number = number.wrapping_add(1);
    *number
}

/// One more is before a joint operation. It gives their number.
pub(crate) fn one_more(joint: Joint, arrived: &mut Arrived) -> u32
    ensures { is_counted joint ≡ true → number_in joint arrived.old + 1 < 2 ^ 32
        → HasOneMore joint result arrived.old arrived.new }
{
    match joint {
        Joint::Starting => one_more_than(&mut arrived.starting),
        Joint::AtBarrier => one_more_than(&mut arrived.at_barrier),
        _ => one_more_than(&mut arrived.closing),
    }
}

/// What those do together who do an operation that was taken.
fn joint_in(taken: Option<Due>) -> Joint
    ensures { result ≡ joint_taken taken }
{
    match taken {
        Some(due) => joint_of(due.operation),
        None => Joint::Alone,
    }
}

/// Nobody is before the joint operations any longer that are done in a round. The actors have not
/// done them yet.
pub fn forget_all(acting: &[Acting], actors: &[Actor], arrived: &mut Vec<Arrived>)
    requires many { length arrived.old.items ≡ length actors.now }
    requires within { AreBelow (length actors.now) (numbers_of acting.now) }
    ensures { HaveForgotten acting.now actors.now arrived.old.items arrived.new.items }
{
    for member in acting {
        let number = member.number as usize;
        if member.number == member.lowest {
            forget(joint_in(actors[number].taken), &mut arrived[number]);
        }
    }
}
