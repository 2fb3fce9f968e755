//! Replays of a short text, under schedules that are made by hand.

use fk_replay_source::{End, ReplayFault, Replayed, listed_text, read_trace, replay};
use std::alloc::Global;
use std::test::Fail;

/// A program that prints 5. Its processor pushes two numbers, adds them, prints, and halts.
const SOURCE: &[u8] = b"void main(void) { putint(2 + 3); }";

/// It prints in the first round, and halts in the second.
const LAWFUL: &[u8] = b"fork95 trace 1\nharts 1\nc 1 0-0*4\nc 2 0-0*1\nend 2\n";

/// In the second round it does two operations, but only one is left.
const TOO_MANY: &[u8] = b"fork95 trace 1\nharts 1\nc 1 0-0*4\nc 2 0-0*2\nend 2\n";

/// Nothing is done in 256 rounds.
const IDLE: &[u8] = b"fork95 trace 1\nharts 1\nend 256\n";

// The replay of the text without input, under the schedule that a trace text tells.
fn replayed(alloc: Global, bytes: &[u8]) -> Result<Result<Replayed, ReplayFault>, Fail> {
    let listed = listed_text(alloc, SOURCE)?;
    let trace = read_trace(alloc, bytes)?;
    Ok(replay(alloc, &listed, &[], &trace))
}

#[test]
fn a_lawful_schedule_gives_output_and_status(rt: HostRuntime) -> Result<(), Fail> {
    let run = replayed(rt.alloc(), LAWFUL)??;
    assert!(rt; run.output.as_slice() == b"5\n".as_slice());
    assert_eq!(rt; run.end, End::Finished);
    Ok(())
}

#[test]
fn the_first_round_that_is_forbidden_is_told(rt: HostRuntime) -> Result<(), Fail> {
    let impossible = replayed(rt.alloc(), TOO_MANY)?;
    assert!(rt; matches!(&impossible, Err(ReplayFault::NotPossible(2))));
    let late = replayed(rt.alloc(), IDLE)?;
    assert!(rt; matches!(&late, Err(ReplayFault::Pace(256, 0))));
    Ok(())
}
