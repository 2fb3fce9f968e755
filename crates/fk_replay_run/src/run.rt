//! The state of a run.

ghost use Rattle.std.specs.Prelude.{◌≡◌, ◌+◌, ◌^◌, ◌<◌, ◌≤◌, length, IfOk};
ghost use Rattle.fk_meaning_state.specs.View.{setting_of};
ghost use Rattle.fk_replay_run.specs.Arrivals.{NoneArrived};
ghost use Rattle.fk_replay_run.specs.Openings.{IsOpening, IsFirst, AreFirst};

use fk_meaning_state::{Processor, Setting};
use fk_meaning_store::Store32;
use fk_replay_arrivals::Arrived;
use fk_replay_phases::{Acting, Actor};
use fk_replay_rounds::Mode;
use fk_replay_steps::{Pace, Runner};
use fk_tree::Tree;
use std::alloc::{AllocError, Global};

/// The state of a run, and what is needed to go on with it.
#[derive(Drop)]
pub struct Run {
    pub alloc: Global,
    pub setting: Setting,
    pub store: Store32,
    pub tree: Tree,
    pub actors: Vec<Actor>,
    pub pace: Pace,
    /// The count of each processor in the current round.
    pub counts: Vec<u32>,
    /// Those who are in the current round.
    pub acting: Vec<Acting>,
    /// By the lowest member of each node.
    pub arrived: Vec<Arrived>,
}

/// A processor at the beginning of `main`.
fn first_actor(
    alloc: Global,
    setting: Setting,
    firsts: &[u32],
    main: u32,
    number: u32,
) -> Result<Actor, AllocError>
    ensures { IfOk result (IsFirst (setting_of setting) main firsts.now number) }
{
    Ok(Actor {
        runner: Runner {
            at: main,
            returns: Vec::new(alloc),
            processor: Processor::first(alloc, setting, firsts, number)?,
        },
        mode: Mode::Apart,
        taken: None,
    })
}

fn first_actors(
    alloc: Global,
    setting: Setting,
    firsts: &[u32],
    main: u32,
) -> Result<Vec<Actor>, AllocError>
    ensures { IfOk result (λ actors. AreFirst (setting_of setting) main firsts.now
        setting.processors actors.items) }
{
    let mut actors = Vec::new(alloc);
    for number in 0..setting.processors {
        let actor = first_actor(alloc, setting, firsts, main, number)?;
        actors.push(actor)?;
    }
    Ok(actors)
}

/// Nobody stands at a joint operation.
fn none_arrived(alloc: Global, processors: u32) -> Result<Vec<Arrived>, AllocError>
    ensures { IfOk result (λ arrived. NoneArrived processors arrived.items) }
{
    let mut arrived = Vec::new(alloc);
    for _number in 0..processors {
        arrived.push(Arrived {
            starting: 0,
            at_barrier: 0,
            closing: 0,
        })?;
    }
    Ok(arrived)
}

impl Run {
    /// The state before the first round.
    pub fn opening(
        alloc: Global,
        main: u32,
        words: &[u32],
        firsts: &[u32],
        input: &[u32],
        processors: u32,
    ) -> Result<Run, AllocError>
        requires some { 1 ≤ processors }
        requires few { processors ≤ 1024 }
        requires words { length words.now + length input.now ≤ 2 ^ 19 }
        ensures { IfOk result (IsOpening main words.now firsts.now input.now processors) }
    {
        let setting = Setting::of(processors, words.len() as u32, input.len() as u32);
        Ok(Run {
            alloc,
            setting,
            store: Store32::new(alloc, words, input, processors)?,
            tree: Tree::root(alloc, processors)?,
            actors: first_actors(alloc, setting, firsts, main)?,
            pace: Pace::new(alloc, processors)?,
            counts: vec![in alloc; 0; processors as usize]?,
            acting: Vec::new(alloc),
            arrived: none_arrived(alloc, processors)?,
        })
    }
}
