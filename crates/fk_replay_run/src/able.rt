//! Who could act.

ghost use Rattle.std.specs.Prelude.{◌≡◌, None, replicate};
ghost use Rattle.fk_tree.specs.View.{processors};
ghost use Rattle.fk_meaning_state.specs.View.{setting_of};
ghost use Rattle.fk_replay_phases.specs.Present.{numbers_of};
ghost use Rattle.fk_replay_run.specs.Steady.{IsSteady};
ghost use Rattle.fk_replay_run.specs.Runs.{IsRun, state_of};
ghost use Rattle.fk_replay_run.specs.Told.{HasTold, KnowsAbout};
ghost use Rattle.fk_replay_run.specs.Arrivals.{NoneArrived};

use crate::run::Run;
use fk_core::CoreOp;
use fk_replay_arrivals::{tell, tell_first};

impl Run {
    /// Tells who could act at first.
    pub fn begin(&mut self, ops: &[CoreOp])
        requires run { IsRun self.old }
        requires steady { IsSteady ops.now (setting_of self.old.setting) (state_of self.old) }
        requires pace { self.old.pace ≡ replicate (processors self.old.tree) None }
        requires arrived { NoneArrived (processors self.old.tree) self.old.arrived.items }
        ensures { HasTold ops.now 1 self.old self.new }
    {
        let (tree, actors) = (&self.tree, &self.actors);
        tell_first(ops, tree, actors, &mut self.pace, &mut self.arrived);
    }

    /// Tells who could act after a round, from the next one on.
    pub fn tell(&mut self, ops: &[CoreOp], next: u32)
        requires run { IsRun self.old }
        requires steady { IsSteady ops.now (setting_of self.old.setting) (state_of self.old) }
        requires knows { KnowsAbout ops.now self.old (numbers_of self.old.acting.items) }
        ensures { HasTold ops.now next self.old self.new }
    {
        let (acting, tree, actors) = (&self.acting, &self.tree, &self.actors);
        tell(
            ops,
            acting,
            tree,
            actors,
            next,
            &mut self.pace,
            &mut self.arrived,
        );
    }
}
