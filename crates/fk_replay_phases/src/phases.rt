//! The phases of a round before the steps of the tree.

ghost use Rattle.std.specs.Prelude.{◌≡◌, ℕ, ◌^◌, ◌<◌, ◌≤◌, length, vec_len, slice_index, IfOk};
ghost use Rattle.fk_meaning_state.specs.View.{setting_of};
ghost use Rattle.fk_replay_phases.specs.Safe.{AreSafe};
ghost use Rattle.fk_replay_phases.specs.Present.{present, numbers_of};
ghost use Rattle.fk_meaning_store.specs.View.{store_of, processors_of};
ghost use Rattle.fk_replay_rounds.specs.Own.{AreOwn};
ghost use Rattle.fk_replay_phases.specs.Actors.{HaveNone, HaveBegun, runners_of, AreInRound};
ghost use Rattle.fk_replay_phases.specs.Actors.{CanBeAsked, CanAllBeAsked, HasAsked, HaveAsked};

use crate::acting::Acting;
use crate::actor::{Actor, begin};
use fk_core::CoreOp;
use fk_meaning_operation::Class;
use fk_meaning_state::Setting;
use fk_meaning_store::Store32;
use fk_replay_steps::{class_of, do_request, has_room};
use std::alloc::{AllocError, Global};

/// A fault: its site and its processor.
#[derive(Clone, Copy)]
pub struct Fault {
    pub site: u32,
    pub processor: u32,
}

/// All processors of a round do their local operations and take the last one. It is `false` if one
/// of them can't.
pub fn begin_all(
    setting: Setting,
    ops: &[CoreOp],
    acting: &[Acting],
    counts: &[u32],
    actors: &mut Vec<Actor>,
) -> Result<bool, AllocError>
    requires few { length ops.now < 2 ^ 32 }
    requires many { length counts.now ≡ vec_len actors.old }
    requires counts { (h : ℕ) → slice_index counts.now h ≤ 255 }
    requires numbers { numbers_of acting.now ≡ present 0 counts.now }
    requires untaken { HaveNone actors.old.items }
    requires safe { AreSafe ops.now (setting_of setting) (runners_of actors.old.items) }
    ensures begun { IfOk result (HaveBegun ops.now (setting_of setting) counts.now
        actors.old.items actors.new.items) }
{
    for member in acting {
        let number = member.number as usize;
        let can = begin(setting, ops, counts[number], &mut actors[number])?;
        if !can {
            return Ok(false);
        }
    }
    Ok(true)
}

/// Does the requests, up to the first fault.
pub fn do_requests(
    alloc: Global,
    ops: &[CoreOp],
    acting: &[Acting],
    store: &mut Store32,
    actors: &mut Vec<Actor>,
) -> Result<Option<Fault>, AllocError>
    requires few { length ops.now < 2 ^ 32 }
    requires many { vec_len actors.old ≡ processors_of store.old }
    requires acting { AreInRound acting.now actors.old.items }
    requires own { AreOwn (runners_of actors.old.items) }
    requires can { CanAllBeAsked ops.now actors.old.items }
    ensures asked { IfOk result (HaveAsked ops.now (store_of store.old) (store_of store.new)
        actors.old.items actors.new.items) }
    ensures processors { processors_of store.new ≡ processors_of store.old }
{
    for member in acting {
        let number = member.number as usize;
        let fault = ask(alloc, ops, store, &mut actors[number])?;
        if let Some(site) = fault {
            let processor = member.number;
            return Ok(Some(Fault { site, processor }));
        }
    }
    Ok(None)
}

/// A processor passes the phase of requests, or faults there, at a site.
fn ask(
    alloc: Global,
    ops: &[CoreOp],
    store: &mut Store32,
    actor: &mut Actor,
) -> Result<Option<u32>, AllocError>
    requires few { length ops.now < 2 ^ 32 }
    requires number { actor.old.runner.processor.number < processors_of store.old }
    requires depth { vec_len actor.old.runner.processor.callers < 256 }
    requires can { CanBeAsked ops.now actor.old }
    ensures asked { IfOk result (HasAsked ops.now (store_of store.old) (store_of store.new)
        actor.old actor.new) }
    ensures processors { processors_of store.new ≡ processors_of store.old }
{
    let Some(due) = actor.taken else {
        return Ok(None);
    };
    if class_of(due.operation) == Class::Tree {
        if has_room(due.operation, &actor.runner.processor) {
            return Ok(None);
        }
        return Ok(Some(due.site));
    }
    match do_request(alloc, store, due.operation, &mut actor.runner.processor)? {
        Ok(()) => {
            actor.runner.pass(ops, due, true)?;
            actor.taken = None;
            Ok(None)
        }
        Err(_) => Ok(Some(due.site)),
    }
}
