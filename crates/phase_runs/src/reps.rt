//! The reps of a scenario's cells, which a round needs side by side.
ghost use Rattle.std.specs.Prelude.{◌≡◌, ◌<◌, ◌≤◌, ◌+◌, ◌++◌, map, IfOk, OnErr, vec_len, vec_capacity};
ghost use Rattle.std.specs.Vec.Iter.{into_iter_items};
ghost use Rattle.std.specs.Option.{option_to_list};
ghost use Rattle.phase_runs.specs.Reps.{bare, rep_of, reps_of, with_reps, PutsNext};

use cell_rep::CellRep;
use diego_names::OutOfMemory;
use phase_actors::ActorState;
use std::alloc::Global;
use std::{mem, vec};

fn take_rep(actor: &mut ActorState) -> Option<CellRep>
    ensures rep { result ≡ rep_of actor.old }
    ensures bare { actor.new ≡ bare actor.old }
{
    match actor {
        ActorState::Client(_) => None,
        ActorState::Cell(rep) => {
            let away = CellRep::new(rep.cell());
            Some(mem::replace(rep, away))
        }
    }
}

// The rep of the next actor comes behind the others, if it has one.
fn take_next(reps: &mut Vec<CellRep>, actor: &mut ActorState)
    requires { vec_len reps.old < vec_capacity reps.old }
    ensures items { reps.new.items ≡ reps.old.items ++ option_to_list (rep_of actor.old) }
    ensures bare { actor.new ≡ bare actor.old }
    ensures room { (vec_capacity reps.new ≡ vec_capacity reps.old)
        × (vec_len reps.new ≤ vec_len reps.old + 1) }
{
    if let Some(rep) = take_rep(actor) {
        reps.push_reserved(rep);
    }
}

/// Takes the reps out of the actors. Where memory runs out none is taken.
pub fn take_reps(alloc: Global, actors: &mut [ActorState]) -> Result<Vec<CellRep>, OutOfMemory>
    ensures taken { IfOk result (λ reps. (reps.items ≡ reps_of actors.old)
        × (actors.new ≡ map bare actors.old)) }
    ensures starved { OnErr result (actors.new ≡ actors.old) }
{
    let mut reps = Vec::new(alloc);
    reps.reserve(actors.len())?;
    for index in 0..actors.len() {
        take_next(&mut reps, &mut actors[index]);
    }
    Ok(reps)
}

// Puts the next rep into the next actor, if it is a cell.
fn put_next(actor: &mut ActorState, reps: &mut vec::IntoIter<CellRep>)
    ensures { PutsNext actor.old (into_iter_items reps.old) actor.new (into_iter_items reps.new) }
{
    if let ActorState::Cell(rep) = actor {
        if let Some(new) = reps.next() {
            *rep = new;
        }
    }
}

/// Puts reps into the cells among the actors, in order, as many as there are of both.
pub fn put_reps(actors: &mut [ActorState], reps: Vec<CellRep>)
    ensures { actors.new ≡ with_reps actors.old reps.items }
{
    let mut reps = reps.into_iter();
    for index in 0..actors.len() {
        put_next(&mut actors[index], &mut reps);
    }
}
