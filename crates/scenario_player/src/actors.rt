//! The actors of a scenario, as they begin.
ghost use Rattle.std.specs.Prelude.{◌≡◌, IfOk};
ghost use Rattle.scenario_player.specs.Actors.{starting_actors, new_actor};

use cell_rep::CellRep;
use diego_names::OutOfMemory;
use phase_actors::ActorState;
use scenario_lines::Actor;
use std::alloc::Global;

fn begun(actor: &Actor) -> ActorState
    ensures { result ≡ new_actor actor.now.cell actor.now.name }
{
    if actor.cell {
        ActorState::Cell(CellRep::new(actor.name))
    } else {
        ActorState::Client(actor.name)
    }
}

/// The actors as they begin, in the order of their numbers: no cell has joined.
pub(crate) fn actors_of(alloc: Global, actors: &[Actor]) -> Result<Vec<ActorState>, OutOfMemory>
    ensures { IfOk result (λ v. v.items ≡ starting_actors actors.now) }
{
    let mut states = Vec::new(alloc);
    for actor in actors {
        states.push(begun(actor))?;
    }
    Ok(states)
}
