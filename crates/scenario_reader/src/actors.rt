//! The actors of the lines that were read, each found by its hash.
ghost use Rattle.std.specs.Prelude.{◌≡◌, ◌≤◌, [], length, IfOk, OnOk};
ghost use Rattle.scenario_reader.specs.Actors.{actor_number, with_actor};

use diego_names::{List, OutOfMemory};
use indexmap::IndexSet;
use scenario_lines::Actor;
use std::alloc::Global;
use std::marker::Model;

/// Actors in the order in which they first act.
#[derive(Drop)]
pub(crate) struct Actors {
    set: IndexSet<Actor>,
}

impl Model for Actors {
    ghost use Rattle.std.specs.Prelude as plain;
    ghost use Rattle.scenario_lines.specs.declared.actor.Actor.{Actor as AnActor};

    ghost Value = { plain.List AnActor };

    ghost view = { λ actors. actors.set.keys };
}

impl Actors {
    pub fn new(alloc: Global) -> Actors
        ensures { result ≡ [] }
    {
        Actors {
            set: IndexSet::new(alloc),
        }
    }

    /// The number of an actor, who is added at the end if it isn't there yet.
    #[tactic(auto, unfolding(crate::specs::Actors::actor_number, crate::specs::Actors::with_actor))]
    pub fn number(&mut self, actor: Actor) -> Result<u32, OutOfMemory>
        requires { length self.old ≤ 256 }
        ensures added { OnOk result (self.new ≡ with_actor self.old actor) }
        ensures number { IfOk result (λ n. n ≡ actor_number self.old actor) }
    {
        let (index, _is_new) = self.set.insert_full(actor)?;
        Ok(index as u32 + 1)
    }

    pub fn len(&self) -> usize
        ensures { result ≡ length self.now }
    {
        self.set.len()
    }

    pub fn list(&self, alloc: Global) -> Result<List<Actor>, OutOfMemory>
        ensures { IfOk result (λ actors. actors ≡ self.now) }
    {
        let actors = Vec::from_slice(alloc, self.set.as_slice())?;
        Ok(List::from(actors))
    }
}
