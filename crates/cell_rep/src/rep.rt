//! The rep of a cell. One that is up and has no epoch does in every act what one that is down does,
//! so that there is one state for both: it has not joined.
ghost use Rattle.std.specs.Prelude.{◌≡◌, ◌==◌, length, IfOk, MatchResult, Ok, Err};
ghost use Rattle.container_store.specs.Lookups.{those_of};
ghost use Rattle.cell_rep.specs.Reps.{new_rep, answer_in, answer_of, containers_of, is_draining, stopping};

use crate::joined::Joined;
use cell_records::{Answer, Container, JobName};
use container_store::StoreRefusal;
use diego_names::{Instance, List, Name, OutOfMemory};
use std::alloc::Global;

/// What stands on a cell, as the cell knows it.
#[derive(Debug, Drop)]
pub struct CellRep {
    pub(crate) cell: Name,
    pub(crate) joined: Option<Joined>,
}

impl CellRep {
    /// A rep that has not joined.
    pub fn new(cell: Name) -> CellRep
        ensures { result ≡ new_rep cell }
    {
        CellRep { cell, joined: None }
    }

    /// The name of its cell, which stays through every call.
    pub fn cell(&self) -> Name
        ensures { result ≡ self.now.cell }
    {
        self.cell
    }

    /// What the rep says of its cell when it is asked: nothing before it has joined.
    pub fn answer(&self, alloc: Global) -> Result<Option<Answer>, OutOfMemory>
        ensures { IfOk result (λ answer. answer ≡ answer_of self.now) }
    {
        match &self.joined {
            None => Ok(None),
            Some(joined) => Ok(Some(answer_in(alloc, self.cell, joined)?)),
        }
    }

    /// The containers, in order of number.
    pub fn containers(&self, alloc: Global) -> Result<List<Container>, OutOfMemory>
        ensures { IfOk result (λ list. list ≡ containers_of self.now) }
    {
        self.those_of(alloc, &None)
    }

    /// Whether there is no container.
    pub fn is_empty(&self) -> bool
        ensures { result ≡ (length (containers_of self.now) == 0) }
    {
        match &self.joined {
            None => true,
            Some(joined) => joined.store.is_empty(),
        }
    }

    /// Whether the cell is being emptied.
    pub fn is_draining(&self) -> bool
        ensures { result ≡ is_draining self.now }
    {
        match &self.joined {
            None => false,
            Some(joined) => joined.draining,
        }
    }

    /// The containers of the job that is named, or all where none is named.
    #[tactic(auto, using(crate::proofs::Asked::those_of_none))]
    pub(crate) fn those_of(
        &self,
        alloc: Global,
        named: &Option<JobName>,
    ) -> Result<List<Container>, OutOfMemory>
        ensures { IfOk result (λ list. list ≡ those_of named.now (containers_of self.now)) }
    {
        match &self.joined {
            None => Ok(List::new(alloc)),
            Some(joined) => Ok(List::from(joined.store.those_of(alloc, named)?)),
        }
    }

    /// A container is given up, whatever its state.
    pub fn stop(&mut self, instance: &Instance) -> Result<(), StoreRefusal>
        ensures stopped { MatchResult result
            (λ _. stopping self.old instance.now ≡ Ok self.new)
            (λ why. (stopping self.old instance.now ≡ Err why) × (self.new ≡ self.old)) }
        ensures cell { self.new.cell ≡ self.old.cell }
    {
        match &mut self.joined {
            None => Err(StoreRefusal::Unknown),
            Some(joined) => joined.store.remove(instance),
        }
    }
}

fn answer_in(alloc: Global, cell: Name, joined: &Joined) -> Result<Answer, OutOfMemory>
    ensures { IfOk result (λ answer. answer ≡ answer_in cell joined.now) }
{
    let store = &joined.store;
    let containers = store.containers(alloc)?;
    Ok(Answer {
        cell,
        zone: joined.zone,
        tag: joined.tag,
        epoch: store.epoch(),
        evacuating: joined.draining,
        totals: store.totals(),
        free: store.free(),
        last: store.last(),
        containers: List::from(containers),
    })
}
