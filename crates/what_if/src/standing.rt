//! Where instances stand, and which cell holds an instance.
ghost use Rattle.std.specs.Prelude.{◌≡◌, ◌++◌, IfOk, OnOk, cond, [], not, filter};
ghost use Rattle.std.specs.HashSet.{contains};
ghost use Rattle.auctioneer.specs.Stands.{has_ended, same_name};
ghost use Rattle.what_if.specs.Holders.{found, IsHolders};
ghost use Rattle.what_if.specs.Stays.{
  instance_in,
  is_open,
  silent_stays,
  stay_at,
  stays,
  stays_on,
};

use crate::cells::{is_open, set_of};
use crate::site::{Site, Stay};
use cell_records::{Answer, ContainerState, JobName};
use diego_names::{Key, Name, OutOfMemory};
use std::alloc::Global;
use std::collections::{HashMap, HashSet};

/// Whether a container in this state ended by itself.
pub fn has_ended(state: &ContainerState) -> bool
    ensures { result ≡ has_ended state.now }
{
    match state {
        ContainerState::Completed { .. } => true,
        ContainerState::Reserved | ContainerState::Running => false,
    }
}

/// The instance that a job is of. A task is of none.
pub fn instance_in(job: &JobName) -> Option<Key>
    ensures { result ≡ instance_in job.now }
{
    match job {
        JobName::Lrp(key) => Some(*key),
        JobName::Task(_) => None,
    }
}

/// An instance on that cell of that zone.
pub fn stay_at(cell: &Name, zone: &Name, key: Key) -> Stay
    ensures { result ≡ stay_at cell.now zone.now key }
{
    Stay {
        key,
        cell: *cell,
        zone: *zone,
    }
}

// The instances that have a container on the cell that has not ended.
fn stays_on(alloc: Global, answer: &Answer) -> Result<Vec<Stay>, OutOfMemory>
    ensures { IfOk result (λ list. list.items ≡ stays_on answer.now) }
{
    let list = answer
        .containers
        .items()
        .iter()
        .filter(|container| !has_ended(&container.state))
        .map(|container| container.job)
        .filter_map(|job| instance_in(&job))
        .map(|key| stay_at(&answer.cell, &answer.zone, key))
        .collect(alloc)?;
    Ok(list)
}

// Adds the instances that stand on the cell, if it is open.
fn add_stays(
    alloc: Global,
    list: &mut Vec<Stay>,
    lost: &[Name],
    answer: &Answer,
) -> Result<(), OutOfMemory>
    ensures { OnOk result (list.new.items
        ≡ list.old.items ++ cond (is_open lost.now answer.now) (stays_on answer.now) []) }
{
    if is_open(lost, answer) {
        let mut more = stays_on(alloc, answer)?;
        list.append(&mut more)?;
    }
    Ok(())
}

// Those that stand on none of the cells.
fn outside(alloc: Global, stays: &[Stay], cells: &HashSet<Name>) -> Result<Vec<Stay>, OutOfMemory>
    ensures { IfOk result (λ list. list.items
        ≡ filter (λ s. not (contains same_name cells.now s.cell)) stays.now) }
{
    let list = stays
        .iter()
        .filter(|stay| !cells.contains(&stay.cell))
        .copied()
        .collect(alloc)?;
    Ok(list)
}

/// Where instances stand on silent cells that aren't lost.
pub fn silent_stays(alloc: Global, site: &Site, lost: &[Name]) -> Result<Vec<Stay>, OutOfMemory>
    ensures { IfOk result (λ list. list.items ≡ silent_stays site.now lost.now) }
{
    let gone = set_of(alloc, lost)?;
    let list = outside(alloc, site.silent_stays.items(), &gone)?;
    Ok(list)
}

/// Where instances stand with these cells lost: on the open cells by name, then on silent ones.
pub fn stays(alloc: Global, site: &Site, lost: &[Name]) -> Result<Vec<Stay>, OutOfMemory>
    ensures { IfOk result (λ list. list.items ≡ stays site.now lost.now) }
{
    let mut list = Vec::new(alloc);
    for answer in site.cells.items() {
        add_stays(alloc, &mut list, lost, answer)?;
    }
    let mut silent = silent_stays(alloc, site, lost)?;
    list.append(&mut silent)?;
    Ok(list)
}

/// Of each instance the first cell on which it stands.
#[derive(Drop)]
pub struct Holders {
    cells: HashMap<Key, Name>,
}

impl Holders {
    /// The cells of these instances.
    pub fn of(alloc: Global, stays: &[Stay]) -> Result<Holders, OutOfMemory>
        ensures { IfOk result (λ holders. IsHolders stays.now holders) }
    {
        let mut cells = HashMap::new(alloc);
        let mut at = stays.len();
        while at > 0 {
            at -= 1;
            let stay = stays[at];
            cells.insert(stay.key, stay.cell)?;
        }
        Ok(Holders { cells })
    }

    /// The cell that holds the instance.
    pub fn holder(&self, key: &Key) -> Option<Name>
        ensures { result ≡ found self.now key.now }
    {
        self.cells.get(key).copied()
    }
}
