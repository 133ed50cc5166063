//! A cell's containers: by number, and the entries of their jobs beside them.
ghost use Rattle.std.specs.Prelude.{◌≡◌, ℕ, true, false, cond, Some, OnOk, OnErr};
ghost use Rattle.std.specs.BTreeMap.{get, insert_entry, is_at};
ghost use Rattle.std.specs.BTreeSet.{contains};
ghost use Rattle.std.specs.Map.{set_value};
ghost use Rattle.std.specs.Ordering.{nat_cmp};
ghost use Rattle.cell_records.specs.declared.container.Container.{Container as AContainer};
ghost use Rattle.container_store.specs.Changes.{in_state, is_reserved, is_uncompleted};
ghost use Rattle.container_store.specs.Entries.{entry_order, entry_of};
ghost use Rattle.container_store.specs.Store.{number_of};
ghost use Rattle.container_store.specs.declared.entries.JobEntry.{JobEntry as AnEntry};

use crate::entries::{JobEntry, job_entry};
use cell_records::{Container, ContainerState};
use diego_names::OutOfMemory;
use std::collections::{BTreeMap, BTreeSet};

/// Whether a container has room, and does not run yet.
pub fn is_reserved(container: &Container) -> bool
    ensures { result ≡ is_reserved container.now.state }
{
    container.state == ContainerState::Reserved
}

/// Whether a container has not ended.
pub(crate) fn is_uncompleted(container: &Container) -> bool
    ensures { result ≡ is_uncompleted container.now.state }
{
    match container.state {
        ContainerState::Reserved | ContainerState::Running => true,
        ContainerState::Completed { .. } => false,
    }
}

/// Adds a container, whose number is new, and its entry: both, or none for want of memory.
pub(crate) fn put_container(
    containers: &mut BTreeMap<u32, Container>,
    jobs: &mut BTreeSet<JobEntry>,
    container: Container,
) -> Result<(), OutOfMemory>
    requires { contains entry_order jobs.old (entry_of container) ≡ false }
    ensures containers { OnOk result (containers.new.entries
        ≡ insert_entry nat_cmp containers.old.entries (number_of container) container) }
    ensures found { OnOk result ((n : ℕ) → get nat_cmp containers.new n
        ≡ cond (is_at (nat_cmp (number_of container)) n) (Some container) (get nat_cmp containers.old n)) }
    ensures jobs { OnOk result ((q : AnEntry) → contains entry_order jobs.new q
        ≡ cond (is_at (entry_order (entry_of container)) q) true (contains entry_order jobs.old q)) }
    ensures err { OnErr result ((containers.new.entries ≡ containers.old.entries)
        × ((q : AnEntry) → contains entry_order jobs.new q ≡ contains entry_order jobs.old q)) }
{
    let number = container.instance.number;
    let entry = job_entry(&container.job, number);
    jobs.insert(entry)?;
    match containers.insert(number, container) {
        Ok(_) => Ok(()),
        Err(_) => {
            jobs.remove(&entry);
            Err(OutOfMemory)
        }
    }
}

/// The container of that number comes to that state.
pub(crate) fn set_state(
    containers: &mut BTreeMap<u32, Container>,
    number: u32,
    state: ContainerState,
)
    ensures entries { (c : AContainer) → get nat_cmp containers.old number ≡ Some c
        → containers.new.entries
        ≡ set_value (is_at (nat_cmp number)) containers.old.entries (in_state c state) }
    ensures found { (c : AContainer) → get nat_cmp containers.old number ≡ Some c
        → (n : ℕ) → get nat_cmp containers.new n
        ≡ cond (is_at (nat_cmp number) n) (Some (in_state c state)) (get nat_cmp containers.old n) }
{
    if let Some(container) = containers.get_mut(&number) {
        container.state = state;
    }
}
