//! What the rows of each of the five tables keep.
ghost use Rattle.std.specs.Prelude.{◌≡◌, refl};
ghost use Rattle.bbs_codec.specs.Formats.{desired};
ghost use Rattle.bbs_codec.specs.RowFormats.{actual_in, task_row, cell_row, domain_in};
ghost use Rattle.head_codec.specs.Head.{is_held_before, row_is_running, suits_presence, desired_keep, actual_keep, tasks_keep, cells_keep, domains_keep};
ghost use Rattle.task_records.specs.States.{runner_of};

use crate::kept::HeadRow;
use bbs_codec::{Fields, read_old_actual};
use bbs_model::{
    DomainRow, MOST_ACTUAL, MOST_CELLS, MOST_DOMAINS, MOST_INSTANCES, MOST_PROCESSES, MOST_TASKS,
};
use cell_records::CellRow;
use diego_names::Instance;
use lrp_records::{Actual, Desired, LrpState, Presence};
use task_records::{Task, TaskState};
use wire_fields::FieldFault;

/// Whether the container, if there is one, is of a cell that joined before this transition.
fn is_held_before(next: u64, container: Option<Instance>) -> bool
    ensures { result ≡ is_held_before next container }
{
    match container {
        Some(container) => container.epoch < next,
        None => true,
    }
}

fn is_running(state: LrpState) -> bool
    ensures { result ≡ row_is_running state }
{
    match state {
        LrpState::Running { .. } => true,
        LrpState::Unclaimed | LrpState::Claimed { .. } | LrpState::Crashed => false,
    }
}

/// Whether the row is RUNNING without an error, where it is an EVACUATING or a SUSPECT one.
fn suits_presence(row: &Actual) -> bool
    ensures { result ≡ suits_presence row.now.presence row.now }
{
    match row.presence {
        Presence::Ordinary => true,
        Presence::Evacuating | Presence::Suspect => is_running(row.state) && !row.error,
    }
}

/// The container that runs a task.
fn runner(state: TaskState) -> Option<Instance>
    ensures { result ≡ runner_of state }
{
    match state {
        TaskState::Running { instance, .. } => Some(instance),
        TaskState::Pending | TaskState::Completed { .. } | TaskState::Resolving { .. } => None,
    }
}

impl HeadRow for Desired {
    ghost keeps = { desired_keep };

    ghost formats = { λ _. desired };

    fn read_in(bytes: &[u8], version: u16, at: usize) -> Result<(Desired, usize), FieldFault> {
        Desired::read_at(bytes, at)
    }

    #[tactic(auto, using(crate::proofs::RowLengths::short))]
    fn is_short(self) {
        self.fits();
    }

    fn most() -> usize {
        MOST_PROCESSES as usize
    }

    fn suits(&self, next: u64) -> bool {
        self.instances <= MOST_INSTANCES
    }

    fn wants(&self) -> u32 {
        self.instances
    }

    fn stamp(&self) -> Option<u64> {
        None
    }

    ghost latest = { λ row. refl };
}

impl HeadRow for Actual {
    ghost keeps = { actual_keep };

    ghost formats = { actual_in };

    fn read_in(bytes: &[u8], version: u16, at: usize) -> Result<(Actual, usize), FieldFault> {
        if version == 1 {
            return read_old_actual(bytes, at);
        }
        Actual::read_at(bytes, at)
    }

    #[tactic(auto, using(crate::proofs::RowLengths::short))]
    fn is_short(self) {
        self.fits();
    }

    fn most() -> usize {
        MOST_ACTUAL as usize
    }

    fn suits(&self, next: u64) -> bool {
        is_held_before(next, self.state.holder()) && suits_presence(self)
    }

    fn wants(&self) -> u32 {
        0
    }

    fn stamp(&self) -> Option<u64> {
        None
    }

    ghost latest = { λ row. refl };
}

impl HeadRow for Task {
    ghost keeps = { tasks_keep };

    ghost formats = { λ _. task_row };

    fn read_in(bytes: &[u8], version: u16, at: usize) -> Result<(Task, usize), FieldFault> {
        Task::read_at(bytes, at)
    }

    #[tactic(auto, using(crate::proofs::RowLengths::short))]
    fn is_short(self) {
        self.fits();
    }

    fn most() -> usize {
        MOST_TASKS as usize
    }

    fn suits(&self, next: u64) -> bool {
        self.birth < next && is_held_before(next, runner(self.state))
    }

    fn wants(&self) -> u32 {
        0
    }

    fn stamp(&self) -> Option<u64> {
        Some(self.birth)
    }

    ghost latest = { λ row. refl };
}

impl HeadRow for CellRow {
    ghost keeps = { cells_keep };

    ghost formats = { λ _. cell_row };

    fn read_in(bytes: &[u8], version: u16, at: usize) -> Result<(CellRow, usize), FieldFault> {
        CellRow::read_at(bytes, at)
    }

    #[tactic(auto, using(crate::proofs::RowLengths::short))]
    fn is_short(self) {
        self.fits();
    }

    fn most() -> usize {
        MOST_CELLS as usize
    }

    fn suits(&self, next: u64) -> bool {
        self.epoch < next
    }

    fn wants(&self) -> u32 {
        0
    }

    fn stamp(&self) -> Option<u64> {
        Some(self.epoch)
    }

    ghost latest = { λ row. refl };
}

impl HeadRow for DomainRow {
    ghost keeps = { domains_keep };

    ghost formats = { domain_in };

    fn read_in(bytes: &[u8], version: u16, at: usize) -> Result<(DomainRow, usize), FieldFault> {
        if version == 1 {
            return Err(FieldFault::BadField { at });
        }
        DomainRow::read_at(bytes, at)
    }

    #[tactic(auto, using(crate::proofs::RowLengths::short))]
    fn is_short(self) {
        self.fits();
    }

    fn most() -> usize {
        MOST_DOMAINS as usize
    }

    fn suits(&self, next: u64) -> bool {
        true
    }

    fn wants(&self) -> u32 {
        0
    }

    fn stamp(&self) -> Option<u64> {
        None
    }

    ghost latest = { λ row. refl };
}
