//! The rows of a board, each field by field.
#![tactic(auto, unfolding(crate::specs::Format::seen_at))]

ghost use Rattle.std.specs.Prelude.{◌≡◌};
ghost use Rattle.bbs_codec.specs.RowFormats.{actual, actual_parts, task_row, task_parts, cell_row, cell_parts, domain_row};

use crate::fields::Fields;
use bbs_model::DomainRow;
use cell_records::{Amounts, CellRow};
use crash_backoff::Moment;
use diego_names::{Key, Name};
use lrp_records::{Actual, LrpState, Presence};
use task_records::{Task, TaskState};
use wire_fields::FieldFault;

/// The key, presence and state of an actual row, its count and moment, and its error and domain.
type ActualParts = ((Key, Presence, LrpState), (u32, u32), (bool, Option<Name>));

fn actual_parts(row: Actual) -> ActualParts
    ensures { result ≡ actual_parts row }
{
    (
        (row.key, row.presence, row.state),
        (row.count, row.since.0),
        (row.error, row.domain),
    )
}

impl Fields for Actual {
    ghost format = { actual };

    fn read_at(bytes: &[u8], at: usize) -> Result<(Actual, usize), FieldFault> {
        let (parts, at) = ActualParts::read_at(bytes, at)?;
        let ((key, presence, state), (count, since), (error, domain)) = parts;
        let row = Actual {
            key,
            presence,
            state,
            count,
            since: Moment(since),
            error,
            domain,
        };
        Ok((row, at))
    }

    fn put_at(self, out: &mut [u8], at: usize) -> usize {
        actual_parts(self).put_at(out, at)
    }

    fn fits(self) {
        actual_parts(self).fits();
    }
}

/// The name, birth and state of a task, its moment and sizes, and its tag.
type TaskParts = ((Name, u64, TaskState), (u32, u32, u32), Option<Name>);

fn task_parts(row: Task) -> TaskParts
    ensures { result ≡ task_parts row }
{
    (
        (row.name, row.birth, row.state),
        (row.since.0, row.memory, row.disk),
        row.tag,
    )
}

impl Fields for Task {
    ghost format = { task_row };

    fn read_at(bytes: &[u8], at: usize) -> Result<(Task, usize), FieldFault> {
        let (parts, at) = TaskParts::read_at(bytes, at)?;
        let ((name, birth, state), (since, memory, disk), tag) = parts;
        let row = Task {
            name,
            birth,
            state,
            since: Moment(since),
            memory,
            disk,
            tag,
        };
        Ok((row, at))
    }

    fn put_at(self, out: &mut [u8], at: usize) -> usize {
        task_parts(self).put_at(out, at)
    }

    fn fits(self) {
        task_parts(self).fits();
    }
}

/// A cell with its zone and tag, its amounts, and its epoch, lease and whether it is emptied.
type CellParts = ((Name, Name, Option<Name>), Amounts, (u64, u64, bool));

fn cell_parts(row: CellRow) -> CellParts
    ensures { result ≡ cell_parts row }
{
    (
        (row.cell, row.zone, row.tag),
        row.totals,
        (row.epoch, row.until, row.evacuating),
    )
}

impl Fields for CellRow {
    ghost format = { cell_row };

    fn read_at(bytes: &[u8], at: usize) -> Result<(CellRow, usize), FieldFault> {
        let (parts, at) = CellParts::read_at(bytes, at)?;
        let ((cell, zone, tag), totals, (epoch, until, evacuating)) = parts;
        let row = CellRow {
            cell,
            zone,
            tag,
            totals,
            epoch,
            until,
            evacuating,
        };
        Ok((row, at))
    }

    fn put_at(self, out: &mut [u8], at: usize) -> usize {
        cell_parts(self).put_at(out, at)
    }

    fn fits(self) {
        cell_parts(self).fits();
    }
}

impl Fields for DomainRow {
    ghost format = { domain_row };

    fn read_at(bytes: &[u8], at: usize) -> Result<(DomainRow, usize), FieldFault> {
        let (domain, at) = Name::read_at(bytes, at)?;
        let (until, at) = <Option<u64>>::read_at(bytes, at)?;
        Ok((DomainRow { domain, until }, at))
    }

    fn put_at(self, out: &mut [u8], at: usize) -> usize {
        (self.domain, self.until).put_at(out, at)
    }

    fn fits(self) {
        (self.domain, self.until).fits();
    }
}
