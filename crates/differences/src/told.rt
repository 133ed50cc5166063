//! What is kept of a row under its own key.
ghost use Rattle.std.specs.Prelude.{◌≡◌};
ghost use Rattle.std.specs.Option.{option_map};
ghost use Rattle.differences.specs.Gathering as kept;
ghost use Rattle.work_causes.specs.Causes as causes_told;

use bbs_model::{DomainRow, Rowed};
use cell_records::CellRow;
use lrp_records::Desired;
use task_records::Task;
use work_causes::{Cause, Lease, task_cause};

/// A row of which something is kept under its own key.
pub(crate) trait Told: Rowed {
    /// What is kept.
    type Value: Copy;

    // What is kept of a row.
    ghost told: { Self → Self.Value };

    fn told(&self) -> Self::Value
        ensures { result ≡ told self.now };
}

impl Told for Desired {
    type Value = u32;

    ghost told = { kept.instances_of };

    fn told(&self) -> u32 {
        self.instances
    }
}

impl Told for Task {
    type Value = Cause;

    ghost told = { causes_told.task_cause };

    fn told(&self) -> Cause {
        task_cause(self)
    }
}

impl Told for CellRow {
    type Value = Lease;

    ghost told = { causes_told.lease_of };

    fn told(&self) -> Lease {
        Lease {
            epoch: self.epoch,
            until: self.until,
        }
    }
}

impl Told for DomainRow {
    type Value = Option<u64>;

    ghost told = { kept.until_of };

    fn told(&self) -> Option<u64> {
        self.until
    }
}

/// What is kept of a row, if there is one.
pub(crate) fn told_of<X: Told>(row: &Option<X>) -> Option<X::Value>
    ensures { result ≡ option_map X.told row.now }
{
    match row {
        None => None,
        Some(row) => Some(row.told()),
    }
}
