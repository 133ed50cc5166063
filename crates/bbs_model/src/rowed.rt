//! Rows that hold their own keys.
ghost use Rattle.std.specs.Prelude.{◌≡◌};
ghost use Rattle.diego_names.proofs.Public.{IsKeyOrder-name_order};
ghost use Rattle.lrp_records.specs.Place.{place_of};
ghost use Rattle.lrp_records.proofs.Public.{IsKeyOrder-place_order};
ghost use Rattle.row_tables.specs.Table.{IsKeyOrder};
ghost use Rattle.bbs_model.specs.Tables.{process_of, task_name_of, cell_name_of, domain_name_of};

use crate::DomainRow;
use cell_records::CellRow;
use diego_names::{Key, Name};
use lrp_records::{Actual, Desired, Presence};
use std::hash::Hash;
use task_records::Task;

/// A row that holds its own key.
pub trait Rowed: Copy {
    /// What tells rows apart and orders them.
    type Key: Copy + Ord + Hash;

    // The key that a row holds.
    ghost key: { Self → Self.Key };

    fn key(&self) -> Self::Key
        ensures { result ≡ key self.now };

    // Any two keys compare, and only equal ones tie.
    ghost ordered: { IsKeyOrder Self.Key.cmp };
}

impl Rowed for Desired {
    type Key = Name;

    ghost key = { process_of };

    ghost ordered = { IsKeyOrder-name_order };

    fn key(&self) -> Name {
        self.process
    }
}

impl Rowed for Actual {
    type Key = (Key, Presence);

    ghost key = { place_of };

    ghost ordered = { IsKeyOrder-place_order };

    fn key(&self) -> (Key, Presence) {
        self.place()
    }
}

impl Rowed for Task {
    type Key = Name;

    ghost key = { task_name_of };

    ghost ordered = { IsKeyOrder-name_order };

    fn key(&self) -> Name {
        self.name
    }
}

impl Rowed for CellRow {
    type Key = Name;

    ghost key = { cell_name_of };

    ghost ordered = { IsKeyOrder-name_order };

    fn key(&self) -> Name {
        self.cell
    }
}

impl Rowed for DomainRow {
    type Key = Name;

    ghost key = { domain_name_of };

    ghost ordered = { IsKeyOrder-name_order };

    fn key(&self) -> Name {
        self.domain
    }
}

// A place among the actual rows is its own key.
impl Rowed for (Key, Presence) {
    type Key = (Key, Presence);

    ghost key = { λ place. place };

    ghost ordered = { IsKeyOrder-place_order };

    fn key(&self) -> (Key, Presence) {
        *self
    }
}
