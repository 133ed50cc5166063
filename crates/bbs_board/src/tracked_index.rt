//! The rows of a board under their index, and beside them what convergence waits for: each transition tells that
//! what it has changed.
ghost use Rattle.std.specs.Prelude.{◌≡◌, ◌+◌, ◌*◌, ◌<◌, ◌≤◌, ◌^◌, [], length, Some, IfOk, IsOk, OnOk};
ghost use Rattle.bbs_model.specs.Step.{IsLegal, events_of, rows_after};
ghost use Rattle.bbs_model.specs.Valid.{IsValid};
ghost use Rattle.bbs_model.specs.Work as asked;

use bbs_index::Index;
use bbs_model::{Command, Events, RowStore};
use bbs_transitions::apply;
use convergence::Steps;
use crash_backoff::Moment;
use diego_names::{List, OutOfMemory};
use differences::{Counted, Differences};
use event_laws::events_tell_all;
use std::alloc::Global;
use std::marker::Model;
use std::sync::ledger::Ledger;

/// An index, and the differences that stand for its rows. Clauses see the rows, and how many of them the
/// transitions may put that there is room for, which are two for each.
#[derive(Drop)]
pub struct TrackedIndex {
    index: Index,
    differences: Differences,
}

impl Model for TrackedIndex {
    ghost use Rattle.std.specs.Prelude.{◌*◌, min};
    ghost use Rattle.bbs_index.specs.Index.{Indexed};
    ghost use Rattle.differences.specs.Standing.{StandsFor};

    ghost Value = { Indexed };

    ghost view = { λ t. record {
      rows = t.index.rows;
      spare = min t.index.spare (2 * t.differences.spare);
    } };

    ghost invariant = { λ t. StandsFor t.differences t.index.rows };
}

impl TrackedIndex {
    /// This index with the differences of its rows. For these the rows are copied and sorted once.
    pub fn of(alloc: Global, index: Index) -> Result<TrackedIndex, OutOfMemory>
        requires { IsValid index.rows }
        ensures { IfOk result (λ tracked. tracked.rows ≡ index.rows) }
    {
        let rows = index.rows(alloc)?;
        let differences = Differences::of(alloc, &rows)?;
        Ok(TrackedIndex { index, differences })
    }

    /// The store of the rows.
    pub fn store(&self) -> &Index
        ensures { result.now.rows ≡ self.now.rows }
    {
        &self.index
    }

    /// Makes room for `n` more transitions. More rows than a u32 can say count as want of memory.
    pub fn reserve(&mut self, n: u32) -> Result<(), OutOfMemory>
        ensures rows { self.new.rows ≡ self.old.rows }
        ensures room { OnOk result (2 * n ≤ self.new.spare) }
        ensures few { OnOk result (n < 2 ^ 31) }
        ensures succeeds { n < 2 ^ 31 → 2 * n ≤ self.old.spare → IsOk result }
        ensures kept { self.old.spare ≤ self.new.spare }
    {
        let Some(rows) = n.checked_mul(2) else {
            return Err(OutOfMemory);
        };
        self.index.reserve(rows)?;
        self.differences.reserve(n)
    }

    /// Makes a legal command a transition. It takes no memory.
    pub fn apply(&mut self, command: &Command) -> Events
        requires valid { IsValid self.old.rows }
        requires legal { IsLegal self.old.rows command.now }
        requires room { 2 ≤ self.old.spare }
        ensures state { self.new.rows ≡ rows_after self.old.rows command.entry.now }
        ensures events { Some result ≡ events_of self.old.rows command.entry.now }
        ensures valid { IsValid self.new.rows }
        ensures spare { self.old.spare ≤ self.new.spare + 2 }
    {
        events_tell_all();
        let events = apply(&mut self.index, command);
        self.differences
            .follow(&self.index, &events.first, events.second.as_ref());
        events
    }

    /// What convergence asks at a moment. It reads one row for each command at most, and takes no memory if
    /// nothing is asked.
    pub fn work<L: Ledger>(
        &self,
        alloc: Global,
        now: Moment,
        steps: &mut Steps<L>,
    ) -> Result<List<Command>, OutOfMemory>
        requires { IsValid self.now.rows }
        ensures work { IfOk result (λ list. list ≡ asked.work self.now.rows now) }
        ensures steps { steps.new ≤ steps.old + 3 * length (asked.work self.now.rows now) + 3 }
        ensures free { asked.work self.now.rows now ≡ [] → IsOk result }
    {
        let mut rows = Counted {
            store: &self.index,
            steps,
        };
        self.differences.list(alloc, &mut rows, now)
    }
}
