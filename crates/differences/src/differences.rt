//! The differences between what a board's rows are and what they are to be, kept along the board.
ghost use Rattle.std.specs.Prelude.{◌≡◌, ◌+◌, ◌*◌, ◌<◌, ◌≤◌, [], length, IfOk, IsOk, OnOk};
ghost use Rattle.std.specs.Option.{option_copied};
ghost use Rattle.bbs_model.specs.Valid.{IsValid};
ghost use Rattle.bbs_model.specs.Work as asked;
ghost use Rattle.bbs_model.specs.declared.rows.Rows.{Rows as TheRows};
ghost use Rattle.differences.specs.Standing.{Follows, StandsFor};

use crate::counted::CountedRows;
use crate::kept::Kept;
use bbs_model::{Command, Event, RowStore, Rows};
use crash_backoff::Moment;
use diego_names::{List, OutOfMemory};
use std::alloc::Global;
use std::marker::Model;

/// Why each cell, domain, place and task of a board is asked for something, kept along the board by what its
/// transitions tell. Clauses see for which rows it stands (`StandsFor`), and for how many transitions more it
/// has room.
#[derive(Drop)]
pub struct Differences {
    kept: Kept,
}

impl Model for Differences {
    ghost use Rattle.differences.specs.Noted.{Noted, noted_of};

    ghost Value = { Noted };

    ghost view = { λ a. noted_of a.kept };
}

impl Differences {
    /// Those of these rows. It takes one pass over them, with some look-ups for each row.
    pub fn of(alloc: Global, rows: &Rows) -> Result<Differences, OutOfMemory>
        requires { IsValid rows.now }
        ensures { IfOk result (λ d. StandsFor d rows.now) }
    {
        Ok(Differences {
            kept: Kept::of(alloc, rows)?,
        })
    }

    /// Makes room for `n` transitions more. It fails only for want of memory.
    pub fn reserve(&mut self, n: u32) -> Result<(), OutOfMemory>
        ensures stays { self.new ≡ record self.old { spare = self.new.spare } }
        ensures room { OnOk result (n ≤ self.new.spare) }
        ensures kept { self.old.spare ≤ self.new.spare }
        ensures succeeds { n ≤ self.old.spare → IsOk result }
        ensures stands { (rows : TheRows) → StandsFor self.old rows → StandsFor self.new rows }
    {
        self.kept.reserve(n)
    }

    /// Goes on to the rows of the store, which is behind the transition that these events tell of.
    pub fn follow<T: RowStore>(&mut self, store: &T, first: &Event, second: Option<&Event>)
        requires follows { Follows self.old first.now (option_copied second) (T.state store.now) }
        requires room { 0 < self.old.spare }
        ensures stands { StandsFor self.new (T.state store.now) }
        ensures spare { self.old.spare ≤ self.new.spare + 1 }
    {
        match second {
            None => self.kept.take_in(store, first),
            Some(second) => {
                self.kept.take_in(store, first);
                self.kept.take_in(store, second);
            }
        }
    }

    /// What convergence asks at a moment. It reads one row for each command at most, and takes no memory if
    /// nothing is asked.
    pub fn list<C: CountedRows>(
        &self,
        alloc: Global,
        rows: &mut C,
        now: Moment,
    ) -> Result<List<Command>, OutOfMemory>
        requires valid { IsValid (C.rows rows.old) }
        requires stands { StandsFor self.now (C.rows rows.old) }
        ensures work { IfOk result (λ list. list ≡ asked.work (C.rows rows.old) now) }
        ensures steps { C.steps rows.new
            ≤ C.steps rows.old + 3 * length (asked.work (C.rows rows.old) now) + 3 }
        ensures rows { C.rows rows.new ≡ C.rows rows.old }
        ensures keeps { C.keeps rows.old rows.new }
        ensures free { asked.work (C.rows rows.old) now ≡ [] → IsOk result }
    {
        let due = self.kept.due(alloc, now)?;
        let list = self.kept.commands(alloc, rows, now, &due)?;
        Ok(list)
    }
}
