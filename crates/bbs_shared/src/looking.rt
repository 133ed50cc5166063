//! Looks at the shared board. Each waits for its turn, and the others wait while it copies.
use crate::at_desk::AtDesk;
use crate::jobs::{read_events, read_place, read_rows, read_work};
use crate::shared_board::{BoardPass, SharedBoard};
use bbs_model::{Command, Heard, Rows};
use crash_backoff::Moment;
use diego_names::{List, OutOfMemory};
use disk_trait::Disk;
use std::alloc::Global;
use std::sync::Wait;

impl<D: Disk> SharedBoard<D> {
    ghost use Rattle.std.specs.Prelude.{◌≡◌, ◌≤◌, length, IfOk};
    ghost use Rattle.bbs_model.specs.PortView.{Looks, rows_seen};
    ghost use Rattle.bbs_model.specs.Told.{IsHeard};
    ghost use Rattle.bbs_model.specs.Valid.{IsValid};
    ghost use Rattle.bbs_model.specs.Work as asked;
    ghost use Rattle.bbs_shared.specs.Passes.{seen_by, IsSame};

    /// The rows, copied in the memory of all of them.
    pub fn rows<R: Wait>(
        &self,
        rt: &R,
        pass: &mut BoardPass<D>,
        alloc: Global,
    ) -> Result<Rows, OutOfMemory>
        requires board { pass.old.place.table_id ≡ self.now.desk.table.shared.table_id }
        ensures same { IsSame pass.old pass.new }
        ensures looks { Looks (seen_by pass.old) (seen_by pass.new) }
        ensures rows { IfOk result (λ rows. rows ≡ rows_seen (seen_by pass.new)) }
        ensures valid { IsValid (rows_seen (seen_by pass.new)) }
    {
        self.desk
            .turn(rt, pass, |at: &mut AtDesk<D>| read_rows(at, alloc))
    }

    /// What convergence asks at a moment, as the board lists it.
    pub fn work<R: Wait>(
        &self,
        rt: &R,
        pass: &mut BoardPass<D>,
        alloc: Global,
        now: Moment,
    ) -> Result<List<Command>, OutOfMemory>
        requires board { pass.old.place.table_id ≡ self.now.desk.table.shared.table_id }
        ensures same { IsSame pass.old pass.new }
        ensures looks { Looks (seen_by pass.old) (seen_by pass.new) }
        ensures work { IfOk result (λ list. list ≡ asked.work (rows_seen (seen_by pass.new)) now) }
    {
        self.desk
            .turn(rt, pass, |at: &mut AtDesk<D>| read_work(at, alloc, now))
    }

    /// The changes of rows that the items from the place `from` on made, of `max` items at most.
    pub fn events<R: Wait>(
        &self,
        rt: &R,
        pass: &mut BoardPass<D>,
        alloc: Global,
        from: u64,
        max: u32,
    ) -> Result<Heard, OutOfMemory>
        requires board { pass.old.place.table_id ≡ self.now.desk.table.shared.table_id }
        requires from { from ≤ length (seen_by pass.old).seen }
        ensures same { IsSame pass.old pass.new }
        ensures looks { Looks (seen_by pass.old) (seen_by pass.new) }
        ensures heard { let w = seen_by pass.new in
            IfOk result (IsHeard w.base w.seen from max) }
    {
        self.desk.turn(
            rt,
            pass,
            |at: &mut AtDesk<D>| read_events(at, alloc, from, max),
        )
    }

    /// The length of the log.
    pub fn place<R: Wait>(&self, rt: &R, pass: &mut BoardPass<D>) -> u64
        requires board { pass.old.place.table_id ≡ self.now.desk.table.shared.table_id }
        ensures same { IsSame pass.old pass.new }
        ensures looks { Looks (seen_by pass.old) (seen_by pass.new) }
        ensures place { result ≡ length (seen_by pass.new).seen }
    {
        self.desk
            .turn(rt, pass, |at: &mut AtDesk<D>| read_place(at))
    }
}
