//! What a board tells of itself, without a device call.
ghost use Rattle.std.specs.Prelude.{◌≡◌, ◌+◌, ◌*◌, ◌<◌, ◌≤◌, ◌^◌, [], length, IfOk, IsOk};
ghost use Rattle.std.specs.Option.{ForSome};
ghost use Rattle.bbs_model.specs.Replay.{IsLawful};
ghost use Rattle.bbs_model.specs.Step.{verdict_of};
ghost use Rattle.bbs_model.specs.Told.{IsHeard};
ghost use Rattle.bbs_model.specs.Valid.{IsValid};
ghost use Rattle.bbs_model.specs.Work as asked;
ghost use Rattle.bbs_board.specs.Doubts.{doubts_in, RoseForEach};
ghost use Rattle.bbs_board.specs.Kept.{Kept};
ghost use Rattle.bbs_board.specs.View.{rows_of};

use crate::Board;
use bbs_model::{Command, Heard, Item, RowStore, Rows, Verdict, hear};
use bbs_transitions::decide;
use convergence::Steps;
use crash_backoff::Moment;
use diego_names::{List, OutOfMemory};
use disk_trait::Disk;
use std::alloc::Global;
use std::sync::ledger::Ledger;

impl<D: Disk> Board<D> {
    /// What the step of a command comes to, by a constant number of look-ups. It takes no memory.
    pub fn verdict(&self, command: &Command) -> Verdict
        ensures { result ≡ verdict_of (rows_of self.now) command.entry.now }
    {
        decide(self.index.store(), command)
    }

    /// The rows. They are copied, in the time and the memory of all of them.
    pub fn rows(&self, alloc: Global) -> Result<Rows, OutOfMemory>
        ensures rows { IfOk result (λ rows. rows ≡ rows_of self.now) }
        ensures valid { IsValid (rows_of self.now) }
    {
        self.index.store().rows(alloc)
    }

    /// What convergence asks at a moment. It reads one row for each command at most, and takes no memory if
    /// nothing is asked.
    pub fn work<L: Ledger>(
        &self,
        alloc: Global,
        now: Moment,
        steps: &mut Steps<L>,
    ) -> Result<List<Command>, OutOfMemory>
        ensures work { IfOk result (λ list. list ≡ asked.work (rows_of self.now) now) }
        ensures steps { steps.new ≤ steps.old + 3 * length (asked.work (rows_of self.now) now) + 3 }
        ensures free { asked.work (rows_of self.now) now ≡ [] → IsOk result }
    {
        self.index.work(alloc, now, steps)
    }

    /// The changes of rows that the items from the place `from` on made, of `max` items at most, in
    /// the time and the memory of those.
    pub fn events(&self, alloc: Global, from: u64, max: u32) -> Result<Heard, OutOfMemory>
        requires { from ≤ length self.now.log }
        ensures { IfOk result (IsHeard self.now.base self.now.log from max) }
    {
        hear(alloc, &self.history.told, from, max)
    }

    /// What the board did since its load, oldest first.
    pub fn log(&self) -> &[Item]
        ensures { result.now ≡ self.now.log }
    {
        &self.history.log
    }

    /// For each item of the log the disk's clock at the end of its call.
    pub fn marks(&self) -> &[u64]
        ensures { result.now ≡ self.now.marks }
    {
        &self.history.marks
    }

    /// The length of the log.
    pub fn place(&self) -> u64
        ensures { result ≡ length self.now.log }
    {
        self.history.place()
    }

    /// The number of transitions in the board's life.
    pub fn next(&self) -> u64
        ensures value { result ≡ (rows_of self.now).next }
        ensures most { result ≤ 1099511627776 }
    {
        self.index.store().next()
    }

    /// The number of device calls so far.
    pub fn clock(&self) -> u64
        ensures { result ≡ D.moment self.now.disk }
    {
        self.journal.clock()
    }

    /// What holds of each board. It does nothing.
    pub fn holds(&self)
        ensures lawful { IsValid self.now.base × IsLawful self.now.base self.now.log }
        ensures few { length self.now.log < 2 ^ 64 }
        ensures kept { ForSome (D.told self.now.disk)
            (Kept self.now.base self.now.log self.now.marks self.now.since) }
        ensures doubts { RoseForEach (doubts_in self.now.log)
            self.now.faults (D.fault_count self.now.disk) }
    {
        let _place = self.history.place();
    }
}
