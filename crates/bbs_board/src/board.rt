//! A board over a disk, for one caller: each transition is on the disk before it is acknowledged, and
//! whatever a stop leaves is opened as the board after a prefix of its log.
ghost use Rattle.std.specs.Prelude.{◌≡◌, ◌<◌, ◌≤◌, false, true, length, OnOk};
ghost use Rattle.std.specs.Option.{ForSome};
ghost use Rattle.disk_trait.specs.Steps.{Goes};
ghost use Rattle.bbs_model.specs.Calls.{Ends, added, is_done, is_disk_fault, is_starved};
ghost use Rattle.bbs_model.specs.Replay.{IsLawful};
ghost use Rattle.bbs_model.specs.Step.{verdict_of, IsLegal};
ghost use Rattle.bbs_model.specs.Valid.{IsValid};
ghost use Rattle.bbs_board.specs.Calls.{Grows, Passes, UsesDisk};
ghost use Rattle.bbs_board.specs.Doubts.{doubts_in, RoseForEach};
ghost use Rattle.bbs_board.specs.Kept.{Kept};
ghost use Rattle.bbs_board.specs.KeptIn.{StaysShort, most_after};
ghost use Rattle.bbs_board.specs.View.{rows_of};

use crate::draft::Draft;
use crate::history::History;
use crate::room::{make_room, prepare_call};
use crate::storage::{store, wants_checkpoint};
use crate::tracked_index::TrackedIndex;
use bbs_codec::write_command;
use bbs_journal::Journal;
use bbs_model::{CallFault, Command, Item, Reply, RowStore, Verdict};
use bbs_transitions::decide;
use diego_names::OutOfMemory;
use disk_trait::Disk;
use std::marker::Model;
use std::snapshot::Snapshot;

/// The rows of a board under their index, with what convergence waits for, and the journal that keeps them.
#[derive(Drop)]
pub struct Board<D: Disk> {
    pub(crate) journal: Journal<D>,
    pub(crate) index: TrackedIndex,
    // The rows that the disk held when it was loaded, for clauses alone: it has no bytes.
    pub(crate) base: Snapshot<TrackedIndex>,
    pub(crate) history: History,
    // The disk's clock and its count of faults at the end of the load.
    pub(crate) since: u64,
    pub(crate) faults: u64,
    // Room for the head of a checkpoint, and the orders of the last one.
    pub(crate) draft: Draft,
}

impl<D: Disk> Model for Board<D> {
    ghost use Rattle.bbs_journal.specs.View.{is_waiting};
    ghost use Rattle.bbs_board.specs.Room.{calls_for, places_in, places_left};
    ghost use Rattle.bbs_board.specs.View.{View, IsSound};

    ghost Value = { View D };

    ghost view = { λ b. record {
      disk = b.journal.disk;
      base = b.base.value.rows;
      log = b.history.log;
      marks = b.history.marks;
      since = b.since;
      faults = b.faults;
      waits = is_waiting b.journal.waiting;
      version = b.journal.version;
      generation = b.journal.generation;
      frames = b.journal.frames;
      spare = calls_for b.index.spare b.history.room (places_left (places_in b.draft) b.index.rows);
    } };

    ghost invariant = { λ b. IsSound D.told D.fault_count b.index.rows b.base.value.rows
        b.history.log b.history.marks b.history.told b.since b.faults b.journal };
}

/// What is left of a board that was closed.
pub struct Closed<D> {
    pub disk: D,
    /// What the board did, oldest first.
    pub log: Vec<Item>,
    /// For each item the disk's clock at the end of its call.
    pub marks: Vec<u64>,
}

impl<D: Disk> Board<D> {
    /// Makes a legal command a transition, by the four device calls of an append. Before them two mend
    /// a gate that an earlier fault left, and eight at most make a checkpoint where the area is full or old;
    /// behind an append that failed at its own gate two close that.
    fn transition(&mut self, by: u32, command: &Command) -> Result<Reply, CallFault>
        requires { IsLegal (rows_of self.old) command.now }
        ensures ends { Ends Verdict.Ok (length self.old.log) (rows_of self.old).next result }
        ensures grows { Grows (is_done result) (added result by command.entry.now)
            (D.moment self.new.disk) self.old self.new }
        ensures fed { 0 < self.old.spare → is_starved result ≡ false }
        ensures does { Goes (D.told self.old.disk) (D.told self.new.disk)
            (Passes self.old.waits Verdict.Ok (is_done result) (rows_of self.old)
            command.entry.now) }
        ensures few { ForSome (D.told self.new.disk)
            (StaysShort (most_after (is_done result) self.old.frames) self.new.frames) }
        ensures uses { UsesDisk D.moment D.fault_count (is_done result) (is_disk_fault result)
            self.old self.new }
    {
        let place = self.history.place();
        let stamp = self.index.store().next();
        let mut payload = [0u8; 512];
        let len = write_command(&mut payload, command);
        let due = wants_checkpoint(&self.journal);
        if prepare_call(&mut self.index, &mut self.history, &mut self.draft, due).is_err() {
            return Err(CallFault::OutOfMemory);
        }
        let stored = store(&mut self.journal, &self.draft.bytes, &payload[..len]);
        let mark = self.journal.clock();
        if stored.is_err() {
            self.history.add(by, command, mark, &None);
            return Err(CallFault::Disk { place });
        }
        let events = self.index.apply(command);
        self.history.add(by, command, mark, &Some(events));
        Ok(Reply::Ok { place, stamp })
    }

    /// Does a command for the caller of this number. A refusal and a Same touch no device and take no
    /// memory. A legal command has all its memory before the first device call; where one of these
    /// fails the rows stay, and the command is a doubt. Where its gate was closed again nothing waits,
    /// and no later stop brings it back; else one may, until the next transition is acknowledged.
    pub fn call(&mut self, by: u32, command: Command) -> Result<Reply, CallFault>
        ensures ends { Ends (verdict_of (rows_of self.old) command) (length self.old.log)
            (rows_of self.old).next result }
        ensures grows { Grows (is_done result) (added result by command)
            (D.moment self.new.disk) self.old self.new }
        ensures fed { 0 < self.old.spare → is_starved result ≡ false }
        ensures does { Goes (D.told self.old.disk) (D.told self.new.disk)
            (Passes self.old.waits (verdict_of (rows_of self.old) command) (is_done result)
            (rows_of self.old) command) }
        ensures few { ForSome (D.told self.new.disk)
            (StaysShort (most_after (is_done result) self.old.frames) self.new.frames) }
        ensures uses { UsesDisk D.moment D.fault_count (is_done result) (is_disk_fault result)
            self.old self.new }
    {
        let place = self.history.place();
        match decide(self.index.store(), &command) {
            Verdict::Ok => self.transition(by, &command),
            Verdict::Same => Ok(Reply::Same { place }),
            Verdict::Refused(why) => Ok(Reply::Refused { why, place }),
        }
    }

    /// Has the memory of the next `n` legal calls at hand: none of them can want any. Where there is
    /// none now, nothing but the room has changed.
    pub fn reserve(&mut self, n: u32) -> Result<(), OutOfMemory>
        ensures stays { self.new ≡ record self.old { spare = self.new.spare } }
        ensures room { OnOk result (n ≤ self.new.spare) }
        ensures kept { self.old.spare ≤ self.new.spare }
    {
        make_room(&mut self.index, &mut self.history, &mut self.draft, n)
    }

    /// Gives the disk back, with what the board did on it.
    pub fn close(self) -> Closed<D>
        ensures fields { (result.disk ≡ self.disk) × (result.log.items ≡ self.log)
            × (result.marks.items ≡ self.marks) }
        ensures lawful { IsValid self.base × IsLawful self.base self.log }
        ensures kept { ForSome (D.told self.disk) (Kept self.base self.log self.marks self.since) }
        ensures doubts { RoseForEach (doubts_in self.log) self.faults (D.fault_count self.disk) }
    {
        let Board {
            journal,
            index: _,
            base: _,
            history,
            since: _,
            faults: _,
            draft: _,
        } = self;
        let History {
            log,
            marks,
            told: _,
        } = history;
        Closed {
            disk: journal.into_disk(),
            log,
            marks,
        }
    }
}
