//! A board that takes no command with a number below one that it was shown.
ghost use Rattle.std.specs.Prelude.{◌≡◌, ◌<◌, ◌≤◌, ◌+◌, ◌++◌, length, map, OnOk, IfOk};
ghost use Rattle.std.specs.Option.{ForSome};
ghost use Rattle.bbs_board.specs.Doubts.{doubts_in, RoseForEach};
ghost use Rattle.bbs_board.specs.Kept.{Kept, RiseBetween};
ghost use Rattle.bbs_board.specs.View.{rows_of};
ghost use Rattle.bbs_model.specs.Calls.{added};
ghost use Rattle.bbs_model.specs.Replay.{IsLawful};
ghost use Rattle.bbs_model.specs.Valid.{IsValid};
ghost use Rattle.fenced_board.specs.Calls.{ShowsNumber, IsCalledBehind, TakesNumber};
ghost use Rattle.fenced_board.specs.Fences.{IsNewFence, NumbersEach, StaysBehind};

use crate::fence::Fence;
use crate::reply::FencedReply;
use bbs_board::{Board, Closed};
use bbs_model::{CallFault, Command, Reply, Rows};
use diego_names::OutOfMemory;
use disk_trait::Disk;
use std::alloc::Global;
use std::marker::Model;
use std::snapshot::Snapshot;

/// A board for whoever shows the greatest number so far. One number is noted for each item that its log
/// gains.
#[derive(Drop)]
pub struct Fenced<D: Disk> {
    board: Board<D>,
    fence: Fence,
    // The length of the board's log when it came behind the fence, for clauses alone: it has no bytes.
    start: Snapshot<u64>,
}

impl<D: Disk> Model for Fenced<D> {
    ghost use Rattle.fenced_board.specs.Fences.{FencedView, NumbersEach};

    ghost Value = { FencedView D };

    ghost view = { λ f. record { board = f.board; start = f.start.value; fence = f.fence } };

    ghost invariant = { λ f. NumbersEach f.board f.start.value f.fence };
}

// Notes the greatest number for the item of a call that ended so, if it has one.
fn note_item(fence: &mut Fence, end: &Result<Reply, CallFault>, by: u32, command: &Command)
    requires { 1 ≤ fence.old.room }
    ensures numbers { fence.new.numbers ≡ fence.old.numbers
        ++ map (λ item. fence.old.greatest) (added end.entry.now by command.entry.now) }
    ensures room { fence.old.room ≤ fence.new.room
        + length (added end.entry.now by command.entry.now) }
    ensures stays { fence.new
        ≡ record fence.old { numbers = fence.new.numbers; room = fence.new.room } }
{
    match end {
        Ok(Reply::Ok { .. }) => fence.note(),
        Ok(Reply::Same { .. }) => {}
        Ok(Reply::Refused { .. }) => {}
        Err(CallFault::Disk { .. }) => fence.note(),
        Err(CallFault::OutOfMemory) => {}
    }
}

impl<D: Disk> Fenced<D> {
    /// Puts a board behind a fence with this floor. It takes no memory.
    pub fn new(alloc: Global, board: Board<D>, floor: u64) -> Fenced<D>
        ensures board { result.board ≡ board }
        ensures start { result.start ≡ length board.log }
        ensures fence { IsNewFence floor result.fence }
    {
        let place = board.place();
        Fenced {
            board,
            fence: Fence::new(alloc, floor),
            start: Snapshot::of(&place),
        }
    }

    // A call of the board with the greatest number, for which there is room.
    fn call_board(&mut self, by: u32, command: Command) -> Result<Reply, CallFault>
        requires { 1 ≤ self.old.fence.room }
        ensures called { IsCalledBehind D.told D.moment D.fault_count self.old.fence.greatest by
            command self.old self.new result }
        ensures greatest { self.new.fence.greatest ≡ self.old.fence.greatest }
        ensures stays { StaysBehind self.old self.new }
    {
        let end = self.board.call(by, command);
        note_item(&mut self.fence, &end, by, &command);
        end
    }

    // A call with the greatest number.
    fn write(&mut self, by: u32, command: Command) -> Result<FencedReply, CallFault>
        ensures writes { TakesNumber D.told D.moment D.fault_count self.old.fence.greatest by command
            self.old self.new result }
        ensures greatest { self.new.fence.greatest ≡ self.old.fence.greatest }
        ensures stays { StaysBehind self.old self.new }
    {
        if self.fence.reserve(1).is_err() {
            return Err(CallFault::OutOfMemory);
        }
        match self.call_board(by, command) {
            Ok(reply) => Ok(FencedReply::Reply(reply)),
            Err(why) => Err(why),
        }
    }

    /// Shows a number, and does a command by the board unless a greater one was shown before. Then the
    /// number is stale: nothing was done, and no memory was taken. Room for one number more is had
    /// before the board's call; where there is none, the number has been shown all the same.
    pub fn call(&mut self, number: u64, by: u32, command: Command) -> Result<FencedReply, CallFault>
        ensures shows { ShowsNumber number result self.old.fence.greatest self.new.fence.greatest }
        ensures idle { number < self.old.fence.greatest → self.new ≡ self.old }
        ensures writes { self.old.fence.greatest ≤ number →
            TakesNumber D.told D.moment D.fault_count number by command self.old self.new result }
        ensures stays { StaysBehind self.old self.new }
    {
        if !self.fence.show(number) {
            return Ok(FencedReply::StaleFence {
                greatest: self.fence.greatest(),
            });
        }
        self.write(by, command)
    }

    /// Has the memory of the next `n` legal calls at hand, that of their numbers too. Where there is
    /// none now, nothing but the room has changed.
    pub fn reserve(&mut self, n: u32) -> Result<(), OutOfMemory>
        ensures board { self.new.board ≡ record self.old.board { spare = self.new.board.spare } }
        ensures fence { self.new.fence ≡ record self.old.fence { room = self.new.fence.room } }
        ensures start { self.new.start ≡ self.old.start }
        ensures room { OnOk result ((n ≤ self.new.board.spare) × (n ≤ self.new.fence.room)) }
        ensures kept { (self.old.board.spare ≤ self.new.board.spare)
            × (self.old.fence.room ≤ self.new.fence.room) }
    {
        self.board.reserve(n)?;
        self.fence.reserve(n as usize)
    }

    /// The greatest number that was shown, and the floor before the first.
    pub fn greatest(&self) -> u64
        ensures { result ≡ self.now.fence.greatest }
    {
        self.fence.greatest()
    }

    /// For each item that the board's log gained behind the fence the number with which it was written.
    /// They never fall, and none is below the floor.
    pub fn fences(&self) -> &[u64]
        ensures value { result.now ≡ self.now.fence.numbers }
        ensures rising { RiseBetween self.now.fence.floor result.now self.now.fence.greatest }
        ensures each { NumbersEach self.now.board self.now.start self.now.fence }
    {
        self.fence.numbers()
    }

    /// The board's rows. They are copied, in the time and the memory of all of them.
    pub fn rows(&self, alloc: Global) -> Result<Rows, OutOfMemory>
        ensures rows { IfOk result (λ rows. rows ≡ rows_of self.now.board) }
        ensures valid { IsValid (rows_of self.now.board) }
    {
        self.board.rows(alloc)
    }

    /// Closes the board. It takes no memory.
    pub fn close(self) -> Closed<D>
        ensures fields { (result.disk ≡ self.board.disk) × (result.log.items ≡ self.board.log)
            × (result.marks.items ≡ self.board.marks) }
        ensures lawful { IsValid self.board.base × IsLawful self.board.base self.board.log }
        ensures kept { ForSome (D.told self.board.disk)
            (Kept self.board.base self.board.log self.board.marks self.board.since) }
        ensures doubts { RoseForEach (doubts_in self.board.log) self.board.faults
            (D.fault_count self.board.disk) }
    {
        let Fenced {
            board,
            fence: _,
            start: _,
        } = self;
        board.close()
    }
}
