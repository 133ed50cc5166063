//! A call of a pair: what is missing on the standby, then the primary, then the standby.
ghost use Rattle.std.specs.Prelude.{◌≡◌, ◌<◌, ◌≤◌, ◌+◌, ◌++◌, ◌↔◌, map, length, None, Some, IsTrue, OnOk, is_ok};
ghost use Rattle.std.specs.Option.{ForSome};
ghost use Rattle.byte_ports.specs.Cause.{HasCause};
ghost use Rattle.bbs_board.specs.Calls.{Grows};
ghost use Rattle.bbs_board.specs.View.{rows_of};
ghost use Rattle.bbs_model.specs.Calls as plain;
ghost use Rattle.bbs_model.specs.Step.{verdict_of};
ghost use Rattle.fenced_board.specs.Fences.{after_showing};
ghost use Rattle.standby_board.specs.Calls.{ShowsFence, IsPairCall, HasCauses, IsSamePair};
ghost use Rattle.standby_board.specs.Images.{StandbyShows};
ghost use Rattle.standby_board.specs.Pairs.{StandsPaired};
ghost use Rattle.standby_board.specs.Steps.{HasRoom, KeepsAll, CatchesUp, lacked_after, told_by};

use crate::answers::{PairFault, PairReply};
use crate::pair::Pair;
use bbs_model::{CallFault, Command, Reply};
use byte_ports::Failed;
use diego_names::OutOfMemory;
use disk_trait::Disk;
use fenced_board::Fence;

// Whether a board has stored the command of a call that ended so.
fn is_done(end: &Result<Reply, CallFault>) -> bool
    ensures { result ≡ plain.is_done end.now }
{
    match end {
        Ok(Reply::Ok { .. }) => true,
        Ok(Reply::Same { .. }) => false,
        Ok(Reply::Refused { .. }) => false,
        Err(_) => false,
    }
}

// What the standby lacks after a call of the primary that ended so.
fn lacked_after(end: &Result<Reply, CallFault>, by: u32, command: Command) -> Option<(u32, Command)>
    ensures { result ≡ lacked_after end.now by command }
{
    match end {
        Ok(Reply::Ok { .. }) => Some((by, command)),
        Ok(Reply::Same { .. }) => None,
        Ok(Reply::Refused { .. }) => None,
        Err(_) => None,
    }
}

// The answer to a call of the primary that ended so, by whether the standby has stored what it lacked then.
fn answer(end: Result<Reply, CallFault>, caught: Result<(), Failed>) -> Result<PairReply, PairFault>
    ensures { result ≡ told_by (is_ok caught) end }
{
    match end {
        Ok(Reply::Ok { place, .. }) if caught.is_err() => Err(PairFault::Behind { place }),
        Ok(reply) => Ok(PairReply::Reply(reply)),
        Err(CallFault::Disk { place }) => Err(PairFault::Disk { place }),
        Err(CallFault::OutOfMemory) => Err(PairFault::OutOfMemory),
    }
}

// Notes the greatest number for the item of a call that ended so, if it has one.
fn note(fence: &mut Fence, end: &Result<Reply, CallFault>, by: u32, command: &Command)
    requires { 1 ≤ fence.old.room }
    ensures numbers { fence.new.numbers ≡ fence.old.numbers
        ++ map (λ item. fence.old.greatest) (plain.added end.entry.now by command.entry.now) }
    ensures stays { fence.new
        ≡ record fence.old { numbers = fence.new.numbers; room = fence.new.room } }
{
    match end {
        Ok(Reply::Ok { .. }) => fence.note(),
        Ok(Reply::Same { .. }) => {}
        Ok(Reply::Refused { .. }) => {}
        Err(CallFault::Disk { .. }) => fence.note(),
        Err(CallFault::OutOfMemory) => {}
    }
}

impl<D: Disk, E: Disk> Pair<D, E> {
    // Shows a number: whether none greater was shown before.
    fn show(&mut self, number: u64) -> bool
        ensures taken { IsTrue result ↔ (self.old.fence.greatest ≤ number) }
        ensures shown { self.new
            ≡ record self.old { fence = after_showing number self.old.fence } }
    {
        self.fence.show(number)
    }

    // Has room for one transition on both boards, and for its number.
    fn make_room(&mut self) -> Result<(), OutOfMemory>
        ensures keeps { KeepsAll self.old self.new }
        ensures room { OnOk result (HasRoom self.new) }
    {
        self.primary.reserve(1)?;
        self.standby.reserve(1)?;
        self.fence.reserve(1)
    }

    // Room for one transition more on the standby, which may have used what it had.
    fn make_room_again(&mut self) -> Result<(), OutOfMemory>
        ensures keeps { KeepsAll self.old self.new }
        ensures room { OnOk result (1 ≤ self.new.standby.spare) }
    {
        self.standby.reserve(1)
    }

    // Does on the standby what is missing there, for which there is room.
    fn store_missing(&mut self, by: u32, command: Command) -> Result<(), Failed>
        requires missing { self.old.missing ≡ Some (by, command) }
        requires room { 1 ≤ self.old.standby.spare }
        ensures catches { CatchesUp E.moment E.fault_count (is_ok result) self.old.missing
            self.new.missing self.old.standby self.new.standby }
        ensures stays { self.new
            ≡ record self.old { standby = self.new.standby; missing = self.new.missing } }
    {
        let end = self.standby.call(by, command);
        if !is_done(&end) {
            return Err(Failed);
        }
        self.missing = None;
        Ok(())
    }

    // Does what is missing on the standby, if anything is, for which there is room.
    fn catch_up(&mut self) -> Result<(), Failed>
        requires { 1 ≤ self.old.standby.spare }
        ensures catches { CatchesUp E.moment E.fault_count (is_ok result) self.old.missing
            self.new.missing self.old.standby self.new.standby }
        ensures stays { self.new
            ≡ record self.old { standby = self.new.standby; missing = self.new.missing } }
    {
        match self.missing {
            None => Ok(()),
            Some((by, command)) => self.store_missing(by, command),
        }
    }

    // A call of the primary with the greatest number, where nothing is missing. What it has stored is
    // missing then.
    fn call_primary(&mut self, by: u32, command: Command) -> Result<Reply, CallFault>
        requires level { self.old.missing ≡ None }
        requires room { 1 ≤ self.old.fence.room }
        ensures ends { plain.Ends (verdict_of (rows_of self.old.primary) command)
            (length self.old.primary.log) (rows_of self.old.primary).next result }
        ensures grows { Grows (plain.is_done result) (plain.added result by command)
            (D.moment self.new.primary.disk) self.old.primary self.new.primary }
        ensures cause { HasCause (plain.is_disk_fault result)
            (D.fault_count self.old.primary.disk) (D.fault_count self.new.primary.disk) }
        ensures numbers { self.new.fence.numbers ≡ self.old.fence.numbers
            ++ map (λ item. self.old.fence.greatest) (plain.added result by command) }
        ensures missing { self.new.missing ≡ lacked_after result by command }
        ensures stays { self.new ≡ record self.old {
          primary = self.new.primary;
          fence = record self.old.fence
              { numbers = self.new.fence.numbers; room = self.new.fence.room };
          missing = self.new.missing;
        } }
    {
        let end = self.primary.call(by, command);
        note(&mut self.fence, &end, by, &command);
        self.missing = lacked_after(&end, by, command);
        end
    }

    // A call with the greatest number, where nothing is missing.
    fn write_level(&mut self, by: u32, command: Command) -> Result<PairReply, PairFault>
        requires level { self.old.missing ≡ None }
        requires room { 1 ≤ self.old.fence.room }
        ensures calls { IsPairCall D.moment E.moment self.old.fence.greatest by command
            self.old self.new result }
        ensures causes { HasCauses D.fault_count E.fault_count result self.old self.new }
        ensures same { IsSamePair self.old self.new }
        ensures greatest { self.new.fence.greatest ≡ self.old.fence.greatest }
    {
        if self.make_room_again().is_err() {
            return Err(PairFault::OutOfMemory);
        }
        let end = self.call_primary(by, command);
        let caught = self.catch_up();
        answer(end, caught)
    }

    // A call with the greatest number.
    fn write(&mut self, by: u32, command: Command) -> Result<PairReply, PairFault>
        ensures calls { IsPairCall D.moment E.moment self.old.fence.greatest by command
            self.old self.new result }
        ensures causes { HasCauses D.fault_count E.fault_count result self.old self.new }
        ensures same { IsSamePair self.old self.new }
        ensures greatest { self.new.fence.greatest ≡ self.old.fence.greatest }
    {
        if self.make_room().is_err() {
            return Err(PairFault::OutOfMemory);
        }
        if self.catch_up().is_err() {
            return Err(PairFault::StandbyDisk {
                place: self.primary.place(),
            });
        }
        self.write_level(by, command)
    }

    // Shows a number, and makes the call unless it is stale.
    fn show_and_write(
        &mut self,
        fence: u64,
        by: u32,
        command: Command,
    ) -> Result<PairReply, PairFault>
        ensures shows { ShowsFence fence result self.old.fence.greatest self.new.fence.greatest }
        ensures idle { fence < self.old.fence.greatest → self.new ≡ self.old }
        ensures calls { self.old.fence.greatest ≤ fence →
            IsPairCall D.moment E.moment fence by command self.old self.new result }
        ensures causes { HasCauses D.fault_count E.fault_count result self.old self.new }
        ensures same { IsSamePair self.old self.new }
    {
        if !self.show(fence) {
            return Ok(PairReply::StaleFence {
                greatest: self.greatest(),
            });
        }
        self.write(by, command)
    }

    /// Shows a number, and does a command on the primary and then on the standby, unless a greater number
    /// was shown before: then the number is stale, nothing was done, and no memory was taken. What is
    /// missing on the standby is done there first; if that fails, the primary isn't called.
    pub fn call(&mut self, fence: u64, by: u32, command: Command) -> Result<PairReply, PairFault>
        ensures shows { ShowsFence fence result self.old.fence.greatest self.new.fence.greatest }
        ensures idle { fence < self.old.fence.greatest → self.new ≡ self.old }
        ensures calls { self.old.fence.greatest ≤ fence →
            IsPairCall D.moment E.moment fence by command self.old self.new result }
        ensures causes { HasCauses D.fault_count E.fault_count result self.old self.new }
        ensures same { IsSamePair self.old self.new }
        ensures stands { StandsPaired D.told E.told self.new }
        ensures images { ForSome (E.told self.new.standby.disk)
            (StandbyShows (E.moment self.new.standby_start.disk) self.new) }
    {
        let end = self.show_and_write(fence, by, command);
        self.holds();
        end
    }
}
