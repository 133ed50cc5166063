//! A locket over a disk, for one caller: each change is on the disk before it is acknowledged.
ghost use Rattle.std.specs.Prelude.{◌≡◌};
ghost use Rattle.disk_trait.specs.Steps.{Goes};
ghost use Rattle.locket.specs.Calls.{EndsLock, lock_added, GrowsLocks, DoesLock, LockUses, is_lock_disk_fault};
ghost use Rattle.locket.specs.Lives.{state_of};
ghost use Rattle.locket.specs.Steps.{lock_step};
ghost use Rattle.locket.specs.View.{life_of};
ghost use Rattle.locket.specs.declared.verdict.LockVerdict.TheVariants.{Changes};

use crate::bytes::fits;
use crate::command::LockCommand;
use crate::deciding::step;
use crate::reply::{LockFault, LockReply};
use crate::state::LockState;
use crate::verdict::LockVerdict;
use disk_trait::Disk;
use payload_log::PayloadLog;
use std::marker::Model;

/// The state of a locket, and the journal that keeps its life.
#[derive(Drop)]
pub struct Locket<D: Disk> {
    pub(crate) log: PayloadLog<D, LockCommand>,
    pub(crate) state: LockState,
}

impl<D: Disk> Model for Locket<D> {
    ghost use Rattle.locket.specs.Opening.{commands_in};
    ghost use Rattle.locket.specs.View.{LocketView, IsSoundLocket};

    ghost Value = { LocketView D };

    ghost view = { λ l. record {
      disk = l.log.disk;
      base = commands_in l.log.start.payloads;
      log = l.log.log;
      marks = l.log.marks;
      since = l.log.since;
      faults = l.log.faults;
      waits = l.log.waits;
    } };

    ghost invariant = { λ l. IsSoundLocket l.log l.state };
}

impl<D: Disk> Locket<D> {
    /// Makes a command that changes the state a part of the locket's life, by the four device calls of
    /// an append. Two more come first where an earlier fault left a gate to be mended, and two last where
    /// the append failed at its own gate.
    fn change(
        &mut self,
        command: &LockCommand,
        next: LockState,
        answer: LockReply,
    ) -> Result<LockReply, LockFault>
        requires { lock_step (state_of (life_of self.old)) command.now ≡ Changes next answer }
        ensures ends { EndsLock (Changes next answer) result }
        ensures grows { GrowsLocks (lock_added (Changes next answer) result command.entry.now)
            (D.moment self.new.disk) self.old self.new }
        ensures does { Goes (D.told self.old.disk) (D.told self.new.disk)
            (DoesLock (lock_added (Changes next answer) result command.entry.now)
            self.old.waits self.new.waits (life_of self.old)) }
        ensures uses { LockUses D.moment D.fault_count
            (lock_added (Changes next answer) result command.entry.now)
            (is_lock_disk_fault result) self.old self.new }
    {
        fits(command);
        if self.log.reserve().is_err() {
            return Err(LockFault::OutOfMemory);
        }
        if self.log.add(command).is_err() {
            return Err(LockFault::Disk);
        }
        self.state = next;
        Ok(answer)
    }

    /// Does a command. What changes nothing touches no device and takes no memory. A change has all its
    /// memory before the first device call; where one of these fails the state stays, and the command is
    /// a doubt. Where its gate was closed again nothing waits, and no later stop brings it back; else one
    /// may, until the next change is acknowledged.
    pub fn call(&mut self, command: LockCommand) -> Result<LockReply, LockFault>
        ensures ends { EndsLock (lock_step (state_of (life_of self.old)) command) result }
        ensures grows { GrowsLocks (lock_added (lock_step (state_of (life_of self.old)) command)
            result command) (D.moment self.new.disk) self.old self.new }
        ensures does { Goes (D.told self.old.disk) (D.told self.new.disk)
            (DoesLock (lock_added (lock_step (state_of (life_of self.old)) command) result command)
            self.old.waits self.new.waits (life_of self.old)) }
        ensures uses { LockUses D.moment D.fault_count
            (lock_added (lock_step (state_of (life_of self.old)) command) result command)
            (is_lock_disk_fault result) self.old self.new }
    {
        match step(&self.state, &command) {
            LockVerdict::Changes(next, answer) => self.change(&command, next, answer),
            LockVerdict::Stays(answer) => Ok(answer),
        }
    }
}
