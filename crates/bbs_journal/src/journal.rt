//! A frame is a gate, a length and a payload. It counts where its gate is open, and the gate is
//! opened last, when the payload and the next closed gate behind it are on the disk.
ghost use Rattle.std.specs.Prelude.{◌≡◌, ◌<◌, ◌+◌, ◌*◌, ◌^◌, false, true, length, is_ok, is_err};
ghost use Rattle.std.specs.Option.{ForSome};
ghost use Rattle.byte_ports.specs.Cause.{HasCause};
ghost use Rattle.disk_trait.specs.Steps.{Goes};
ghost use Rattle.bbs_journal.specs.Frames.{IsPayload};
ghost use Rattle.bbs_journal.specs.Header.{IsVersion};
ghost use Rattle.bbs_journal.specs.View.{IsKept, is_waiting};
ghost use Rattle.bbs_journal.specs.Calls.{AddsFrame, WritesFrame, Closes, GrowsBy, Settles, Fits, TakesCalls, mend_calls};
ghost use Rattle.bbs_journal.specs.Switching.{ClosesHeader};
ghost use Rattle.bbs_journal.specs.declared.waiting.Waiting.TheVariants.{Nothing, Frame, Header};

use crate::body::{LONGEST, put_body};
use crate::place::Place;
use crate::switching::other;
use crate::synced::write_synced;
use crate::waiting::is_waiting;
use crate::{DiskFault, OtherGate, Waiting};
use disk_trait::{Area, Disk};
use std::marker::Model;

/// An open gate. A reader takes any byte but 0 for one.
pub(crate) const OPEN: [u8; 1] = [1];

/// A closed gate.
pub(crate) const CLOSED: [u8; 1] = [0];

/// The frames of one area, and where the next one goes. After a failed call a gate may have to be
/// mended before the next append or switch.
#[derive(Drop)]
pub struct Journal<D: Disk> {
    pub(crate) disk: D,
    pub(crate) area: Area,
    pub(crate) version: u16,
    pub(crate) generation: u64,
    pub(crate) end: u64,
    pub(crate) frames: u64,
    pub(crate) waiting: Waiting,
    pub(crate) broken: bool,
    pub(crate) gate: OtherGate,
}

impl<D: Disk> Model for Journal<D> {
    ghost use Rattle.std.specs.Prelude.{ℕ, ◌+◌, ◌*◌, ◌^◌, ◌<◌};
    ghost use Rattle.std.specs.Option.{ForSome};
    ghost use Rattle.bbs_journal.specs.Header.{IsVersion};
    ghost use Rattle.bbs_journal.specs.View.{JournalView, IsKept};

    ghost Value = { JournalView D };

    ghost view = { λ j. record {
      disk = j.disk;
      area = j.area;
      version = j.version;
      generation = j.generation;
      end = j.end;
      frames = j.frames;
      waiting = j.waiting;
      broken = j.broken;
      gate = j.gate;
    } };

    ghost invariant = { λ j. (j.end < 2 ^ 33 + 515 * j.frames)
        × ForSome (D.told j.disk)
        (IsKept j.area j.version j.generation j.end j.frames j.waiting j.broken j.gate)
        × IsVersion j.version };
}

impl<D: Disk> Journal<D> {
    /// Goes on with what was found on the disk. Nothing is in doubt.
    pub(crate) fn resume(disk: D, found: Place) -> Journal<D>
        requires small { found.end < 2 ^ 33 + 515 * found.frames }
        requires kept { ForSome (D.told disk) (IsKept found.area found.version found.generation
            found.end found.frames Nothing found.broken found.gate) }
        requires read { IsVersion found.version }
        ensures { result ≡ record {
          disk = disk;
          area = found.area;
          version = found.version;
          generation = found.generation;
          end = found.end;
          frames = found.frames;
          waiting = Nothing;
          broken = found.broken;
          gate = found.gate;
        } }
    {
        Journal {
            disk,
            area: found.area,
            version: found.version,
            generation: found.generation,
            end: found.end,
            frames: found.frames,
            waiting: Waiting::Nothing,
            broken: found.broken,
            gate: found.gate,
        }
    }

    /// Adds a frame by four device calls, and takes no memory. At `Ok` the payload is acknowledged:
    /// each later stop leaves it. At `DiskFault` it is refused, and once a `mend` answers `Ok` no stop
    /// leaves it.
    pub fn append(&mut self, payload: &[u8]) -> Result<(), DiskFault>
        requires { Fits payload.now self.old }
        ensures does { Goes (D.told self.old.disk) (D.told self.new.disk)
            (AddsFrame self.old.area (is_ok result) (is_waiting self.new.waiting) payload.now self.old.end) }
        ensures bytes { is_ok result ≡ true → Goes (D.told self.old.disk) (D.told self.new.disk)
            (WritesFrame self.old.area self.old.end payload.now) }
        ensures calls { TakesCalls (is_ok result) 4
            (D.moment self.old.disk) (D.moment self.new.disk) }
        ensures cause { HasCause (is_err result)
            (D.fault_count self.old.disk) (D.fault_count self.new.disk) }
        ensures grows { GrowsBy (is_ok result) (length payload.now) self.old self.new }
    {
        let mut body = [0u8; LONGEST];
        let len = put_body(&mut body, payload);
        write_synced(&mut self.disk, self.area, self.end + 1, &body[..len])?;
        // From here on a fault leaves the gate in doubt.
        self.waiting = Waiting::Frame;
        write_synced(&mut self.disk, self.area, self.end, &OPEN)?;
        self.waiting = Waiting::Nothing;
        self.end += len as u64;
        self.frames += 1;
        Ok(())
    }

    // The gate behind the last frame waits.
    fn mend_frame(&mut self) -> Result<(), DiskFault>
        requires waits { self.old.waiting ≡ Frame }
        requires whole { self.old.broken ≡ false }
        ensures does { Goes (D.told self.old.disk) (D.told self.new.disk)
            (Closes self.old.area (is_ok result) self.old.end) }
        ensures calls { TakesCalls (is_ok result) 2
            (D.moment self.old.disk) (D.moment self.new.disk) }
        ensures cause { HasCause (is_err result)
            (D.fault_count self.old.disk) (D.fault_count self.new.disk) }
        ensures settles { Settles (is_ok result) self.old self.new }
    {
        write_synced(&mut self.disk, self.area, self.end, &CLOSED)?;
        self.waiting = Waiting::Nothing;
        Ok(())
    }

    // The header gate of the other area waits.
    fn mend_header(&mut self) -> Result<(), DiskFault>
        requires waits { self.old.waiting ≡ Header }
        ensures does { Goes (D.told self.old.disk) (D.told self.new.disk)
            (ClosesHeader self.old.area self.old.gate self.old.generation (is_ok result)) }
        ensures calls { TakesCalls (is_ok result) 2
            (D.moment self.old.disk) (D.moment self.new.disk) }
        ensures cause { HasCause (is_err result)
            (D.fault_count self.old.disk) (D.fault_count self.new.disk) }
        ensures settles { Settles (is_ok result) self.old self.new }
    {
        write_synced(&mut self.disk, other(self.area), 0, &CLOSED)?;
        self.waiting = Waiting::Nothing;
        self.gate = OtherGate::Shut;
        Ok(())
    }

    /// Closes the gate that a failed call may have left open, by a write and a sync: that behind the
    /// last frame, or the header gate of the other area. It makes no device call where nothing waits.
    pub fn mend(&mut self) -> Result<(), DiskFault>
        requires { self.old.broken ≡ false }
        ensures frame { self.old.waiting ≡ Frame → Goes (D.told self.old.disk)
            (D.told self.new.disk) (Closes self.old.area (is_ok result) self.old.end) }
        ensures header { self.old.waiting ≡ Header → Goes (D.told self.old.disk)
            (D.told self.new.disk)
            (ClosesHeader self.old.area self.old.gate self.old.generation (is_ok result)) }
        ensures cause { HasCause (is_err result)
            (D.fault_count self.old.disk) (D.fault_count self.new.disk) }
        ensures calls { TakesCalls (is_ok result) (mend_calls (is_waiting self.old.waiting))
            (D.moment self.old.disk) (D.moment self.new.disk) }
        ensures settles { Settles (is_ok result) self.old self.new }
    {
        match self.waiting {
            Waiting::Nothing => Ok(()),
            Waiting::Frame => self.mend_frame(),
            Waiting::Header => self.mend_header(),
        }
    }

    /// The place of the gate behind the last frame.
    pub fn end(&self) -> u64
        ensures { result ≡ self.now.end }
    {
        self.end
    }

    /// How many frames were acknowledged.
    pub fn frames(&self) -> u64
        ensures { result ≡ self.now.frames }
    {
        self.frames
    }

    /// The area that holds the frames.
    pub fn area(&self) -> Area
        ensures { result ≡ self.now.area }
    {
        self.area
    }

    /// The format version of that area, 1 or 2. It is 2 after each switch.
    pub fn version(&self) -> u16
        ensures value { result ≡ self.now.version }
        ensures read { IsVersion result }
    {
        self.version
    }

    /// The generation of that area, at least 1.
    pub fn generation(&self) -> u64
        ensures { result ≡ self.now.generation }
    {
        self.generation
    }

    /// The number of device calls that the disk has had.
    pub fn clock(&self) -> u64
        ensures { result ≡ D.moment self.now.disk }
    {
        self.disk.clock()
    }

    /// Whether a gate has to be mended before the next append or switch.
    pub fn waits(&self) -> bool
        ensures { result ≡ is_waiting self.now.waiting }
    {
        is_waiting(self.waiting)
    }

    /// Gives the disk back.
    pub fn into_disk(self) -> D
        ensures { result ≡ self.disk }
    {
        let Journal {
            disk,
            area: _,
            version: _,
            generation: _,
            end: _,
            frames: _,
            waiting: _,
            broken: _,
            gate: _,
        } = self;
        disk
    }
}
