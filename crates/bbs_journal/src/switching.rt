//! The three steps by which a journal goes on in the other area. Its header gate is opened last, when the
//! header, the head and a closed gate behind them are on the disk.
ghost use Rattle.std.specs.Prelude.{◌≡◌, ◌<◌, ◌+◌, ◌^◌, length, is_ok, is_err};
ghost use Rattle.byte_ports.specs.Cause.{HasCause};
ghost use Rattle.disk_trait.specs.Past as past;
ghost use Rattle.disk_trait.specs.Steps.{Goes};
ghost use Rattle.bbs_journal.specs.Calls.{TakesCalls};
ghost use Rattle.bbs_journal.specs.Switching.{ClosesOther, WritesOther, OpensOther, close_calls, with_closed, with_written, with_opened, size_written, CanOpen, CanWrite};
ghost use Rattle.bbs_journal.specs.View.{IsCalm};
ghost use Rattle.bbs_journal.specs.declared.other_gate.OtherGate.TheVariants as gates;

use crate::area_writing::{new_header, write_area};
use crate::header::NEWEST;
use crate::journal::{CLOSED, OPEN};
use crate::other_gate::size_written;
use crate::synced::write_synced;
use crate::{DiskFault, Journal, OtherGate, Waiting};
use disk_trait::{Area, Disk};

/// The area that isn't this one.
pub(crate) fn other(area: Area) -> Area
    ensures { result ≡ past.other area }
{
    match area {
        Area::A => Area::B,
        Area::B => Area::A,
    }
}

impl<D: Disk> Journal<D> {
    // The other gate may be any byte, or missing.
    fn close_loose(&mut self) -> Result<(), DiskFault>
        requires calm { IsCalm self.old }
        requires loose { self.old.gate ≡ gates.Loose }
        ensures does { Goes (D.told self.old.disk) (D.told self.new.disk)
            (ClosesOther self.old.area gates.Loose self.old.generation (is_ok result)) }
        ensures calls { TakesCalls (is_ok result) 2
            (D.moment self.old.disk) (D.moment self.new.disk) }
        ensures cause { HasCause (is_err result)
            (D.fault_count self.old.disk) (D.fault_count self.new.disk) }
        ensures leaves { self.new ≡ with_closed (is_ok result) self.old self.new.disk }
    {
        // Until it is closed a fault leaves it in doubt.
        self.waiting = Waiting::Header;
        write_synced(&mut self.disk, other(self.area), 0, &CLOSED)?;
        self.waiting = Waiting::Nothing;
        self.gate = OtherGate::Shut;
        Ok(())
    }

    /// Closes the header gate of the other area, by a write and a sync. Where it is a synced 0 it makes
    /// no device call: bytes that were not synced may stand behind it. After a fault the gate waits to
    /// be mended.
    pub fn close_other(&mut self) -> Result<(), DiskFault>
        requires { IsCalm self.old }
        ensures does { Goes (D.told self.old.disk) (D.told self.new.disk)
            (ClosesOther self.old.area self.old.gate self.old.generation (is_ok result)) }
        ensures calls { TakesCalls (is_ok result) (close_calls self.old.gate)
            (D.moment self.old.disk) (D.moment self.new.disk) }
        ensures cause { HasCause (is_err result)
            (D.fault_count self.old.disk) (D.fault_count self.new.disk) }
        ensures leaves { self.new ≡ with_closed (is_ok result) self.old self.new.disk }
    {
        match self.gate {
            OtherGate::Loose => self.close_loose(),
            OtherGate::Shut => Ok(()),
            OtherGate::Written { .. } => {
                self.gate = OtherGate::Shut;
                Ok(())
            }
        }
    }

    /// Writes the header of the next generation behind the closed gate of the other area, with this head
    /// and a closed gate behind it, by four device calls, and takes no memory. After a fault the header
    /// gate is a synced 0 still.
    pub fn write_other(&mut self, head: &[u8]) -> Result<(), DiskFault>
        requires can { CanWrite self.old }
        requires fits { length head.now < 2 ^ 32 }
        ensures does { Goes (D.told self.old.disk) (D.told self.new.disk)
            (WritesOther self.old.area self.old.generation head.now (is_ok result)) }
        ensures calls { TakesCalls (is_ok result) 4
            (D.moment self.old.disk) (D.moment self.new.disk) }
        ensures cause { HasCause (is_err result)
            (D.fault_count self.old.disk) (D.fault_count self.new.disk) }
        ensures leaves { self.new ≡
            with_written (is_ok result) (length head.now) self.old self.new.disk }
    {
        let size = head.len() as u32;
        let header = new_header(self.generation + 1, size);
        write_area(&mut self.disk, other(self.area), &header, head)?;
        self.gate = OtherGate::Written { size };
        Ok(())
    }

    /// Opens the header gate of the other area, by a write and a sync. At `Ok` the journal goes on there,
    /// without frames; after a fault it stays where it is, and that gate waits to be mended.
    pub fn open_other(&mut self) -> Result<(), DiskFault>
        requires { CanOpen self.old }
        ensures does { Goes (D.told self.old.disk) (D.told self.new.disk)
            (OpensOther self.old.area self.old.generation (is_ok result)) }
        ensures calls { TakesCalls (is_ok result) 2
            (D.moment self.old.disk) (D.moment self.new.disk) }
        ensures cause { HasCause (is_err result)
            (D.fault_count self.old.disk) (D.fault_count self.new.disk) }
        ensures leaves { self.new ≡
            with_opened (is_ok result) (size_written self.old.gate) self.old self.new.disk }
    {
        let area = other(self.area);
        let size = size_written(self.gate);
        // From here on a fault leaves the gate in doubt.
        self.waiting = Waiting::Header;
        write_synced(&mut self.disk, area, 0, &OPEN)?;
        self.waiting = Waiting::Nothing;
        self.area = area;
        self.version = NEWEST;
        self.generation += 1;
        self.end = 23 + size as u64;
        self.frames = 0;
        self.gate = OtherGate::Loose;
        Ok(())
    }
}
