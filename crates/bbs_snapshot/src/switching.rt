//! The three steps of a switch, one after another.
ghost use Rattle.std.specs.Prelude.{◌≡◌, ◌<◌, ◌+◌, ◌^◌, length, is_ok, is_err};
ghost use Rattle.byte_ports.specs.Cause.{HasCause};
ghost use Rattle.disk_trait.specs.Steps.{Goes};
ghost use Rattle.bbs_journal.specs.Calls.{TakesCalls};
ghost use Rattle.bbs_journal.specs.Switching.{close_calls};
ghost use Rattle.bbs_snapshot.specs.Switches.{CanSwitch, SwitchesAll, KnowsAfterSwitch};

use bbs_journal::{DiskFault, Journal};
use disk_trait::Disk;

/// Makes an area of the next generation with this head and without frames, and goes on there. It takes
/// no memory, and eight device calls, or six where the other header gate is a synced 0. At `DiskFault`
/// the journal stays where it is; where closing or opening the other gate failed, that gate waits to be
/// mended.
pub fn switch<D: Disk>(journal: &mut Journal<D>, head: &[u8]) -> Result<(), DiskFault>
    requires can { CanSwitch journal.old }
    requires fits { length head.now < 2 ^ 32 }
    ensures does { Goes (D.told journal.old.disk) (D.told journal.new.disk)
        (SwitchesAll (is_ok result) journal.old.area journal.old.version journal.old.generation
        journal.new.waiting journal.new.gate head.now) }
    ensures calls { TakesCalls (is_ok result) (close_calls journal.old.gate + 6)
        (D.moment journal.old.disk) (D.moment journal.new.disk) }
    ensures cause { HasCause (is_err result)
        (D.fault_count journal.old.disk) (D.fault_count journal.new.disk) }
    ensures goes_on { KnowsAfterSwitch (is_ok result) (length head.now) journal.old journal.new }
{
    journal.close_other()?;
    journal.write_other(head)?;
    journal.open_other()
}
