//! One write that is on the disk before the next call.
ghost use Rattle.std.specs.Prelude.{◌≡◌, ◌+◌, ◌≤◌, true, length, is_ok, is_err};
ghost use Rattle.std.specs.Option.{ForSome};
ghost use Rattle.byte_ports.specs.Cause.{HasCause};
ghost use Rattle.disk_trait.specs.Past.{content};
ghost use Rattle.disk_trait.specs.Steps.{Goes};
ghost use Rattle.bbs_journal.specs.Calls.{WritesSynced, TakesCalls};

use byte_ports::Failed;
use disk_trait::{Area, Disk};

/// Writes and syncs: two device calls. After `Failed` the range may hold any bytes.
pub(crate) fn write_synced<D: Disk>(
    disk: &mut D,
    area: Area,
    at: u64,
    bytes: &[u8],
) -> Result<(), Failed>
    requires { ForSome (D.told disk.old) (λ p. at ≤ length (content p area)) }
    ensures does { Goes (D.told disk.old) (D.told disk.new)
        (WritesSynced (is_ok result) area at bytes.now) }
    ensures calls { TakesCalls (is_ok result) 2 (D.moment disk.old) (D.moment disk.new) }
    ensures cause { HasCause (is_err result) (D.fault_count disk.old) (D.fault_count disk.new) }
{
    disk.write_at(area, at, bytes)?;
    disk.sync(area)
}
