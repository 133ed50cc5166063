//! The device calls of an opening. Each looks at an area and changes nothing, but for the first two,
//! which make what is there sure to stay.
ghost use Rattle.std.specs.Prelude.{◌≡◌, ◌+◌, ◌≤◌, true, is_ok, is_err, length, take, drop, IfOk};
ghost use Rattle.byte_ports.specs.Cause.{HasCause};
ghost use Rattle.disk_trait.specs.Past.{Image};
ghost use Rattle.disk_trait.specs.Steps.{Goes};
ghost use Rattle.bbs_journal.specs.Header.{front};
ghost use Rattle.disk_trait.specs.Shows.{Shows, Peeks, Syncs};

use crate::header::FRONT;
use byte_ports::Failed;
use disk_trait::{Area, Disk};

/// Syncs both areas.
pub(crate) fn settle<D: Disk>(disk: &mut D) -> Result<(), Failed>
    ensures does { Goes (D.told disk.old) (D.told disk.new) (Syncs (is_ok result)) }
    ensures cause { HasCause (is_err result) (D.fault_count disk.old) (D.fault_count disk.new) }
{
    disk.sync(Area::A)?;
    disk.sync(Area::B)
}

/// The first bytes of an area, as many as it has of them.
#[derive(Clone, Copy)]
pub(crate) struct Front {
    room: [u8; FRONT],
    count: usize,
    ghost within: { count ≤ 31 },
    ghost full: { length room ≡ 31 },
}

impl Front {
    pub(crate) fn bytes(&self) -> &[u8]
        ensures { result.now ≡ take self.now.count self.now.room }
    {
        &self.room[..self.count]
    }
}

pub(crate) fn look<D: Disk>(disk: &mut D, area: Area) -> Result<Front, Failed>
    ensures shows { IfOk result (λ f. (c : Image) → Shows (D.told disk.new) c →
        take f.count f.room ≡ front (c area)) }
    ensures does { Goes (D.told disk.old) (D.told disk.new) Peeks }
    ensures cause { HasCause (is_err result) (D.fault_count disk.old) (D.fault_count disk.new) }
{
    let mut room = [0u8; FRONT];
    let count = disk.read_at(area, 0, &mut room)?;
    Ok(Front { room, count })
}

pub(crate) fn measure<D: Disk>(disk: &mut D, area: Area) -> Result<u64, Failed>
    ensures shows { IfOk result (λ n. (c : Image) → Shows (D.told disk.new) c →
        n ≡ length (c area)) }
    ensures does { Goes (D.told disk.old) (D.told disk.new) Peeks }
    ensures cause { HasCause (is_err result) (D.fault_count disk.old) (D.fault_count disk.new) }
{
    disk.len(area)
}

/// Fills the room with the bytes of an area from a place on, where there are so many.
pub(crate) fn fill<D: Disk>(
    disk: &mut D,
    area: Area,
    at: u64,
    room: &mut [u8],
) -> Result<(), Failed>
    ensures shows { is_ok result ≡ true → (c : Image) → Shows (D.told disk.new) c →
        at + length room.old ≤ length (c area) →
        room.new ≡ take (length room.old) (drop at (c area)) }
    ensures does { Goes (D.told disk.old) (D.told disk.new) Peeks }
    ensures cause { HasCause (is_err result) (D.fault_count disk.old) (D.fault_count disk.new) }
{
    let _count = disk.read_at(area, at, room)?;
    Ok(())
}
