// The two areas of a disk in memory.
ghost use Rattle.std.specs.Prelude.{◌≡◌, ◌-◌, ◌^◌, ◌<◌, ◌≤◌, length, is_ok};
ghost use Rattle.disk_trait.specs.Steps.{Wrote, Synced};
ghost use Rattle.disk_trait.specs.MemoryPast.{Tore};
ghost use Rattle.disk_trait.specs.MemoryAreas.{part, Numbered, Moves};

use crate::Area;
use crate::memory_area::MemoryArea;
use std::alloc::{AllocError, Global};

#[derive(Drop)]
pub(crate) struct Areas {
    pub(crate) a: MemoryArea,
    pub(crate) b: MemoryArea,
}

impl Areas {
    pub(crate) fn part(&self, area: Area) -> &MemoryArea
        ensures { result.now ≡ part self.now area }
    {
        match area {
            Area::A => &self.a,
            Area::B => &self.b,
        }
    }

    pub(crate) fn write(
        &mut self,
        alloc: Global,
        clock: u64,
        area: Area,
        at: usize,
        bytes: &[u8],
    ) -> Result<(), AllocError>
        requires at { at ≤ length (part self.old area).bytes.items }
        requires clock { clock < 2 ^ 64 - 1 }
        requires numbered { Numbered clock self.old }
        ensures { Moves clock area (Wrote (is_ok result) at bytes.now) self.old self.new }
    {
        match area {
            Area::A => self.a.write(alloc, clock, at, bytes),
            Area::B => self.b.write(alloc, clock, at, bytes),
        }
    }

    pub(crate) fn tear(
        &mut self,
        clock: u64,
        area: Area,
        from: usize,
        len: usize,
    ) -> Result<(), AllocError>
        requires clock { clock < 2 ^ 64 - 1 }
        requires numbered { Numbered clock self.old }
        ensures { Moves clock area (Tore (is_ok result) from len) self.old self.new }
    {
        match area {
            Area::A => self.a.tear(clock, from, len),
            Area::B => self.b.tear(clock, from, len),
        }
    }

    pub(crate) fn sync(&mut self, clock: u64, area: Area) -> Result<(), AllocError>
        requires clock { clock < 2 ^ 64 - 1 }
        requires numbered { Numbered clock self.old }
        ensures { Moves clock area (Synced (is_ok result)) self.old self.new }
    {
        match area {
            Area::A => self.a.sync(clock),
            Area::B => self.b.sync(clock),
        }
    }
}
