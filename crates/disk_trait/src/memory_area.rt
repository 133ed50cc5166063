// An area held in memory: its bytes now, and what was done to them. Each earlier state is had by
// undoing what was done since, so a read costs the same however much was written before.
ghost use Rattle.std.specs.Prelude.{◌≡◌, ◌-◌, ◌^◌, ◌<◌, ◌≤◌, [], length, is_ok, OnOk, OnErr};
ghost use Rattle.disk_trait.specs.Steps.{Wrote, Synced, FilledOnly, overwritten};
ghost use Rattle.disk_trait.specs.Deeds.{Sound, Sound-prop, NumberedTo};

use crate::deed::{Deed, Entry};
use std::alloc::{AllocError, Global};

#[derive(Drop)]
pub(crate) struct MemoryArea {
    pub(crate) bytes: Vec<u8>,
    pub(crate) entries: Vec<Entry>,
    ghost sound: { Sound entries.items bytes.items } by { Sound-prop entries.items bytes.items },
}

impl MemoryArea {
    ghost use Rattle.disk_trait.specs.MemoryPast.{AddsStep, Tore};

    pub(crate) fn new(alloc: Global, bytes: Vec<u8>) -> MemoryArea
        ensures bytes { result.bytes.items ≡ bytes.items }
        ensures entries { result.entries.items ≡ [] }
    {
        MemoryArea {
            bytes,
            entries: Vec::new(alloc),
        }
    }

    pub(crate) fn write(
        &mut self,
        alloc: Global,
        clock: u64,
        at: usize,
        bytes: &[u8],
    ) -> Result<(), AllocError>
        requires at { at ≤ length self.old.bytes.items }
        requires clock { clock < 2 ^ 64 - 1 }
        requires numbered { NumberedTo clock self.old.entries.items }
        ensures { AddsStep clock (Wrote (is_ok result) at bytes.now) self.old self.new }
    {
        let end = self.bytes.len().min(at.saturating_add(bytes.len()));
        let over = Vec::from_slice(alloc, &self.bytes[at..end])?;
        let deed = Deed::Write {
            from: at,
            len: bytes.len(),
            over,
        };
        self.entries.reserve(1)?;
        lay(&mut self.bytes, at, bytes)?;
        self.entries.push_reserved(Entry {
            call: clock + 1,
            deed,
        });
        Ok(())
    }

    /// Notes a write that failed, and leaves the bytes as they are.
    pub(crate) fn tear(&mut self, clock: u64, from: usize, len: usize) -> Result<(), AllocError>
        requires clock { clock < 2 ^ 64 - 1 }
        requires numbered { NumberedTo clock self.old.entries.items }
        ensures { AddsStep clock (Tore (is_ok result) from len) self.old self.new }
    {
        self.entries.reserve(1)?;
        self.entries.push_reserved(Entry {
            call: clock + 1,
            deed: Deed::Tear { from, len },
        });
        Ok(())
    }

    pub(crate) fn sync(&mut self, clock: u64) -> Result<(), AllocError>
        requires clock { clock < 2 ^ 64 - 1 }
        requires numbered { NumberedTo clock self.old.entries.items }
        ensures { AddsStep clock (Synced (is_ok result)) self.old self.new }
    {
        self.entries.reserve(1)?;
        self.entries.push_reserved(Entry {
            call: clock + 1,
            deed: Deed::Sync,
        });
        Ok(())
    }
}

pub(crate) fn lay(target: &mut Vec<u8>, at: usize, bytes: &[u8]) -> Result<(), AllocError>
    requires { at ≤ length target.old.items }
    ensures ok { OnOk result (target.new.items ≡ overwritten at bytes.now target.old.items) }
    ensures err { OnErr result (target.new.items ≡ target.old.items) }
{
    let room = target.len() - at;
    if bytes.len() > room {
        target.extend_from_slice(&bytes[room..])?;
        target[at..at + room].copy_from_slice(&bytes[..room]);
    } else {
        target[at..at + bytes.len()].copy_from_slice(bytes);
    }
    Ok(())
}

/// Copies what there is from `at` on, and answers how many bytes there were.
pub(crate) fn fill(bytes: &[u8], at: u64, room: &mut [u8]) -> usize
    ensures { FilledOnly bytes.now at result room.old room.new }
{
    let from = bytes.len().min(at as usize);
    let count = room.len().min(bytes.len() - from);
    room[..count].copy_from_slice(&bytes[from..from + count]);
    count
}
