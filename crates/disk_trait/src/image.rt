// What a stop may have left of a disk in memory, for tests of what reads it afterwards.
ghost use Rattle.std.specs.Prelude.{◌≡◌, ◌≤◌, ◌-◌, length, take, drop, ◌+◌, ◌++◌, IfOk};
ghost use Rattle.disk_trait.specs.Held.{Leaves};
ghost use Rattle.disk_trait.specs.Past.{ImagesSince};
ghost use Rattle.disk_trait.specs.Deeds.{before, undone, held_until};
ghost use Rattle.disk_trait.specs.MemoryPast.{held_at};
ghost use Rattle.disk_trait.specs.Memory.{memory_past, calls_of};
ghost use Rattle.disk_trait.specs.Picks.{image_of, Tears, Picked, FollowsDeed, ReachesAt};
ghost use Rattle.disk_trait.specs.Chosen.{covered_in, left_as, picked_as, StoppedIn, Chooses, ChoosesAll};

use crate::MemoryDisk;
use crate::deed::{Deed, Entry};
use crate::memory_area::{MemoryArea, lay};
use std::alloc::{AllocError, Global};

/// What a stop leaves in the ranges that were pending: what was synced, what was written last, or
/// this byte everywhere.
#[derive(Clone, Copy, Debug)]
pub enum Torn {
    Old,
    New,
    Byte(u8),
}

impl MemoryDisk {
    /// The two areas after a stop within that device call, by its number from 1. A stop within a sync
    /// leaves the ranges before it pending.
    pub fn image(
        &self,
        alloc: Global,
        call: u64,
        torn: Torn,
    ) -> Result<(Vec<u8>, Vec<u8>), AllocError>
        requires { call ≤ calls_of self.now }
        ensures leaves { IfOk result (λ both. ImagesSince (memory_past self.now) (call - 1)
            (image_of both.0.items both.1.items)) }
        ensures chosen { IfOk result (λ both. StoppedIn (memory_past self.now) call torn
            (image_of both.0.items both.1.items)) }
    {
        let moment = self.moment_of(call);
        let a = left_at(alloc, &self.areas.a, moment, torn)?;
        let b = left_at(alloc, &self.areas.b, moment, torn)?;
        Ok((a, b))
    }

    /// The moment at which all that a stop within the call may tear is pending.
    fn moment_of(&self, call: u64) -> u64
        ensures from { call - 1 ≤ result }
        ensures to { result ≤ call }
    {
        let syncs = is_sync(&self.areas.a.entries, call) || is_sync(&self.areas.b.entries, call);
        if syncs { call.saturating_sub(1) } else { call }
    }
}

fn is_sync(entries: &[Entry], call: u64) -> bool {
    entries.iter().any(|entry| entry.call == call && matches!(entry.deed, Deed::Sync))
}

fn left_at(alloc: Global, area: &MemoryArea, moment: u64, torn: Torn) -> Result<Vec<u8>, AllocError>
    ensures leaves { IfOk result (λ left. Leaves (held_at area.now moment) left.items) }
    ensures chosen { IfOk result (λ left. left.items ≡ left_as torn (held_at area.now moment)) }
{
    let first = undo_all(alloc, &area.entries, &area.bytes)?;
    left_by(alloc, &area.entries, &area.bytes, moment, first, torn)
}

/// The bytes before these deeds, of which there are as many as a test makes.
fn undo_all(alloc: Global, entries: &[Entry], bytes: &[u8]) -> Result<Vec<u8>, AllocError>
    ensures { IfOk result (λ first. first.items ≡ before entries.now bytes.now) }
{
    match entries {
        [] => Vec::from_slice(alloc, bytes),
        [entry, later @ ..] => {
            let after = undo_all(alloc, later, bytes)?;
            undo(alloc, &entry.deed, after)
        }
    }
}

fn undo(alloc: Global, deed: &Deed, after: Vec<u8>) -> Result<Vec<u8>, AllocError>
    ensures { IfOk result (λ first. first.items ≡ undone deed.now after.items) }
{
    match deed {
        Deed::Write { from, len, over } => put_back(alloc, &after, *from, *len, over),
        Deed::Tear { .. } => Ok(after),
        Deed::Sync => Ok(after),
    }
}

fn put_back(
    alloc: Global,
    after: &[u8],
    from: usize,
    len: usize,
    over: &[u8],
) -> Result<Vec<u8>, AllocError>
    ensures { IfOk result
        (λ first. first.items ≡ take from after.now ++ over.now ++ drop (from + len) after.now) }
{
    let front = after.len().min(from);
    let back = after.len().min(from.saturating_add(len));
    let mut first = Vec::from_slice(alloc, &after[..front])?;
    first.extend_from_slice(over)?;
    first.extend_from_slice(&after[back..])?;
    Ok(first)
}

/// Goes on from what a stop could leave before these deeds.
fn left_by(
    alloc: Global,
    entries: &[Entry],
    bytes: &[u8],
    moment: u64,
    left: Vec<u8>,
    torn: Torn,
) -> Result<Vec<u8>, AllocError>
    ensures reaches { IfOk result (λ last.
        ReachesAt moment entries.now bytes.now left.items last.items) }
    ensures chosen { IfOk result (λ last.
        ChoosesAll torn moment entries.now bytes.now left.items last.items) }
{
    match entries {
        [] => Ok(left),
        [entry, later @ ..] => {
            if entry.call > moment {
                return Ok(left);
            }
            let after = undo_all(alloc, later, bytes)?;
            let next = left_after(alloc, &entry.deed, left, after, torn)?;
            left_by(alloc, later, bytes, moment, next, torn)
        }
    }
}

fn left_after(
    alloc: Global,
    deed: &Deed,
    left: Vec<u8>,
    after: Vec<u8>,
    torn: Torn,
) -> Result<Vec<u8>, AllocError>
    ensures follows { IfOk result (λ next. FollowsDeed deed.now left.items after.items next.items) }
    ensures chosen { IfOk result (λ next.
        Chooses torn deed.now left.items after.items next.items) }
{
    match deed {
        Deed::Write { from, len, .. } => pick(alloc, *from, *len, left, after, torn),
        Deed::Tear { from, len } => pick(alloc, *from, *len, left, after, torn),
        Deed::Sync => Ok(after),
    }
}

fn pick(
    alloc: Global,
    from: usize,
    len: usize,
    left: Vec<u8>,
    after: Vec<u8>,
    torn: Torn,
) -> Result<Vec<u8>, AllocError>
    ensures picked { IfOk result (λ next. Picked from len left.items after.items next.items) }
    ensures chosen { IfOk result (λ next.
        next.items ≡ picked_as torn from len left.items after.items) }
{
    match torn {
        Torn::Old => Ok(left),
        Torn::New => Ok(after),
        Torn::Byte(byte) => cover(alloc, from, len, left, byte),
    }
}

/// The range is within reach: each write began where bytes were, and the range before it is covered.
fn cover(
    alloc: Global,
    from: usize,
    len: usize,
    mut left: Vec<u8>,
    byte: u8,
) -> Result<Vec<u8>, AllocError>
    ensures tears { IfOk result (λ next. Tears from len left.items next.items) }
    ensures bytes { IfOk result (λ next. next.items ≡ covered_in byte from len left.items) }
{
    if from > left.len() {
        return Ok(left);
    }
    let fill = Vec::from_elem(alloc, byte, len)?;
    lay(&mut left, from, &fill)?;
    Ok(left)
}
