//! What a taking of events knows, and the memory that it has, before anything changes.
ghost use Rattle.std.specs.Prelude.{◌≡◌, ◌+◌, ◌*◌, ◌≤◌, ◌<◌, [], length, vec_capacity, IfOk};
ghost use Rattle.route_emitter.specs.Plans.{IsPlan};

use crate::changing::FEW;
use crate::entry::RouteEntry;
use crate::kept::Kept;
use diego_names::{Key, OutOfMemory};
use std::alloc::Global;

/// An instance has at most three rows, one of each presence: so it has at most so many entries before
/// and after.
const MOST: usize = 6;

#[derive(Drop)]
pub(crate) struct Plan {
    // The entries of the named instances as they are.
    pub(crate) before: Vec<RouteEntry>,
    // Room for their entries after, for what comes, for what goes, and for both.
    pub(crate) after: Vec<RouteEntry>,
    pub(crate) register: Vec<RouteEntry>,
    pub(crate) unregister: Vec<RouteEntry>,
    pub(crate) changes: Vec<RouteEntry>,
    // Room for a new table, if more than a few entries may change.
    pub(crate) next: Vec<RouteEntry>,
}

// How many entries of so many instances may change.
fn most_changes(instances: usize) -> Result<usize, OutOfMemory>
    ensures { IfOk result (λ most. most ≡ 6 * instances) }
{
    match instances.checked_mul(MOST) {
        None => Err(OutOfMemory),
        Some(most) => Ok(most),
    }
}

// Room for a table of this length with so many changes, if these are more than a few.
fn next_room(alloc: Global, len: usize, changes: usize) -> Result<Vec<RouteEntry>, OutOfMemory>
    ensures empty { IfOk result (λ next. next.items ≡ []) }
    ensures room { IfOk result (λ next. FEW < changes → len + changes ≤ vec_capacity next) }
{
    if changes <= FEW {
        return Ok(Vec::new(alloc));
    }
    match len.checked_add(changes) {
        None => Err(OutOfMemory),
        Some(most) => Ok(Vec::with_capacity(alloc, most)?),
    }
}

impl Plan {
    // What there is to know and to have where events name these instances.
    pub(crate) fn of(
        alloc: Global,
        kept: &Kept,
        named: &[Key],
        len: usize,
    ) -> Result<Plan, OutOfMemory>
        ensures { IfOk result (IsPlan FEW kept.now.desired kept.now.running named.now
            (length named.now) len) }
    {
        let most = most_changes(named.len())?;
        let half = most / 2;
        let mut before = Vec::with_capacity(alloc, half)?;
        kept.fill(named, &mut before);
        Ok(Plan {
            before,
            after: Vec::with_capacity(alloc, half)?,
            register: Vec::with_capacity(alloc, half)?,
            unregister: Vec::with_capacity(alloc, half)?,
            changes: Vec::with_capacity(alloc, most)?,
            next: next_room(alloc, len, most)?,
        })
    }
}
