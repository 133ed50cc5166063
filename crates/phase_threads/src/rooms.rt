//! Memory that is taken before a phase begins, so that none is wanted while passes are out.
ghost use Rattle.std.specs.Prelude.{IfOk};
ghost use Rattle.phase_threads.specs.Rooms.{HasEmptyRoom};

use diego_names::OutOfMemory;
use std::alloc::Global;

/// Three lists of nothing, each with room for so many.
pub(crate) fn three_rooms<A: Drop, B: Drop, C: Drop>(
    alloc: Global,
    count: usize,
) -> Result<(Vec<A>, Vec<B>, Vec<C>), OutOfMemory>
    ensures { IfOk result (λ r. HasEmptyRoom count r.0 × HasEmptyRoom count r.1 × HasEmptyRoom count r.2) }
{
    let first = Vec::with_capacity(alloc, count)?;
    let second = Vec::with_capacity(alloc, count)?;
    let third = Vec::with_capacity(alloc, count)?;
    Ok((first, second, third))
}
