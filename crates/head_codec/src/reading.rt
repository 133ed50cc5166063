//! Bytes are read as the rows of a board.
#![tactic(auto, unfolding(crate::specs::Head::counts_at, crate::specs::Head::desired_at, crate::specs::Head::actual_at, crate::specs::Head::tasks_at, crate::specs::Head::cells_at, crate::specs::Head::domains_at, crate::specs::Head::head_reading))]

ghost use Rattle.std.specs.Prelude.{◌≡◌, ◌⊎◌, ◌≤◌, length, IfOk};
ghost use Rattle.bbs_model.specs.Valid.{IsValid};
ghost use Rattle.head_codec.specs.Head.{counts_in, counts_at, head_reading};
ghost use Rattle.head_codec.specs.Seen.{TellsHead};

use crate::fault::HeadFault;
use crate::table::read_rows;
use crate::writing::Counts;
use bbs_codec::{CodecFault, Fields};
use bbs_model::{MOST_TRANSITIONS, Rows};
use std::alloc::Global;
use wire_fields::FieldFault;

/// More bytes than the head of any board has: 344 for the counts in front, and for each of the 157,000 rows
/// that a board has at most.
pub const LONGEST_HEAD: u32 = 344 * 157_001;

/// The counts in front as version 1 has them, without that of domains.
type OldCounts = (u64, ((u32, u32), (u32, u32)));

/// What stands in front, and the place behind it.
#[tactic(auto, unfolding(bbs_codec::specs::Format::seen_at))]
fn read_front(bytes: &[u8], version: u16) -> Result<(Counts, usize), FieldFault>
    ensures value { result ≡ (counts_in version).read bytes.now 0 }
    ensures within { IfOk result (λ read. read.1 ≤ length bytes.now) }
{
    if version == 1 {
        let ((next, (first, (tasks, cells))), at) = OldCounts::read_at(bytes, 0)?;
        return Ok(((next, (first, (tasks, (cells, 0)))), at));
    }
    Counts::read_at(bytes, 0)
}

/// The counts in front, and the place behind them.
fn read_counts(bytes: &[u8], version: u16) -> Result<(Counts, usize), CodecFault>
    ensures value { result ≡ counts_at version bytes.now }
    ensures within { IfOk result (λ read. read.1 ≤ length bytes.now) }
{
    match read_front(bytes, version) {
        Ok((counts, at)) => {
            if counts.0 <= MOST_TRANSITIONS {
                Ok((counts, at))
            } else {
                Err(CodecFault::BadField { at: 0 })
            }
        }
        Err(_) => Err(CodecFault::BadField { at: 0 }),
    }
}

/// The rows that these bytes are.
fn read_tables(alloc: Global, bytes: &[u8], version: u16) -> Result<Rows, HeadFault>
    ensures { TellsHead result (head_reading version bytes.now) }
{
    let (counts, at) = read_counts(bytes, version)?;
    let (next, ((desired, actual), (tasks, (cells, domains)))) = counts;
    let (desired, at) = read_rows(alloc, bytes, version, next, desired, at)?;
    let (actual, at) = read_rows(alloc, bytes, version, next, actual, at)?;
    let (tasks, at) = read_rows(alloc, bytes, version, next, tasks, at)?;
    let (cells, at) = read_rows(alloc, bytes, version, next, cells, at)?;
    let (domains, at) = read_rows(alloc, bytes, version, next, domains, at)?;
    if at < bytes.len() {
        return Err(HeadFault::Codec(CodecFault::Trailing { at }));
    }
    Ok(Rows {
        desired,
        actual,
        tasks,
        cells,
        domains,
        next,
    })
}

/// The rows that these bytes of an area of this version are, all of them, with the keys of each table
/// in order and all limits kept. Otherwise it answers the first fault from the left, or that there was
/// no memory. The actual rows of version 1 tell no domain.
pub fn read_head(alloc: Global, bytes: &[u8], version: u16) -> Result<Rows, HeadFault>
    requires { (version ≡ 1) ⊎ (version ≡ 2) }
    ensures told { TellsHead result (head_reading version bytes.now) }
    ensures valid { IfOk result IsValid }
{
    read_tables(alloc, bytes, version)
}
