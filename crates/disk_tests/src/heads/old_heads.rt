//! A head of version 1, written by hand.
ghost use Rattle.bbs_model.specs.Valid.{IsValid};

use crate::asserts::{are_bytes, is_number};
use bbs_model::Rows;
use head_codec::{read_head, write_head};
use std::alloc::Global;
use std::process::Abort;
use std::test::Fail;

/// A row of each of its four tables in each of its states, after nine transitions.
pub const OLD: [u8; 321] = [
    // the transitions and the counts
    0, 0, 0, 0, 0, 0, 0, 9, 0, 0, 0, 1, 0, 0, 0, 4, 0, 0, 0, 4, 0, 0, 0, 2,
    // from 24 on: the desired process
    1, 97, 1, 100, 0, 0, 0, 4, 0, 0, 0, 1, 0, 0, 0, 2, 0, 0, 0, 0,
    // from 44 on: UNCLAIMED
    1, 97, 0, 0, 0, 0, 0, 0, 0, 0, 0, 0, 0, 0, 0, 0, 1,
    // from 61 on: CLAIMED
    1, 97, 0, 0, 0, 1, 0, 1, 0, 0, 0, 0, 0, 0, 0, 3, 0, 0, 0, 1, 1, 99, 0, 0, 0, 0, 0, 0, 0, 5, 0,
    // from 92 on: CRASHED
    1, 97, 0, 0, 0, 2, 0, 3, 0, 0, 0, 9, 0, 0, 0, 6, 0,
    // from 109 on: RUNNING and EVACUATING
    1, 97, 0, 0, 0, 2, 1, 2, 0, 0, 0, 0, 0, 0, 0, 3, 0, 0, 0, 1, 1, 99, 0, 0, 0, 0, 0, 0, 0, 7, 0,
    // from 140 on: PENDING
    1, 116, 0, 0, 0, 0, 0, 0, 0, 5, 0, 0, 0, 0, 8, 0, 0, 0, 1, 0, 0, 0, 2, 1, 103,
    // from 165 on: RUNNING
    1, 117, 0, 0, 0, 0, 0, 0, 0, 6, 1, 0, 0, 0, 0, 0, 0, 0, 3, 0, 0, 0, 1, 1, 99, 0, 0, 0, 8, 0, 0,
    0, 1, 0, 0, 0, 2, 0,
    // from 203 on: COMPLETED
    1, 118, 0, 0, 0, 0, 0, 0, 0, 7, 2, 1, 0, 0, 0, 8, 0, 0, 0, 1, 0, 0, 0, 2, 0,
    // from 228 on: RESOLVING
    1, 119, 0, 0, 0, 0, 0, 0, 0, 8, 3, 0, 0, 0, 0, 8, 0, 0, 0, 1, 0, 0, 0, 2, 0,
    // from 253 on: a cell
    1, 99, 1, 122, 0, 0, 0, 0, 1, 0, 0, 0, 2, 0, 0, 0, 3, 0, 0, 0, 0, 0, 0, 0, 3, 0, 0, 0, 0, 0, 0,
    0, 100, 0,
    // from 287 on: a cell that is emptied
    1, 101, 1, 122, 0, 0, 0, 0, 1, 0, 0, 0, 2, 0, 0, 0, 3, 0, 0, 0, 0, 0, 0, 0, 4, 0, 0, 0, 0, 0,
    0, 0, 100, 1,
];

/// Where its rows begin.
pub const OLD_PLACES: [usize; 11] = [24, 44, 61, 92, 109, 140, 165, 203, 228, 253, 287];

// The head in version 2: one count more, and none for the domain of each actual row.
fn in_version_2(alloc: Global) -> Result<Vec<u8>, Fail> {
    let mut out = Vec::new(alloc);
    out.extend_from_slice(&OLD[..24])?;
    out.extend_from_slice(&[0; 4])?;
    out.extend_from_slice(&OLD[24..61])?;
    out.push(0)?;
    out.extend_from_slice(&OLD[61..92])?;
    out.push(0)?;
    out.extend_from_slice(&OLD[92..109])?;
    out.push(0)?;
    out.extend_from_slice(&OLD[109..140])?;
    out.push(0)?;
    out.extend_from_slice(&OLD[140..])?;
    Ok(out)
}

// These rows, as version 2 has them.
fn are_written_anew(rt: &impl Abort, alloc: Global, rows: &Rows) -> Result<(), Fail>
    requires { IsValid rows.now }
{
    is_number(rt, rows.domains.len() as u64, 0);
    let written = write_head(alloc, rows)?;
    are_bytes(rt, &written, &in_version_2(alloc)?);
    Ok(())
}

#[test]
fn an_old_head_is_read_and_written_in_version_2(rt: HostRuntime) -> Result<(), Fail> {
    let alloc = rt.alloc();
    let rows = read_head(alloc, &OLD, 1)?;
    are_written_anew(&rt, alloc, &rows)
}
