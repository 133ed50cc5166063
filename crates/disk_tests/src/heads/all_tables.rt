//! A head of all five tables, written by hand.
ghost use Rattle.bbs_model.specs.Valid.{IsValid};

use crate::asserts::{are_bytes, is_number};
use bbs_model::Rows;
use head_codec::{read_head, write_head};
use std::alloc::Global;
use std::process::Abort;
use std::test::Fail;

/// A row of each table in each of its states, after nine transitions.
pub const ALL: [u8; 378] = [
    // the transitions and the counts
    0, 0, 0, 0, 0, 0, 0, 9, 0, 0, 0, 1, 0, 0, 0, 5, 0, 0, 0, 4, 0, 0, 0, 2, 0, 0, 0, 2,
    // from 28 on: the desired process
    1, 97, 1, 100, 0, 0, 0, 4, 0, 0, 0, 1, 0, 0, 0, 2, 0, 0, 0, 0,
    // from 48 on: UNCLAIMED, in domain `d`
    1, 97, 0, 0, 0, 0, 0, 0, 0, 0, 0, 0, 0, 0, 0, 0, 1, 1, 100,
    // from 67 on: CLAIMED, in no domain
    1, 97, 0, 0, 0, 1, 0, 1, 0, 0, 0, 0, 0, 0, 0, 3, 0, 0, 0, 1, 1, 99, 0, 0, 0, 0, 0, 0, 0, 5, 0,
    0,
    // from 99 on: CRASHED, in domain `d`
    1, 97, 0, 0, 0, 2, 0, 3, 0, 0, 0, 9, 0, 0, 0, 6, 0, 1, 100,
    // from 118 on: RUNNING and EVACUATING, in domain `d`
    1, 97, 0, 0, 0, 2, 1, 2, 0, 0, 0, 0, 0, 0, 0, 3, 0, 0, 0, 1, 1, 99, 0, 0, 0, 0, 0, 0, 0, 7, 0,
    1, 100,
    // from 151 on: RUNNING and SUSPECT, in no domain
    1, 97, 0, 0, 0, 2, 2, 2, 0, 0, 0, 0, 0, 0, 0, 3, 0, 0, 0, 2, 1, 99, 0, 0, 0, 1, 0, 0, 0, 8, 0,
    0,
    // from 183 on: PENDING
    1, 116, 0, 0, 0, 0, 0, 0, 0, 5, 0, 0, 0, 0, 8, 0, 0, 0, 1, 0, 0, 0, 2, 1, 103,
    // from 208 on: RUNNING
    1, 117, 0, 0, 0, 0, 0, 0, 0, 6, 1, 0, 0, 0, 0, 0, 0, 0, 3, 0, 0, 0, 1, 1, 99, 0, 0, 0, 8, 0, 0,
    0, 1, 0, 0, 0, 2, 0,
    // from 246 on: COMPLETED
    1, 118, 0, 0, 0, 0, 0, 0, 0, 7, 2, 1, 0, 0, 0, 8, 0, 0, 0, 1, 0, 0, 0, 2, 0,
    // from 271 on: RESOLVING
    1, 119, 0, 0, 0, 0, 0, 0, 0, 8, 3, 0, 0, 0, 0, 8, 0, 0, 0, 1, 0, 0, 0, 2, 0,
    // from 296 on: a cell
    1, 99, 1, 122, 0, 0, 0, 0, 1, 0, 0, 0, 2, 0, 0, 0, 3, 0, 0, 0, 0, 0, 0, 0, 3, 0, 0, 0, 0, 0, 0,
    0, 100, 0,
    // from 330 on: a cell that is emptied
    1, 101, 1, 122, 0, 0, 0, 0, 1, 0, 0, 0, 2, 0, 0, 0, 3, 0, 0, 0, 0, 0, 0, 0, 4, 0, 0, 0, 0, 0,
    0, 0, 100, 1,
    // from 364 on: a domain that is fresh for ever
    1, 100, 0,
    // from 367 on: one that is fresh until second 100
    1, 101, 1, 0, 0, 0, 0, 0, 0, 0, 100,
];

/// Where its rows begin.
pub const PLACES: [usize; 14] = [
    28, 48, 67, 99, 118, 151, 183, 208, 246, 271, 296, 330, 364, 367,
];

// These rows, as they are written.
fn are_written_back(rt: &impl Abort, alloc: Global, rows: &Rows) -> Result<(), Fail>
    requires { IsValid rows.now }
{
    is_number(rt, rows.next, 9);
    is_number(rt, rows.actual.len() as u64, 5);
    is_number(rt, rows.domains.len() as u64, 2);
    let written = write_head(alloc, rows)?;
    are_bytes(rt, &written, &ALL);
    Ok(())
}

#[test]
fn a_head_is_read_and_written_as_it_was(rt: HostRuntime) -> Result<(), Fail> {
    let alloc = rt.alloc();
    let rows = read_head(alloc, &ALL, 2)?;
    are_written_back(&rt, alloc, &rows)
}
