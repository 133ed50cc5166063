//! What no clause says: that checkpoints of a board in memory are made, with which calls, and what is loaded then.
mod back;
mod faults;
mod heads;
mod last;
mod life;
mod old;
mod stops;
mod waiting;

use crate::asserts::{are_bytes, is_outcome};
use crate::making::{disk_in, names_of};
use bbs_board::Board;
use bbs_model::{Command, Reply, Rows};
use disk_trait::Disk;
use std::alloc::Global;
use std::process::Abort;
use std::test::Fail;

// How many device calls a load makes, where the other area is empty.
const CALLS: u64 = 7;

// Whether the command was done.
fn does<D: Disk>(board: &mut Board<D>, command: Command) -> bool {
    matches!(board.call(1, command), Ok(Reply::Ok { .. }))
}

fn are_named(rt: &impl Abort, alloc: Global, rows: &Rows, names: &[u8]) -> Result<(), Fail> {
    are_bytes(rt, names_of(alloc, rows)?.as_slice(), names);
    Ok(())
}

fn checkpointed<D: Disk + Drop>(rt: &impl Abort, mut board: Board<D>) -> D {
    is_outcome(rt, board.checkpoint(), Ok(()));
    disk_in(board)
}
