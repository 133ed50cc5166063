//! A checkpoint that finds a gate that waits to be mended, and nothing to make away with.
use super::does;
use super::faults::leaves;
use crate::asserts::{holds, is_end, is_kept, is_number, is_outcome};
use crate::bytes::EMPTY;
use crate::making::{desire, disk_in, disk_of, kept, loaded};
use bbs_board::Board;
use bbs_model::{CallFault, Command};
use disk_trait::{Area, Disk};
use std::alloc::Global;
use std::process::Abort;
use std::test::Fail;

// How many checkpoints fail, and the disk's clock behind them.
type Failures = (u32, u64);

// A checkpoint closes the gate by two device calls, the next finds nothing to do, and a transition has no gate to
// close before its own four calls.
fn goes_on<D: Disk>(rt: &impl Abort, board: &mut Board<D>, next: Command, clock: u64) {
    for _ in 0..2u32 {
        is_outcome(rt, board.checkpoint(), Ok(()));
        is_number(rt, board.clock(), clock.saturating_add(2));
        is_kept(rt, board.kept_in(), kept(Area::A, 1, 0));
    }
    holds(rt, does(board, next));
    is_number(rt, board.clock(), clock.saturating_add(6));
}

// The first transition fails at its gate, and so does closing that. Checkpoints that fail are told, and add no doubt.
fn is_mended<D: Disk + Drop>(
    rt: &impl Abort,
    mut board: Board<D>,
    commands: &[Command; 2],
    (failures, clock): Failures,
) -> D {
    is_end(
        rt,
        board.call(1, commands[0]),
        Err(CallFault::Disk { place: 0 }),
    );
    for _ in 0..failures {
        is_outcome(rt, board.checkpoint(), Err(CallFault::Disk { place: 1 }));
    }
    is_number(rt, board.place(), 1);
    is_number(rt, board.clock(), clock);
    goes_on(rt, &mut board, commands[1], clock);
    disk_in(board)
}

fn mends(rt: &impl Abort, alloc: Global, failing: &[u64], failures: Failures) -> Result<(), Fail> {
    let commands = [desire(b'm', 1)?, desire(b'n', 1)?];
    let board = loaded(alloc, disk_of(alloc, &EMPTY, b"", failing)?)?;
    let mut disk = is_mended(rt, board, &commands, failures);
    leaves(rt, alloc, &mut disk, Area::A, b"n")
}

#[test]
fn a_checkpoint_mends_what_waits_also_where_there_is_nothing_else_to_do(
    rt: HostRuntime,
) -> Result<(), Fail> {
    // The gate is written in call 10 and synced in 11. Two calls close it, in the same call of the board and in each
    // checkpoint until one succeeds.
    let table: [(&[u64], Failures); 6] = [
        (&[10, 11], (0, 11)),
        (&[11, 12], (0, 12)),
        (&[11, 13], (0, 13)),
        (&[10, 11, 12], (1, 12)),
        (&[11, 12, 14], (1, 14)),
        (&[10, 11, 12, 13], (2, 13)),
    ];
    for (failing, failures) in table {
        mends(&rt, rt.alloc(), failing, failures)?;
    }
    Ok(())
}
