//! What convergence asks of a board, for who counts no steps.
ghost use Rattle.std.specs.Prelude.{◌≡◌, ◌<◌, IfOk};
ghost use Rattle.bbs_board.specs.View.{rows_of};
ghost use Rattle.bbs_model.specs.Work as asked;

use bbs_board::Board;
use bbs_model::Command;
use convergence::Steps;
use crash_backoff::Moment;
use diego_names::{List, OutOfMemory};
use disk_trait::Disk;
use std::alloc::Global;
use std::marker::Brand;
use std::sync::ledger::{Blank, Ledger};

/// With a counter that is made for the call, and is gone after it.
fn counted_work<D: Disk, L: Ledger>(
    board: &Board<D>,
    alloc: Global,
    now: Moment,
    blank: Blank,
) -> Result<List<Command>, OutOfMemory>
    requires name { blank.name ≡ L.name }
    requires parts { (blank.parts ≡ L.parts) × (0 < blank.parts) }
    ensures { IfOk result (λ list. list ≡ asked.work (rows_of board.now) now) }
{
    let mut steps = Steps::<L>::new(blank);
    board.work(alloc, now, &mut steps)
}

/// What convergence asks of the board at a moment, as `Board::work` tells it.
pub fn uncounted_work<D: Disk>(
    board: &Board<D>,
    alloc: Global,
    now: Moment,
) -> Result<List<Command>, OutOfMemory>
    ensures { IfOk result (λ list. list ≡ asked.work (rows_of board.now) now) }
{
    counted_work::<D, Brand>(board, alloc, now, Blank::new(1))
}
