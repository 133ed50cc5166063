//! What is done to the board while a turn is on. Clauses see what stands at the desk as the board.
ghost use Rattle.std.specs.Prelude.{◌≡◌, ◌++◌, ◌<◌, ◌≤◌, ◌^◌, length, IfOk};
ghost use Rattle.bbs_model.specs.Calls.{Ends, added};
ghost use Rattle.bbs_model.specs.Step.{verdict_of};
ghost use Rattle.bbs_model.specs.Told.{IsHeard};
ghost use Rattle.bbs_model.specs.Valid.{IsValid};
ghost use Rattle.bbs_model.specs.Work as asked;
ghost use Rattle.bbs_board.specs.View.{rows_of};
ghost use Rattle.bbs_shared.specs.Boards.{origin_of, IsRead};

use crate::at_desk::AtDesk;
use bbs_model::{CallFault, Command, Heard, Reply, Rows};
use board_port::uncounted_work;
use crash_backoff::Moment;
use diego_names::{List, OutOfMemory};
use disk_trait::Disk;
use std::alloc::Global;

pub(crate) fn call_once<D: Disk>(
    at: &mut AtDesk<D>,
    by: u32,
    command: Command,
) -> Result<Reply, CallFault>
    ensures ends { Ends (verdict_of (rows_of at.old.board) command) (length at.old.board.log)
        (rows_of at.old.board).next result }
    ensures log { at.new.board.log ≡ at.old.board.log ++ added result by command }
    ensures origin { origin_of at.new ≡ origin_of at.old }
    ensures few { length at.new.board.log < 2 ^ 64 }
{
    let end = at.board.call(by, command);
    at.board.holds();
    end
}

pub(crate) fn read_rows<D: Disk>(at: &mut AtDesk<D>, alloc: Global) -> Result<Rows, OutOfMemory>
    ensures read { IsRead at.old at.new }
    ensures rows { IfOk result (λ rows. rows ≡ rows_of at.old.board) }
    ensures valid { IsValid (rows_of at.old.board) }
{
    at.board.holds();
    at.board.rows(alloc)
}

pub(crate) fn read_work<D: Disk>(
    at: &mut AtDesk<D>,
    alloc: Global,
    now: Moment,
) -> Result<List<Command>, OutOfMemory>
    ensures read { IsRead at.old at.new }
    ensures work { IfOk result (λ list. list ≡ asked.work (rows_of at.old.board) now) }
{
    at.board.holds();
    uncounted_work(&at.board, alloc, now)
}

pub(crate) fn read_events<D: Disk>(
    at: &mut AtDesk<D>,
    alloc: Global,
    from: u64,
    max: u32,
) -> Result<Heard, OutOfMemory>
    requires { from ≤ length at.old.board.log }
    ensures read { IsRead at.old at.new }
    ensures heard { IfOk result (IsHeard at.old.board.base at.old.board.log from max) }
{
    at.board.holds();
    at.board.events(alloc, from, max)
}

pub(crate) fn read_place<D: Disk>(at: &mut AtDesk<D>) -> u64
    ensures read { IsRead at.old at.new }
    ensures place { result ≡ length at.old.board.log }
{
    at.board.holds();
    at.board.place()
}
