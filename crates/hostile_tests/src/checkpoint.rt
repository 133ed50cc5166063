//! A call that finds its area full, and whose disk fails in one device call of the checkpoint, or in one and the next.
ghost use Rattle.bbs_model.specs.Valid.{IsValid};

use crate::asserts::{holds_at, is_number};
use crate::images::leaves_within_reach;
use crate::making::{found_in, loaded};
use bbs_board::{Board, Closed};
use bbs_model::{CallFault, Command, Item, Op, Reply, Rows};
use crash_backoff::Moment;
use diego_names::Name;
use disk_trait::{Disk, MemoryDisk};
use run_trials::{EMPTY, disk_of};
use std::alloc::Global;
use std::process::Abort;
use std::test::Fail;

// Where the first frame stands.
const FRAMES: usize = 51;

// A frame by which one instance of a process is wanted, and those by which there are to be two, or one.
const WEB: &[u8] = b"\x01\x00\x1e\x01\x00\x00\x00\x00\x03web\x04apps\x00\x00\x00\x01\
\x00\x00\x00\x40\x00\x00\x00\x80\x00\x00\x1f\x90";

const TWO: &[u8] = b"\x01\x00\x10\x02\x00\x00\x00\x00\x03web\x00\x00\x00\x02\x00\x1f\x90";

const ONE: &[u8] = b"\x01\x00\x10\x02\x00\x00\x00\x00\x03web\x00\x00\x00\x01\x00\x1f\x90";

// The device calls of the load, whose area is read in two pieces, and of the checkpoint behind it.
const LOAD: u64 = 8;

const CHECKPOINT: u64 = 8;

fn update_frame(number: u32) -> &'static [u8] {
    if number % 2 == 1 { TWO } else { ONE }
}

// An area of 4,096 frames: a process, and updates to two instances and to one by turns.
fn full_area(alloc: Global) -> Result<Vec<u8>, Fail> {
    let mut area = EMPTY
        .get(..FRAMES)
        .ok_or("an area has a head")?
        .to_vec(alloc)?;
    area.extend_from_slice(WEB)?;
    for number in 1..4096u32 {
        area.extend_from_slice(update_frame(number))?;
    }
    area.extend_from_slice(b"\x00")?;
    Ok(area)
}

// The next one.
fn update() -> Result<Command, Fail> {
    let op = Op::Update {
        process: Name::read(b"web")?,
        instances: 1,
        route: None,
        port: 8080,
    };
    Ok(Command { now: Moment(0), op })
}

// How a call ended, and what it left.
#[derive(Drop)]
struct Ended<D> {
    end: Result<Reply, CallFault>,
    disk: D,
    log: Vec<Item>,
    marks: Vec<u64>,
}

fn called<D: Disk + Drop>(mut board: Board<D>, command: Command) -> Ended<D> {
    let end = board.call(1, command);
    let Closed { disk, log, marks } = board.close();
    Ended {
        end,
        disk,
        log,
        marks,
    }
}

fn after_call(
    alloc: Global,
    area: &[u8],
    command: &Command,
    failing: &[u64],
) -> Result<Ended<MemoryDisk>, Fail> {
    let board = loaded(alloc, disk_of(alloc, area, b"", failing)?)?;
    Ok(called(board, *command))
}

fn is_in_doubt(rt: &impl Abort, call: u64, ended: &Ended<MemoryDisk>, command: &Command) {
    holds_at(rt, call, ended.end == Err(CallFault::Disk { place: 0 }));
    holds_at(
        rt,
        call,
        ended.log.as_slice() == [Item::Doubt(1, *command)].as_slice(),
    );
}

// Stops within each call behind the load, and one behind the last.
fn stops_are_within_reach(
    rt: &impl Abort,
    alloc: Global,
    base: &Rows,
    ended: &mut Ended<MemoryDisk>,
) -> Result<(), Fail>
    requires { IsValid base.now }
{
    let log = (ended.log.as_slice(), ended.marks.as_slice());
    leaves_within_reach(rt, alloc, base, &mut ended.disk, log, LOAD + 1)
}

fn fails(
    rt: &impl Abort,
    alloc: Global,
    area: &[u8],
    base: &Rows,
    command: &Command,
    failing: &[u64],
) -> Result<(), Fail>
    requires { IsValid base.now }
{
    let mut ended = after_call(alloc, area, command, failing)?;
    let call = failing.first().copied().unwrap_or(0);
    is_in_doubt(rt, call, &ended, command);
    stops_are_within_reach(rt, alloc, base, &mut ended)
}

fn each_fails(rt: &impl Abort, alloc: Global, area: &[u8], base: &Rows) -> Result<(), Fail>
    requires { IsValid base.now }
{
    let command = update()?;
    for number in 1..CHECKPOINT + 1 {
        let call = LOAD + number;
        fails(rt, alloc, area, base, &command, &[call])?;
        fails(rt, alloc, area, base, &command, &[call, call + 1])?;
    }
    Ok(())
}

fn each_fails_in(rt: &impl Abort, alloc: Global, area: &[u8]) -> Result<(), Fail> {
    let base = found_in(alloc, area, b"")?;
    each_fails(rt, alloc, area, &base)
}

#[test]
fn a_checkpoint_whose_disk_fails_is_a_doubt_and_leaves_what_the_log_reaches(
    rt: HostRuntime,
) -> Result<(), Fail> {
    let area = full_area(rt.alloc())?;
    each_fails_in(&rt, rt.alloc(), &area)
}

fn is_made(rt: &impl Abort, ended: &Ended<MemoryDisk>) {
    holds_at(rt, 0, matches!(ended.end, Ok(Reply::Ok { .. })));
    // The frame is stored by four calls behind the checkpoint.
    is_number(rt, ended.disk.clock(), LOAD + CHECKPOINT + 4);
}

fn is_made_in(rt: &impl Abort, alloc: Global, area: &[u8]) -> Result<(), Fail> {
    let ended = after_call(alloc, area, &update()?, &[])?;
    is_made(rt, &ended);
    Ok(())
}

#[test]
fn a_call_that_finds_its_area_full_makes_a_checkpoint(rt: HostRuntime) -> Result<(), Fail> {
    let area = full_area(rt.alloc())?;
    is_made_in(&rt, rt.alloc(), &area)
}
