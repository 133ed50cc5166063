//! Rounds whose disk fails.
ghost use Rattle.std.specs.Prelude.{◌<◌};

use super::boards::{CALLER, closed, disk_with, loaded};
use super::playing::{counts_of, reps, take_all};
use super::turns::{round_over, whole_round};
use super::*;
use bbs_board::Board;
use bbs_model::{CallFault, Command, Item, Port};
use board_port::SolePort;
use cell_rep::CellRep;
use disk_trait::Disk;
use lrp_records::Desired;

// Nothing is lost.
const THROUGH: (u64, Delivery) = (1, Delivery::Through);

// Takes the turns of a story, and forgets what came of them.
fn begin<P: Port>(
    alloc: Global,
    port: &mut P,
    cells: &mut [CellRep],
    story: &[(u32, Turn)],
) -> Result<(), Fail> {
    match take_all(alloc, port, cells, story) {
        Err(fail) => Err(fail),
        Ok(_course) => Ok(()),
    }
}

// How a round ends whose disk fails.
fn fault_of<P: Port>(
    alloc: Global,
    port: &mut P,
    cells: &mut [CellRep],
) -> Result<CallFault, Fail> {
    match round_over(alloc, port, cells, Moment(3), THROUGH)? {
        Ok(_) => Err(Fail::from("the disk fails")),
        Err(fault) => Ok(fault),
    }
}

// What the next one counts.
fn next_counts<P: Port>(
    alloc: Global,
    port: &mut P,
    cells: &mut [CellRep],
) -> Result<Counts, Fail> {
    let report = whole_round(alloc, port, cells, Moment(4), THROUGH)?;
    Ok(counts_of(&report))
}

// Both, behind a story.
fn two_rounds<P: Port>(
    alloc: Global,
    port: &mut P,
    cells: &mut [CellRep],
    story: &[(u32, Turn)],
) -> Result<(CallFault, Counts), Fail> {
    begin(alloc, port, cells, story)?;
    let fault = fault_of(alloc, port, cells)?;
    let counts = next_counts(alloc, port, cells)?;
    Ok((fault, counts))
}

// The same over two cells, of which none has joined.
fn two_rounds_behind<P: Port>(
    alloc: Global,
    port: &mut P,
    story: &[(u32, Turn)],
) -> Result<(CallFault, Counts), Fail> {
    let mut cells = reps(alloc)?;
    two_rounds(alloc, port, &mut cells, story)
}

// What came of it over a board, which is closed.
fn ended<D: Disk + Drop>(
    board: Board<D>,
    end: Result<(CallFault, Counts), Fail>,
) -> Result<(CallFault, Counts, Vec<Item>), Fail> {
    let log = closed(board);
    match end {
        Err(fail) => Err(fail),
        Ok((fault, counts)) => Ok((fault, counts, log)),
    }
}

// The same over the board of a disk.
fn rounds_over<D: Disk + Drop>(
    alloc: Global,
    disk: D,
    story: &[(u32, Turn)],
) -> Result<(CallFault, Counts, Vec<Item>), Fail> {
    let mut board = loaded(alloc, disk)?;
    let mut port = SolePort {
        board: &mut board,
        by: CALLER,
    };
    let end = two_rounds_behind(alloc, &mut port, story);
    ended(board, end)
}

// A process that no cell can run, since none has its tag.
fn desire_elsewhere(process: Name) -> Op {
    match desire(process, 1) {
        Op::Desire { desired } => Op::Desire {
            desired: Desired {
                tag: Some(process),
                ..desired
            },
        },
        op => op,
    }
}

// The device calls of a load, and of an append.
const LOAD: u64 = 7;

const APPEND: u64 = 4;

// The items of the story.
const BEFORE: u64 = 5;

// The instance that no cell can run.
fn elsewhere(names: &Names) -> Key {
    let process = names.job;
    Key { process, index: 0 }
}

// What the round does, each by one append, behind the five items of the story.
fn done_by(names: &Names) -> [Op; 4] {
    [
        make(elsewhere(names)),
        unclaim(names.web(0), container(0, 1)),
        claim(names.web(0), container(0, 2), names.c1),
        place_fail(elsewhere(names)),
    ]
}

fn story_of(names: &Names) -> [(u32, Turn); 5] {
    [
        (0, Cell(0, join(names.z1, 600))),
        (0, Client(desire(names.web, 1))),
        (1, Round),
        (2, Client(desire_elsewhere(names.job))),
        (2, Gone(0, container(0, 1))),
    ]
}

// What comes of the two rounds if that device call fails.
fn rounds_failing(
    alloc: Global,
    names: &Names,
    failing: u64,
) -> Result<(CallFault, Counts, Vec<Item>), Fail> {
    let disk = disk_with(alloc, &[0; 5], &[failing])?;
    rounds_over(alloc, disk, &story_of(names))
}

// What the next round counts, where the operation at this place was in doubt. A claim that is in doubt leaves a
// container, which the next round stops.
fn next_after(at: u64) -> Counts
    requires { at < 4 }
{
    Counts {
        unplaced: 1,
        stopped: usize::from(at == 2),
        ..asking(1, 4 - at)
    }
}

// The device call of this number fails, within the round's operation at this place.
fn fails_within(
    rt: &impl Abort,
    alloc: Global,
    names: &Names,
    at: u64,
    op: &Op,
    failing: u64,
) -> Result<(), Fail>
    requires { at < 4 }
{
    let place = BEFORE + at;
    let now = Moment(3);
    let doubt = Item::Doubt(CALLER, Command { now, op: *op });
    let (fault, counts, log) = rounds_failing(alloc, names, failing)?;
    assert!(rt; fault == CallFault::Disk { place }, "at {failing}");
    assert!(rt; counts == next_after(at), "at {failing}: {counts:?}");
    assert!(rt; log.get(place as usize) == Some(&doubt), "at {failing}");
    Ok(())
}

// The same for each of an operation's device calls.
fn fails_within_each(
    rt: &impl Abort,
    alloc: Global,
    names: &Names,
    at: u64,
    op: &Op,
) -> Result<(), Fail>
    requires { at < 4 }
{
    for call in 1..APPEND + 1 {
        let failing = LOAD + APPEND * (BEFORE + at) + call;
        fails_within(rt, alloc, names, at, op, failing)?;
    }
    Ok(())
}

#[test]
fn a_round_ends_where_its_disk_fails_and_the_next_one_does_the_rest(
    rt: HostRuntime,
) -> Result<(), Fail> {
    let (alloc, names) = (rt.alloc(), &read_names()?);
    let ops = done_by(names);
    for at in 0..4u64 {
        fails_within_each(&rt, alloc, names, at, &ops[at as usize])?;
    }
    Ok(())
}
