//! A board behind a fence: who is let in, what is noted, and what a stale number leaves alone.
use crate::asserts::{are_bytes, are_numbers, holds, is_fenced_end, is_number};
use crate::bytes::{EMPTY, WITH_A_DESIRE};
use crate::making::{CALLS, disk_of};
use bbs_board::{Board, Closed, load};
use bbs_model::{BoardRefusal, CallFault, Command, Op, Reply};
use crash_backoff::Moment;
use diego_names::Name;
use disk_trait::{Area, Disk, MemoryDisk};
use fenced_board::{Fence, Fenced, FencedReply};
use lrp_records::Desired;
use std::alloc::Global;
use std::process::Abort;
use std::test::Fail;

// How a call has ended.
type End = Result<FencedReply, CallFault>;

// A call with a number, and how it has to end.
#[derive(Clone, Copy)]
struct Shown {
    number: u64,
    command: Command,
    end: End,
}

fn desire(process: &[u8]) -> Result<Command, Fail> {
    let desired = Desired {
        process: Name::read(process)?,
        domain: Name::read(b"apps")?,
        instances: 3,
        memory: 64,
        disk: 128,
        tag: None,
        route: None,
        port: 8080,
    };
    Ok(Command {
        now: Moment(0),
        op: Op::Desire { desired },
    })
}

// The next transition, where nothing was in doubt before.
fn done(place: u64) -> End {
    Ok(FencedReply::Reply(Reply::Ok {
        place,
        stamp: place,
    }))
}

fn stale(greatest: u64) -> End {
    Ok(FencedReply::StaleFence { greatest })
}

fn board_of<D: Disk + Drop>(alloc: Global, disk: D) -> Result<Board<D>, Fail> {
    match load(alloc, disk) {
        Ok(board) => Ok(board),
        Err((_, fault)) => Err(Fail::from(fault)),
    }
}

fn call_all<D: Disk>(rt: &impl Abort, board: &mut Fenced<D>, calls: &[Shown]) {
    for call in calls {
        is_fenced_end(rt, board.call(call.number, 1, call.command), call.end);
    }
}

// The numbers that stand with what was written, the last of which is the greatest that was shown.
fn has_numbers<D: Disk>(rt: &impl Abort, board: &Fenced<D>, numbers: &[u64], greatest: u64) {
    are_numbers(rt, board.fences(), numbers);
    is_number(rt, board.greatest(), greatest);
}

// Loads a board and puts it behind a fence with floor 1, makes these calls, and gives its disk.
fn play<D: Disk + Drop>(
    rt: &impl Abort,
    alloc: Global,
    disk: D,
    calls: &[Shown],
    (numbers, greatest): (&[u64], u64),
) -> Result<D, Fail> {
    let mut board = Fenced::new(alloc, board_of(alloc, disk)?, 1);
    call_all(rt, &mut board, calls);
    has_numbers(rt, &board, numbers, greatest);
    let Closed {
        disk,
        log: _,
        marks: _,
    } = board.close();
    Ok(disk)
}

// The second holder writes before the first one knows that it isn't the holder any more.
fn two_holders() -> Result<[Shown; 3], Fail> {
    Ok([
        Shown {
            number: 1,
            command: desire(b"web")?,
            end: done(0),
        },
        Shown {
            number: 2,
            command: desire(b"two")?,
            end: done(1),
        },
        Shown {
            number: 1,
            command: desire(b"late")?,
            end: stale(2),
        },
    ])
}

// Room for one call more is had, and the second holder goes on.
fn goes_on<D: Disk>(rt: &impl Abort, board: &mut Fenced<D>, calls: &[Shown; 3], last: &[Shown; 1]) {
    call_all(rt, board, calls);
    has_numbers(rt, board, &[1, 2], 2);
    holds(rt, board.reserve(1).is_ok());
    call_all(rt, board, last);
    has_numbers(rt, board, &[1, 2, 2], 2);
}

fn play_on<D: Disk + Drop>(
    rt: &impl Abort,
    alloc: Global,
    disk: D,
    calls: &[Shown; 3],
    last: &[Shown; 1],
) -> Result<D, Fail> {
    let mut board = Fenced::new(alloc, board_of(alloc, disk)?, 1);
    goes_on(rt, &mut board, calls, last);
    let Closed {
        disk,
        log: _,
        marks: _,
    } = board.close();
    Ok(disk)
}

#[test]
fn the_first_holder_is_stopped_when_the_second_has_written(rt: HostRuntime) -> Result<(), Fail> {
    let alloc = rt.alloc();
    let calls = two_holders()?;
    let last = [Shown {
        number: 2,
        command: desire(b"last")?,
        end: done(2),
    }];
    let disk = play_on(&rt, alloc, disk_of(alloc, &EMPTY, b"", &[])?, &calls, &last)?;
    is_number(&rt, disk.clock(), CALLS + 12);
    Ok(())
}

// The disk had these calls behind those of the load, and its first area is this.
fn has_area(rt: &impl Abort, disk: &MemoryDisk, calls: u64, area: &[u8]) {
    is_number(rt, disk.clock(), CALLS.saturating_add(calls));
    are_bytes(rt, disk.bytes(Area::A), area);
}

// A number below the floor, and one below a greater one that was shown.
fn too_low() -> Result<[Shown; 3], Fail> {
    Ok([
        Shown {
            number: 0,
            command: desire(b"two")?,
            end: stale(1),
        },
        Shown {
            number: 2,
            command: desire(b"web")?,
            end: done(0),
        },
        Shown {
            number: 1,
            command: desire(b"two")?,
            end: stale(2),
        },
    ])
}

#[test]
fn a_stale_number_leaves_the_disk_alone(rt: HostRuntime) -> Result<(), Fail> {
    let alloc = rt.alloc();
    let calls = too_low()?;
    let disk = disk_of(alloc, &EMPTY, b"", &[])?;
    let disk = play(&rt, alloc, disk, &calls[..1], (&[], 1))?;
    has_area(&rt, &disk, 0, &EMPTY);
    let disk = disk_of(alloc, &EMPTY, b"", &[])?;
    let disk = play(&rt, alloc, disk, &calls, (&[2], 2))?;
    has_area(&rt, &disk, 4, &WITH_A_DESIRE);
    Ok(())
}

// A process that is wanted already, by whoever shows number 4.
fn wanted_twice() -> Result<[Shown; 3], Fail> {
    let refused = Reply::Refused {
        why: BoardRefusal::Exists,
        place: 1,
    };
    Ok([
        Shown {
            number: 1,
            command: desire(b"web")?,
            end: done(0),
        },
        Shown {
            number: 4,
            command: desire(b"web")?,
            end: Ok(FencedReply::Reply(refused)),
        },
        Shown {
            number: 3,
            command: desire(b"web")?,
            end: stale(4),
        },
    ])
}

#[test]
fn what_is_refused_has_shown_its_number_and_noted_none(rt: HostRuntime) -> Result<(), Fail> {
    let alloc = rt.alloc();
    let calls = wanted_twice()?;
    let disk = disk_of(alloc, &EMPTY, b"", &[])?;
    let disk = play(&rt, alloc, disk, &calls, (&[1], 4))?;
    has_area(&rt, &disk, 4, &WITH_A_DESIRE);
    Ok(())
}

// The disk fails in the first call, and the second one is the first transition.
fn doubted() -> Result<[Shown; 2], Fail> {
    Ok([
        Shown {
            number: 1,
            command: desire(b"web")?,
            end: Err(CallFault::Disk { place: 0 }),
        },
        Shown {
            number: 2,
            command: desire(b"web")?,
            end: Ok(FencedReply::Reply(Reply::Ok { place: 1, stamp: 0 })),
        },
    ])
}

#[test]
fn a_doubt_has_its_number(rt: HostRuntime) -> Result<(), Fail> {
    let alloc = rt.alloc();
    let calls = doubted()?;
    let disk = disk_of(alloc, &EMPTY, b"", &[CALLS + 1])?;
    let disk = play(&rt, alloc, disk, &calls, (&[1, 2], 2))?;
    has_area(&rt, &disk, 5, &WITH_A_DESIRE);
    Ok(())
}

// Room that no memory has is refused, and the board goes on.
fn goes_on_without_room<D: Disk>(rt: &impl Abort, board: &mut Fenced<D>, calls: &[Shown; 3]) {
    holds(rt, board.reserve(u32::MAX).is_err());
    call_all(rt, board, calls);
    has_numbers(rt, board, &[1, 2], 2);
}

fn play_without_room<D: Disk + Drop>(
    rt: &impl Abort,
    alloc: Global,
    disk: D,
    calls: &[Shown; 3],
) -> Result<D, Fail> {
    let mut board = Fenced::new(alloc, board_of(alloc, disk)?, 1);
    goes_on_without_room(rt, &mut board, calls);
    let Closed {
        disk,
        log: _,
        marks: _,
    } = board.close();
    Ok(disk)
}

#[test]
fn a_board_goes_on_behind_its_fence_where_room_was_refused(rt: HostRuntime) -> Result<(), Fail> {
    let alloc = rt.alloc();
    let calls = two_holders()?;
    let disk = disk_of(alloc, &EMPTY, b"", &[])?;
    let disk = play_without_room(&rt, alloc, disk, &calls)?;
    is_number(&rt, disk.clock(), CALLS + 8);
    Ok(())
}

#[test]
fn a_number_is_shown_though_there_is_no_room_for_it(rt: HostRuntime) -> Result<(), Fail> {
    let mut fence = Fence::new(rt.alloc(), 1);
    holds(&rt, fence.show(3));
    holds(&rt, fence.reserve(usize::MAX).is_err());
    holds(&rt, !fence.show(2));
    is_number(&rt, fence.greatest(), 3);
    are_numbers(&rt, fence.numbers(), &[]);
    Ok(())
}
