//! Phases of two clients at a disk in memory: whose each item is, and who goes on meanwhile.
mod running;
mod waiting;

ghost use Rattle.std.specs.Prelude.{◌≡◌, true};
ghost use Rattle.phase_threads.specs.Clients.{are_of_clients};

use bbs_board::{Board, Closed, load, prepare};
use bbs_model::{Command, Item, Op};
use crash_backoff::Moment;
use diego_names::{List, Name};
use disk_trait::MemoryDisk;
use lrp_records::Desired;
use running::{are_of_clients, run_two};
use scenario_lines::{Act, Line, Phase, RoundLine};
use std::alloc::Global;
use std::sync::Wait;
use std::test::Fail;
use std::thread::Threads;
use waiting::Waiting;

// What a phase of two clients left.
#[derive(Drop)]
struct Played {
    log: Vec<Item>,
    reported: bool,
}

// An empty board in memory.
fn begin(alloc: Global) -> Option<Board<MemoryDisk>> {
    let (a, b) = (Vec::new(alloc), Vec::new(alloc));
    let mut disk = MemoryDisk::new(alloc, a, b, Vec::new(alloc));
    match prepare(&mut disk) {
        Ok(_) => load(alloc, disk).ok(),
        Err(_) => None,
    }
}

// Plays the phase on an empty board in memory, behind these commands. Nothing where it was cut off.
fn play<R: Threads + Wait + Sync>(
    rt: &R,
    alloc: Global,
    before: &[Command],
    gate: &Waiting,
    phase: &Phase,
    name: Name,
) -> Option<Played>
    requires { are_of_clients phase.now.lines ≡ true }
{
    match begin(alloc) {
        Some(board) => play_on(rt, alloc, board, before, gate, phase, name),
        None => None,
    }
}

fn play_on<R: Threads + Wait + Sync>(
    rt: &R,
    alloc: Global,
    mut board: Board<MemoryDisk>,
    before: &[Command],
    gate: &Waiting,
    phase: &Phase,
    name: Name,
) -> Option<Played>
    requires { are_of_clients phase.now.lines ≡ true }
{
    for command in before {
        let _answer = board.call(3, *command);
    }
    let (board, end) = run_two(rt, alloc, board, gate, phase, name);
    let log = log_of(board);
    match end {
        Some(report) => Some(Played {
            log,
            reported: report.is_some(),
        }),
        None => None,
    }
}

fn log_of(board: Board<MemoryDisk>) -> Vec<Item> {
    let Closed {
        disk: _,
        log,
        marks: _,
    } = board.close();
    log
}

// What a client wants of the process with this name of one letter.
fn desired(letter: u8) -> Result<Desired, Fail> {
    let process = Name::read(&[letter])?;
    Ok(Desired {
        process,
        domain: process,
        instances: 1,
        memory: 64,
        disk: 128,
        tag: None,
        route: None,
        port: 8080,
    })
}

fn command(desired: Desired) -> Command {
    Command {
        now: Moment(0),
        op: Op::Desire { desired },
    }
}

fn done(by: u32, desired: Desired) -> Item {
    Item::Done(by, command(desired))
}

fn asks(line: u32, actor: u32, desired: Desired) -> Line {
    Line {
        line,
        actor,
        act: Act::Client(Op::Desire { desired }),
        lost: None,
        times: 1,
    }
}

fn phase_of(alloc: Global, all: &[Line], round: Option<RoundLine>) -> Result<Phase, Fail> {
    let mut lines = List::new(alloc);
    for line in all {
        lines.push(*line)?;
    }
    Ok(Phase {
        at: Moment(0),
        lines,
        round,
    })
}

// A round in which nothing is lost.
fn round_of(alloc: Global) -> RoundLine {
    RoundLine {
        line: 4,
        lose_ask: List::new(alloc),
        lose_stop: List::new(alloc),
        lose_start: List::new(alloc),
        lose_reply: List::new(alloc),
    }
}

fn by_of(item: &Item) -> u32 {
    match item {
        Item::Done(by, _) | Item::Doubt(by, _) => *by,
    }
}

// How many items are by the caller of this number.
fn count_by(log: &[Item], number: u32) -> usize {
    log.iter().filter(|item| by_of(item) == number).count()
}

// The same of a phase that has lines of clients alone.
fn play_clients<R: Threads + Wait + Sync>(
    rt: &R,
    alloc: Global,
    before: &[Command],
    gate: &Waiting,
    phase: &Phase,
) -> Result<Played, Fail> {
    let name = Name::read(b"cli")?;
    if !are_of_clients(phase) {
        return Err("a line is a cell's")?;
    }
    let played = play(rt, alloc, before, gate, phase, name);
    Ok(played.ok_or("it was cut off")?)
}

#[test]
fn an_actor_goes_on_while_another_is_held_up(rt: HostRuntime) -> Result<(), Fail> {
    let (a, b) = (desired(b'a')?, desired(b'b')?);
    let lines = [asks(2, 1, a), asks(3, 2, b)];
    let phase = phase_of(rt.alloc(), &lines, None)?;
    let gate = Waiting::new(1, 2, 2);
    let played = play_clients(&rt, rt.alloc(), &[], &gate, &phase)?;
    assert!(rt; gate.has_waited());
    let wanted = [done(2, b), done(1, a)];
    assert!(rt; played.log.as_slice() == wanted.as_slice());
    Ok(())
}

#[test]
fn the_round_goes_on_while_an_actor_is_held_up(rt: HostRuntime) -> Result<(), Fail> {
    let (a, b) = (desired(b'a')?, desired(b'b')?);
    let lines = [asks(2, 1, a), asks(3, 2, b)];
    let phase = phase_of(rt.alloc(), &lines, Some(round_of(rt.alloc())))?;
    let gate = Waiting::new(1, 0, 1);
    let before = [command(desired(b'c')?)];
    let played = play_clients(&rt, rt.alloc(), &before, &gate, &phase)?;
    assert!(rt; gate.has_waited());
    assert!(rt; played.reported);
    let log = played.log.as_slice();
    assert_eq!(rt; count_by(log, 1), 1);
    assert_eq!(rt; count_by(log, 2), 1);
    assert!(rt; count_by(log, 0) > 0);
    assert!(rt; log.contains(&done(1, a)));
    assert!(rt; log.contains(&done(2, b)));
    Ok(())
}
