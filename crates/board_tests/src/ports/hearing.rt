//! Who hears what calls did.
use super::{begin, close, desire_each, done, make};
use crate::asserts::{are_bytes, holds, is_end, is_number};
use crate::making::{at, desire};
use bbs_model::{Change, Command, Event, Heard, Op, Port, Row};
use board_port::SolePort;
use cell_records::Amounts;
use diego_names::{Instance, Key, List, Name, OutOfMemory};
use event_hub::Subscription;
use std::alloc::Global;
use std::process::Abort;
use std::test::Fail;

// The names of the processes of which these events tell that they are desired now, in order.
fn desired_by(alloc: Global, events: &[Event]) -> Result<Vec<u8>, Fail> {
    let mut names = Vec::new(alloc);
    for event in events {
        if let Event {
            change: Change::Created,
            row: Row::Desired(desired),
        } = event
        {
            names.extend_from_slice(desired.process.bytes())?;
        }
    }
    Ok(names)
}

// What is heard from a place on, or from the end of the log if that comes before.
fn hear<P: Port>(alloc: Global, port: &mut P, from: u64, max: u32) -> Result<Heard, Fail> {
    let end = port.place();
    Ok(port.events(alloc, from.min(end), max)?)
}

fn hears<P: Port>(
    rt: &impl Abort,
    alloc: Global,
    port: &mut P,
    asked: (u64, u32),
    names: &[u8],
) -> Result<(), Fail> {
    let heard = hear(alloc, port, asked.0, asked.1)?;
    are_bytes(
        rt,
        desired_by(alloc, heard.events.items())?.as_slice(),
        names,
    );
    is_number(rt, heard.upto, asked.0.saturating_add(names.len() as u64));
    Ok(())
}

// Readings from places on, also from one beyond what any reading heard, of so many items at most.
fn hears_parts<P: Port>(rt: &impl Abort, alloc: Global, port: &mut P) -> Result<(), Fail> {
    desire_each(rt, port, b"abc")?;
    hears(rt, alloc, port, (2, 100), b"c")?;
    hears(rt, alloc, port, (3, 100), b"")?;
    hears(rt, alloc, port, (0, 2), b"ab")?;
    hears(rt, alloc, port, (1, 1), b"b")?;
    hears(rt, alloc, port, (0, 0), b"")?;
    hears(rt, alloc, port, (0, 100), b"abc")
}

#[test]
fn a_part_of_the_log_is_heard(rt: HostRuntime) -> Result<(), Fail> {
    let alloc = rt.alloc();
    let mut board = begin(alloc, &[])?;
    let mut port = SolePort {
        board: &mut board,
        by: 1,
    };
    let end = hears_parts(&rt, alloc, &mut port);
    close(board);
    end
}

// A reader is never beyond the end of the log.
fn poll<P: Port>(
    rt: &impl Abort,
    alloc: Global,
    port: &mut P,
    reader: &mut Subscription,
    max: u32,
) -> Result<List<Event>, OutOfMemory> {
    let (at, end) = (reader.at(), port.place());
    holds(rt, at <= end);
    reader.poll(alloc, port, max)
}

// Polls of several sizes between calls: each item is heard once.
fn polls_between_calls<P: Port>(rt: &impl Abort, alloc: Global, port: &mut P) -> Result<(), Fail> {
    let mut reader = Subscription::new(0);
    let mut names = Vec::new(alloc);
    for (letters, max) in [("abc", 2), ("d", 0), ("", 1), ("ef", 100), ("", 100)] {
        desire_each(rt, port, letters.as_bytes())?;
        let events = poll(rt, alloc, port, &mut reader, max)?;
        names.extend_from_slice(&desired_by(alloc, events.items())?)?;
    }
    are_bytes(rt, &names, b"abcdef");
    is_number(rt, reader.at(), 6);
    Ok(())
}

#[test]
fn no_item_is_skipped_and_none_comes_twice(rt: HostRuntime) -> Result<(), Fail> {
    let alloc = rt.alloc();
    let mut board = begin(alloc, &[])?;
    let mut port = SolePort {
        board: &mut board,
        by: 1,
    };
    let end = polls_between_calls(&rt, alloc, &mut port);
    close(board);
    end
}

fn join(cell: &[u8]) -> Result<Command, Fail> {
    let cell = Name::read(cell)?;
    let totals = Amounts {
        memory: 1024,
        disk: 4096,
        containers: 10,
    };
    let tag = None;
    Ok(at(
        0,
        Op::Join {
            cell,
            zone: cell,
            tag,
            totals,
            ttl: 600,
        },
    ))
}

fn claim(index: u32, cell: &[u8], epoch: u64, number: u32) -> Result<Command, Fail> {
    let process = Name::read(b"w")?;
    Ok(at(
        1,
        Op::Claim {
            key: Key { process, index },
            instance: Instance { epoch, number },
            cell: Name::read(cell)?,
        },
    ))
}

// Two cells, a process of three instances, and what a round does with these.
fn begin_round() -> Result<[Command; 9], Fail> {
    Ok([
        join(b"c1")?,
        join(b"c2")?,
        desire(b'w', 3)?,
        make(b'w', 0)?,
        make(b'w', 1)?,
        make(b'w', 2)?,
        claim(0, b"c1", 0, 1)?,
        claim(1, b"c2", 1, 1)?,
        claim(2, b"c1", 0, 2)?,
    ])
}

// Of which table's row a change tells, and whether that was made.
fn told(event: &Event) -> (char, bool) {
    let table = match event.row {
        Row::Desired(_) => 'd',
        Row::Actual(_) => 'a',
        Row::Task(_) => 't',
        Row::Cell(_) => 'c',
        Row::Domain(_) => 'f',
    };
    (table, event.change == Change::Created)
}

fn are_told(events: &[Event], wanted: &[(char, bool)]) -> bool {
    events.len() == wanted.len() && events.iter().zip(wanted).all(|(e, w)| told(e) == *w)
}

fn polls_a_round<P: Port>(rt: &impl Abort, alloc: Global, port: &mut P) -> Result<(), Fail> {
    for (place, command) in begin_round()?.iter().enumerate() {
        is_end(rt, port.call(*command), done(place as u64));
    }
    let mut reader = Subscription::new(0);
    let cells = [('c', true), ('c', true)];
    holds(rt, are_told(reader.poll(alloc, port, 2)?.items(), &cells));
    is_number(rt, reader.at(), 2);
    let made = ('a', true);
    let claimed = ('a', false);
    let rest = [('d', true), made, made, made, claimed, claimed, claimed];
    holds(rt, are_told(reader.poll(alloc, port, 100)?.items(), &rest));
    is_number(rt, reader.at(), 9);
    holds(rt, reader.poll(alloc, port, 100)?.is_empty());
    Ok(())
}

#[test]
fn a_reader_hears_a_round_in_order(rt: HostRuntime) -> Result<(), Fail> {
    let alloc = rt.alloc();
    let mut board = begin(alloc, &[])?;
    let mut port = SolePort {
        board: &mut board,
        by: 1,
    };
    let end = polls_a_round(&rt, alloc, &mut port);
    close(board);
    end
}
