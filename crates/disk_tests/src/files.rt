//! What no clause says of a disk over two files: what comes of the mishaps of its system, and with how many calls.
use crate::asserts::{are_bytes, are_told, holds, is_count, is_length, is_number};
use byte_ports::Failed;
use disk_trait::{Area, Disk};
use file_calls::{FileDisk, MemoryCalls, Mishap, MishapKind};
use std::alloc::Global;
use std::marker::Brand;
use std::process::Abort;
use std::test::Fail;

type Tried = FileDisk<MemoryCalls<Brand>>;

fn disk(alloc: Global, mishaps: &[Mishap]) -> Result<Tried, Fail> {
    let a = b"ab".to_vec(alloc)?;
    let calls = MemoryCalls::new(a, Vec::new(alloc), mishaps.to_vec(alloc)?);
    Ok(FileDisk::new(calls))
}

fn mishap(from: u64, to: u64, kind: MishapKind) -> Mishap {
    Mishap { from, to, kind }
}

fn reads_what_it_writes(rt: &impl Abort, disk: &mut Tried) {
    holds(rt, disk.write_at(Area::A, 0, b"axyz").is_ok());
    holds(rt, disk.write_at(Area::B, 0, b"q").is_ok());
    let mut room = *b"......";
    is_count(rt, disk.read_at(Area::A, 0, &mut room), Ok(4));
    are_bytes(rt, &room, b"axyz..");
    is_length(rt, disk.len(Area::A), 4);
    is_length(rt, disk.len(Area::B), 1);
    is_number(rt, disk.clock(), 5);
    is_number(rt, disk.faults(), 0);
}

#[test]
fn what_is_written_is_read(rt: HostRuntime) -> Result<(), Fail> {
    let mut disk = disk(rt.alloc(), &[])?;
    reads_what_it_writes(&rt, &mut disk);
    Ok(())
}

fn joins_short_answers(rt: &impl Abort, disk: &mut Tried) {
    holds(rt, disk.write_at(Area::A, 0, b"abcdef").is_ok());
    is_number(rt, disk.system().count(), 6);
    let mut room = *b".....";
    is_count(rt, disk.read_at(Area::A, 0, &mut room), Ok(5));
    are_bytes(rt, &room, b"abcde");
    is_count(rt, disk.read_at(Area::A, 4, &mut room), Ok(2));
    is_number(rt, disk.faults(), 0);
}

#[test]
fn short_answers_are_joined(rt: HostRuntime) -> Result<(), Fail> {
    let mut disk = disk(rt.alloc(), &[mishap(1, u64::MAX, MishapKind::Short)])?;
    joins_short_answers(&rt, &mut disk);
    Ok(())
}

fn is_asked_again(rt: &impl Abort, disk: &mut Tried, want: Result<usize, Failed>, calls: u64) {
    let mut room = *b"....";
    is_count(rt, disk.read_at(Area::A, 0, &mut room), want);
    is_number(rt, disk.system().count(), calls);
    is_number(rt, disk.faults(), u64::from(want.is_err()));
}

// Each call is made 100 times at most.
#[test]
fn interrupted_calls_are_made_again(rt: HostRuntime) -> Result<(), Fail> {
    let table: [(u64, Result<usize, Failed>, u64); 3] = [
        (1, Ok(2), 3),
        (99, Ok(2), 101),
        (100, Err(Failed), 100),
    ];
    for (last, want, calls) in table {
        let mut disk = disk(rt.alloc(), &[mishap(1, last, MishapKind::Interrupted)])?;
        is_asked_again(&rt, &mut disk, want, calls);
    }
    Ok(())
}

fn refuses(rt: &impl Abort, disk: &mut Tried, want: &[bool; 4], calls: u64) {
    let got = [
        disk.write_at(Area::A, 0, b"x").is_ok(),
        disk.sync(Area::A).is_ok(),
        disk.len(Area::B).is_ok(),
        disk.write_at(Area::B, 0, b"y").is_ok(),
    ];
    are_told(rt, &got, want);
    is_number(rt, disk.system().count(), calls);
}

// The first sync of a disk puts both names on the disk.
#[test]
fn a_refused_call_is_a_fault(rt: HostRuntime) -> Result<(), Fail> {
    let table: [(u64, [bool; 4], u64); 5] = [
        (0, [true, true, true, true], 6),
        (1, [false, true, true, true], 6),
        (2, [true, false, true, true], 4),
        (4, [true, false, true, true], 6),
        (5, [true, true, false, true], 6),
    ];
    for (number, want, calls) in table {
        let mut disk = disk(rt.alloc(), &[mishap(number, number, MishapKind::Refused)])?;
        refuses(&rt, &mut disk, &want, calls);
    }
    Ok(())
}

// A length that shrinks, a read that differs, and a write that wasn't made. The disk goes on.
fn goes_on_after_lies(rt: &impl Abort, disk: &mut Tried) {
    is_length(rt, disk.len(Area::A), 2);
    is_length(rt, disk.len(Area::A), 1);
    holds(rt, disk.write_at(Area::A, 0, b"xyz").is_ok());
    are_bytes(rt, disk.system().bytes(Area::A), b"ab");
    let mut room = *b"..";
    is_count(rt, disk.read_at(Area::A, 0, &mut room), Ok(2));
    are_bytes(rt, &room, b"`b");
    is_number(rt, disk.faults(), 0);
    is_number(rt, disk.clock(), 4);
}

#[test]
fn a_lie_is_no_fault(rt: HostRuntime) -> Result<(), Fail> {
    let mut disk = disk(rt.alloc(), &[mishap(2, u64::MAX, MishapKind::Lie)])?;
    goes_on_after_lies(&rt, &mut disk);
    Ok(())
}
