//! What no clause says: which bytes a switch makes, with how many calls, and that a journal may go there and
//! back. The steps alone, with a stop in each, are tried in `journal`.
use crate::asserts::{are_bytes, holds, is_number};
use crate::journal::{disk_of, journal_on};
use bbs_journal::Journal;
use bbs_snapshot::switch;
use disk_trait::{Area, Disk, MemoryDisk};
use std::alloc::Global;
use std::process::Abort;
use std::test::Fail;

// An area of generation 1 with a head of no transitions, and one frame.
const OLD: [u8; 58] = [
    0x01, 0x44, 0x49, 0x45, 0x47, 0x4f, 0x42, 0x42, 0x53, 0, 2, 0, 0, 0, 0, 0, 0, 0, 1, 0, 0, 0,
    0x1c, 0, 0, 0, 0, 0, 0, 0, 0, 0, 0, 0, 0, 0, 0, 0, 0, 0, 0, 0, 0, 0, 0, 0, 0, 0, 0, 0, 0, 1, 0,
    3, 111, 110, 101, 0,
];

// The same in version 1, whose head has no count of domains.
const FIRST: [u8; 54] = [
    0x01, 0x44, 0x49, 0x45, 0x47, 0x4f, 0x42, 0x42, 0x53, 0, 1, 0, 0, 0, 0, 0, 0, 0, 1, 0, 0, 0,
    0x18, 0, 0, 0, 0, 0, 0, 0, 0, 0, 0, 0, 0, 0, 0, 0, 0, 0, 0, 0, 0, 0, 0, 0, 0, 1, 0, 3, 111,
    110, 101, 0,
];

// A board of version 1 that stored nothing.
const BARE: [u8; 48] = [
    0x01, 0x44, 0x49, 0x45, 0x47, 0x4f, 0x42, 0x42, 0x53, 0, 1, 0, 0, 0, 0, 0, 0, 0, 1, 0, 0, 0,
    0x18, 0, 0, 0, 0, 0, 0, 0, 0, 0, 0, 0, 0, 0, 0, 0, 0, 0, 0, 0, 0, 0, 0, 0, 0, 0,
];

// An area of generation 2 with a head of one transition, and no frame.
const NEW: [u8; 52] = [
    0x01, 0x44, 0x49, 0x45, 0x47, 0x4f, 0x42, 0x42, 0x53, 0, 2, 0, 0, 0, 0, 0, 0, 0, 2, 0, 0, 0,
    0x1c, 0, 0, 0, 0, 0, 0, 0, 1, 0, 0, 0, 0, 0, 0, 0, 0, 0, 0, 0, 0, 0, 0, 0, 0, 0, 0, 0, 0, 0,
];

// How many device calls the load makes.
const CALLS: u64 = 7;

// The head of so many transitions.
fn head_of(next: u8) -> [u8; 28] {
    let mut head = [0; 28];
    head[7] = next;
    head
}

// A disk of this area alone, of which these calls fail.
fn old_disk(alloc: Global, area: &[u8], failing: &[u64]) -> Result<MemoryDisk, Fail> {
    disk_of(alloc, area, &[], failing)
}

// The area that is read, its version, its generation, and how many frames it has.
type Place = (Area, u16, u64, u64);

fn place_of<D: Disk>(journal: &Journal<D>) -> Place {
    (
        journal.area(),
        journal.version(),
        journal.generation(),
        journal.frames(),
    )
}

fn is_place(rt: &impl Abort, got: Place, wanted: Place) {
    assert_eq!(rt; got, wanted);
}

fn is_opened_at(
    rt: &impl Abort,
    alloc: Global,
    disk: &MemoryDisk,
    want: Place,
) -> Result<(), Fail> {
    let disk = disk_of(alloc, disk.bytes(Area::A), disk.bytes(Area::B), &[])?;
    is_place(rt, opened(rt, alloc, disk)?, want);
    Ok(())
}

fn opened<D: Disk + Drop>(rt: &impl Abort, alloc: Global, disk: D) -> Result<Place, Fail> {
    let journal = journal_on(rt, alloc, disk)?;
    Ok(place_of(&journal))
}

fn switched<D: Disk + Drop>(rt: &impl Abort, alloc: Global, disk: D) -> Result<D, Fail> {
    let mut journal = journal_on(rt, alloc, disk)?;
    is_number(rt, journal.generation(), 1);
    holds(rt, switch(&mut journal, &head_of(1)).is_ok());
    holds(rt, journal.area() == Area::B);
    is_number(rt, journal.clock(), CALLS + 8);
    Ok(journal.into_disk())
}

fn has_both_areas(rt: &impl Abort, disk: &MemoryDisk, old: &[u8]) {
    are_bytes(rt, disk.bytes(Area::A), old);
    are_bytes(rt, disk.bytes(Area::B), &NEW);
}

#[test]
fn a_switch_makes_an_area_of_the_next_generation(rt: HostRuntime) -> Result<(), Fail> {
    let alloc = rt.alloc();
    for old in [OLD.as_slice(), FIRST.as_slice()] {
        let disk = switched(&rt, alloc, old_disk(alloc, old, &[])?)?;
        has_both_areas(&rt, &disk, old);
    }
    Ok(())
}

// The disk behind a switch to the head of a board that stored nothing.
fn renewed<D: Disk + Drop>(rt: &impl Abort, alloc: Global, disk: D) -> Result<D, Fail> {
    let mut journal = journal_on(rt, alloc, disk)?;
    is_place(rt, place_of(&journal), (Area::A, 1, 1, 0));
    is_number(rt, journal.generation(), 1);
    holds(rt, switch(&mut journal, &head_of(0)).is_ok());
    is_place(rt, place_of(&journal), (Area::B, 2, 2, 0));
    Ok(journal.into_disk())
}

#[test]
fn a_board_of_version_1_without_frames_may_switch_once(rt: HostRuntime) -> Result<(), Fail> {
    let alloc = rt.alloc();
    let disk = renewed(&rt, alloc, old_disk(alloc, &BARE, &[])?)?;
    // Its generation is the highest that such a head allows.
    is_opened_at(&rt, alloc, &disk, (Area::B, 2, 2, 0))
}

fn there_and_back<D: Disk + Drop>(rt: &impl Abort, alloc: Global, disk: D) -> Result<D, Fail> {
    let mut journal = journal_on(rt, alloc, disk)?;
    is_number(rt, journal.generation(), 1);
    holds(rt, switch(&mut journal, &head_of(1)).is_ok());
    holds(rt, journal.append(b"two").is_ok());
    holds(rt, switch(&mut journal, &head_of(2)).is_ok());
    Ok(journal.into_disk())
}

fn is_back(rt: &impl Abort, alloc: Global, disk: &MemoryDisk) -> Result<(), Fail> {
    // What stood behind the new head stays, and is free.
    holds(
        rt,
        disk.bytes(Area::A).get(51..) == Some([0, 0, 3, 111, 110, 101, 0].as_slice()),
    );
    is_opened_at(rt, alloc, disk, (Area::A, 2, 3, 0))
}

#[test]
fn a_journal_goes_back_to_an_area_that_it_left(rt: HostRuntime) -> Result<(), Fail> {
    let alloc = rt.alloc();
    let disk = there_and_back(&rt, alloc, old_disk(alloc, &OLD, &[])?)?;
    is_back(&rt, alloc, &disk)
}

// A switch that fails at this device call of its own, and the mend behind it.
fn fails_to_switch<D: Disk + Drop>(
    rt: &impl Abort,
    alloc: Global,
    disk: D,
    call: u64,
) -> Result<D, Fail> {
    let mut journal = journal_on(rt, alloc, disk)?;
    is_number(rt, journal.generation(), 1);
    holds(rt, switch(&mut journal, &head_of(1)).is_err());
    holds(rt, journal.waits() == (call < 3 || call > 6));
    holds(rt, journal.mend().is_ok());
    Ok(journal.into_disk())
}

#[test]
fn a_switch_that_failed_leaves_the_frames(rt: HostRuntime) -> Result<(), Fail> {
    let alloc = rt.alloc();
    for call in 1..9u64 {
        for (old, version) in [(OLD.as_slice(), 2), (FIRST.as_slice(), 1)] {
            let disk = old_disk(alloc, old, &[CALLS + call])?;
            let disk = fails_to_switch(&rt, alloc, disk, call)?;
            is_opened_at(&rt, alloc, &disk, (Area::A, version, 1, 1))?;
        }
    }
    Ok(())
}
