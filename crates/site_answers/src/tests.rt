//! One foundation, shown and with a zone lost: what is told of it was worked out by hand.
use super::*;
use diego_names::Name;
use dump_reader::read_dump;
use forecast_records::{Lost, Notes, Shown, Uneven, Verdict};
use std::alloc::Global;
use std::test::Fail;
use what_if::Site;

// Five cells in three zones: four instances of one process, and two each of two that stand together.
const FIVE_CELLS: &str = "\
    {\"cell_id\":\"c1\",\"Zone\":\"z1\",\"TotalResources\":{\"MemoryMB\":4096,\"DiskMB\":16384,\"Containers\":50},\
    \"AvailableResources\":{\"MemoryMB\":3328,\"DiskMB\":13312,\"Containers\":46},\"LRPs\":[\
    {\"process_guid\":\"web\",\"index\":0,\"MemoryMB\":256,\"DiskMB\":1024},\
    {\"process_guid\":\"web\",\"index\":1,\"MemoryMB\":256,\"DiskMB\":1024},\
    {\"process_guid\":\"solo\",\"index\":0,\"MemoryMB\":128,\"DiskMB\":512},\
    {\"process_guid\":\"solo\",\"index\":1,\"MemoryMB\":128,\"DiskMB\":512}]}\n\
    {\"cell_id\":\"c2\",\"Zone\":\"z1\",\"TotalResources\":{\"MemoryMB\":4096,\"DiskMB\":16384,\"Containers\":50},\
    \"AvailableResources\":{\"MemoryMB\":3712,\"DiskMB\":14848,\"Containers\":48},\"LRPs\":[\
    {\"process_guid\":\"web\",\"index\":2,\"MemoryMB\":256,\"DiskMB\":1024},\
    {\"process_guid\":\"near\",\"index\":0,\"MemoryMB\":128,\"DiskMB\":512}]}\n\
    {\"cell_id\":\"c3\",\"Zone\":\"z2\",\"TotalResources\":{\"MemoryMB\":4096,\"DiskMB\":16384,\"Containers\":50},\
    \"AvailableResources\":{\"MemoryMB\":3840,\"DiskMB\":15360,\"Containers\":49},\"LRPs\":[\
    {\"process_guid\":\"web\",\"index\":3,\"MemoryMB\":256,\"DiskMB\":1024}]}\n\
    {\"cell_id\":\"c4\",\"Zone\":\"z3\",\"TotalResources\":{\"MemoryMB\":4096,\"DiskMB\":16384,\"Containers\":50},\
    \"AvailableResources\":{\"MemoryMB\":4096,\"DiskMB\":16384,\"Containers\":50},\"LRPs\":[]}\n\
    {\"cell_id\":\"c5\",\"Zone\":\"z1\",\"TotalResources\":{\"MemoryMB\":4096,\"DiskMB\":16384,\"Containers\":50},\
    \"AvailableResources\":{\"MemoryMB\":3968,\"DiskMB\":15872,\"Containers\":49},\"LRPs\":[\
    {\"process_guid\":\"near\",\"index\":1,\"MemoryMB\":128,\"DiskMB\":512}]}\n";

// What was counted, and the spreads in their order.
#[derive(Clone, Copy, Debug, PartialEq, Eq)]
struct Seen {
    counts: [u64; 11],
    spreads: [Option<u64>; 4],
    verdict: Verdict,
}

fn spread_at(uneven: &[Uneven], at: usize) -> Option<u64> {
    if at < uneven.len() {
        Some(uneven[at].spread)
    } else {
        None
    }
}

fn seen_of(shown: &Shown) -> Seen {
    let uneven = shown.uneven.items();
    Seen {
        counts: [
            shown.cells,
            shown.evacuating,
            shown.silent,
            shown.instances,
            shown.processes,
            shown.tasks,
            shown.crashed,
            shown.waiting,
            shown.one_cell.len() as u64,
            shown.one_zone.len() as u64,
            shown.zones.len() as u64,
        ],
        spreads: [
            spread_at(uneven, 0),
            spread_at(uneven, 1),
            spread_at(uneven, 2),
            spread_at(uneven, 3),
        ],
        verdict: shown.verdict,
    }
}

fn seen_in(alloc: Global, text: &str) -> Option<Seen> {
    if text.len() > 10_000 {
        return None;
    }
    let dump = read_dump(alloc, text.as_bytes()).ok()?;
    let site = Site::of(alloc, &dump).ok()?;
    let shown = show(alloc, &site).ok()?;
    Some(seen_of(&shown))
}

fn counts_of(lost: &Lost) -> [u64; 11] {
    [
        lost.cells,
        lost.displaced,
        lost.unplaced,
        lost.waiting,
        lost.waiting_unplaced,
        lost.tasks,
        lost.dark,
        lost.dark_of_many.len() as u64,
        lost.uneven,
        lost.zones.len() as u64,
        lost.moves.len() as u64,
    ]
}

// What is counted where a zone is lost.
fn lost_in(alloc: Global, text: &str, zone: &Name) -> Option<[u64; 11]> {
    if text.len() > 10_000 {
        return None;
    }
    let dump = read_dump(alloc, text.as_bytes()).ok()?;
    let site = Site::of(alloc, &dump).ok()?;
    let cells = cells_of_zone(alloc, &site, zone).ok()?;
    let lost = lose(alloc, &site, &cells).ok()?;
    Some(counts_of(&lost))
}

fn notes_in(alloc: Global, text: &str) -> Option<Notes> {
    if text.len() > 10_000 {
        return None;
    }
    let dump = read_dump(alloc, text.as_bytes()).ok()?;
    notes_of(alloc, &dump).ok()
}

#[test]
fn it_is_told_who_stands_where(rt: HostRuntime) -> Result<(), Fail> {
    let wanted = Seen {
        counts: [5, 0, 0, 8, 3, 0, 0, 0, 1, 2, 3],
        spreads: [Some(3), Some(2), Some(2), None],
        verdict: Verdict::Room,
    };
    assert_eq!(rt; seen_in(rt.alloc(), FIVE_CELLS), Some(wanted));
    Ok(())
}

#[test]
fn a_zone_goes(rt: HostRuntime) -> Result<(), Fail> {
    let zone = Name::read(b"z1")?;
    let wanted = [3, 7, 0, 0, 0, 0, 2, 2, 0, 3, 7];
    assert_eq!(rt; lost_in(rt.alloc(), FIVE_CELLS, &zone), Some(wanted));
    Ok(())
}

#[test]
fn containers_tell_what_is_wanted(rt: HostRuntime) -> Result<(), Fail> {
    let wanted = Notes {
        instances_from_containers: 8,
        optional_tags: 0,
        proxy_memory: 0,
        rows_of_no_cell: 0,
        silent_cells: 0,
        strays: 0,
        volume_drivers: 0,
    };
    assert_eq!(rt; notes_in(rt.alloc(), FIVE_CELLS), Some(wanted));
    Ok(())
}
