use cell_records::{Amounts, JobName};
use diego_names::{Key, List, Name};
use dump_lines::Each;
use dump_reader::LineCounts;
use forecast_records::{
    Case, EachLost, Filled, Finding, Fitted, Found, Lost, Notes, Unplaced, Verdict, ZoneCount,
};
use headroom_tables::table;
use room_facts::Reasons;
use std::test::Fail;

const COUNTS: LineCounts = LineCounts {
    actual: 0,
    cells: 0,
    desired: 0,
    domains: 7,
    states: 5,
    tasks: 0,
};

const NOTES: Notes = Notes {
    instances_from_containers: 4,
    optional_tags: 0,
    proxy_memory: 0,
    rows_of_no_cell: 0,
    silent_cells: 0,
    strays: 0,
    volume_drivers: 0,
};

const BEGIN: &str =
    "dump: cell states 5, cells 0, desired 0, actual 0, tasks 0\nnote: instances from containers 4\n";

fn name(text: &str) -> Result<Name, Fail> {
    Ok(Name::read(text.as_bytes())?)
}

// What is printed of one answer, behind what begins each text.
fn printed(rt: &HostRuntime, finding: Finding) -> Result<Vec<u8>, Fail> {
    let found = vec![in rt.alloc(); Found { line: 1, finding }]?;
    Ok(table(rt.alloc(), &COUNTS, &NOTES, found.as_slice())?)
}

fn wanted(rt: &HostRuntime, behind: &str) -> Result<Vec<u8>, Fail> {
    let mut text = Vec::from_slice(rt.alloc(), BEGIN.as_bytes())?;
    text.extend_from_slice(behind.as_bytes())?;
    Ok(text)
}

#[test]
fn without_a_question_the_dump_is_told(rt: HostRuntime) -> Result<(), Fail> {
    let text = table(rt.alloc(), &COUNTS, &NOTES, &[])?;
    assert_eq!(rt; text.as_slice(), BEGIN.as_bytes());
    Ok(())
}

fn zone_lost(
    rt: &HostRuntime,
    zone: &str,
    numbers: [u64; 3],
    tag: Option<Name>,
    verdict: Verdict,
) -> Result<Case, Fail> {
    let mut tags = List::new(rt.alloc());
    if verdict == Verdict::Short {
        tags.push(tag)?;
    }
    Ok(Case {
        lost: List::from(vec![in rt.alloc(); name(zone)?]?),
        cells: 20,
        displaced: numbers[0],
        unplaced: numbers[1],
        waiting_unplaced: 0,
        dark_of_many: numbers[2],
        tags,
        verdict,
    })
}

fn each_zone(rt: &HostRuntime, of: Each) -> Result<Finding, Fail> {
    let iso = Some(name("iso-a")?);
    let mut cases = List::new(rt.alloc());
    cases.push(zone_lost(rt, "z1", [402, 0, 1], None, Verdict::Room)?)?;
    cases.push(zone_lost(rt, "z2", [394, 0, 0], None, Verdict::Room)?)?;
    cases.push(zone_lost(rt, "z3", [404, 37, 1], iso, Verdict::Short)?)?;
    Ok(Finding::LoseEach(EachLost {
        of,
        room: 2,
        unplaced: 0,
        short: 1,
        cases,
        verdict: Verdict::Short,
    }))
}

fn printed_losses(rt: &HostRuntime, of: Each) -> Result<Vec<u8>, Fail> {
    let finding = each_zone(rt, of)?;
    printed(rt, finding)
}

// The losses of each zone of a dump with 60 cells. Of cells and pairs those that find room are left out.
#[test]
fn zones_that_find_room_are_told(rt: HostRuntime) -> Result<(), Fail> {
    let text = printed_losses(&rt, Each::Zone)?;
    let wanted = wanted(
        &rt,
        "\nlose each zone: tried 3, room 2, short 1, unplaced 0\nSHORT: not all can find room, whatever the scheduler\n\nLOST  CELLS  NEED ROOM  NO ROOM  DARK  VERDICT  TAGS\nz1       20        402        0     1  room\nz2       20        394        0     0  room\nz3       20        404       37     1  short    iso-a\n",
    )?;
    assert_eq!(rt; text.as_slice(), wanted.as_slice());
    Ok(())
}

#[test]
fn cells_that_find_room_are_left_out(rt: HostRuntime) -> Result<(), Fail> {
    let text = printed_losses(&rt, Each::Cell)?;
    let wanted = wanted(
        &rt,
        "\nlose each cell: tried 3, room 2, short 1, unplaced 0\nSHORT: not all can find room, whatever the scheduler\n\nLOST  CELLS  NEED ROOM  NO ROOM  DARK  VERDICT  TAGS\nz3       20        404       37     1  short    iso-a\n",
    )?;
    assert_eq!(rt; text.as_slice(), wanted.as_slice());
    Ok(())
}

fn unplaced(job: JobName, memory: u32, waited: bool) -> Unplaced {
    Unplaced {
        job,
        memory,
        disk: 10_240,
        tag: None,
        waited,
        reasons: Reasons {
            cells: 5,
            other_tag: 2,
            memory: 1,
            disk: 0,
            containers: 0,
            memory_disk: 2,
            memory_containers: 0,
            disk_containers: 0,
            memory_disk_containers: 0,
        },
        most_free: Amounts {
            memory: 100,
            disk: 9700,
            containers: 7,
        },
        as_large: 8,
        room_for: 7,
    }
}

fn instance(process: Name, index: u32, memory: u32, waited: bool) -> Unplaced {
    unplaced(JobName::Lrp(Key { process, index }), memory, waited)
}

fn several_without_room(web: Name, api: Name) -> [Unplaced; 8] {
    [
        instance(web, 3, 300, false),
        instance(api, 0, 200, false),
        unplaced(JobName::Task(web), 100, true),
        instance(web, 4, 300, true),
        instance(web, 5, 300, false),
        instance(web, 6, 300, false),
        instance(web, 3, 300, false),
        instance(web, 7, 300, false),
    ]
}

fn listed_jobs(rt: &HostRuntime) -> Result<List<Unplaced>, Fail> {
    let jobs = several_without_room(name("web")?, name("api")?);
    let listed = Vec::from_slice(rt.alloc(), &jobs)?;
    Ok(List::from(listed))
}

fn nothing_but(rt: &HostRuntime, without_room: List<Unplaced>) -> Result<Finding, Fail> {
    Ok(Finding::Lose(Lost {
        cells: 1,
        displaced: 7,
        unplaced: 6,
        waiting: 2,
        waiting_unplaced: 2,
        tasks: 0,
        dark: 1,
        dark_of_many: List::new(rt.alloc()),
        uneven: 0,
        tags: List::new(rt.alloc()),
        without_room,
        zones: List::new(rt.alloc()),
        moves: List::new(rt.alloc()),
        verdict: Verdict::Short,
    }))
}

fn printed_jobs(rt: &HostRuntime) -> Result<Vec<u8>, Fail> {
    let jobs = listed_jobs(rt)?;
    let finding = nothing_but(rt, jobs)?;
    printed(rt, finding)
}

// Those that waited stand apart, and so does a task of the same name.
#[test]
fn instances_of_one_process_are_one_row(rt: HostRuntime) -> Result<(), Fail> {
    let text = printed_jobs(&rt)?;
    let wanted = wanted(
        &rt,
        "\nlose: cells 1, need room 7, tasks that fail 0, waited before 2, dark 1 (of several instances 0)\nSHORT: not all can find room, whatever the scheduler\n\nNO ROOM FOR  INSTANCES  MEMORY  DISK  TAG  CELLS LACK               OTHER TAG  MOST FREE  AS LARGE       WAITED\nweb          3,5-7        300M   10G  -    1 memory, 2 memory+disk          2       100M  8, room for 7\napi          0            200M   10G  -    1 memory, 2 memory+disk          2       100M  8, room for 7\nweb          -            100M   10G  -    1 memory, 2 memory+disk          2       100M  8, room for 7  yes\nweb          4            300M   10G  -    1 memory, 2 memory+disk          2       100M  8, room for 7  yes\n",
    )?;
    assert_eq!(rt; text.as_slice(), wanted.as_slice());
    Ok(())
}

fn filled(cell: Name, zone: Name, instances: u64, memory: [u32; 2], disk: [u32; 2]) -> Filled {
    Filled {
        cell,
        zone,
        instances,
        free: Amounts {
            memory: memory[0],
            disk: disk[0],
            containers: 9,
        },
        free_left: Amounts {
            memory: memory[1],
            disk: disk[1],
            containers: 7,
        },
    }
}

fn three_cells(z1: Name, z2: Name) -> Result<[Filled; 3], Fail> {
    let c1 = name("c1")?;
    let c2 = name("c2")?;
    let c3 = name("c3")?;
    Ok([
        filled(c1, z1, 2, [600, 0], [9900, 9700]),
        filled(c2, z2, 1, [600, 300], [9900, 9800]),
        filled(c3, z2, 2, [1000, 400], [10_000, 9800]),
    ])
}

fn listed_cells(rt: &HostRuntime, z1: Name, z2: Name) -> Result<List<Filled>, Fail> {
    let cells = three_cells(z1, z2)?;
    let listed = Vec::from_slice(rt.alloc(), &cells)?;
    Ok(List::from(listed))
}

fn two_zones(z1: Name, z2: Name) -> [ZoneCount; 2] {
    [
        ZoneCount {
            zone: z1,
            instances: 2,
        },
        ZoneCount {
            zone: z2,
            instances: 3,
        },
    ]
}

fn listed_zones(rt: &HostRuntime, z1: Name, z2: Name) -> Result<List<ZoneCount>, Fail> {
    let listed = Vec::from_slice(rt.alloc(), &two_zones(z1, z2))?;
    Ok(List::from(listed))
}

fn some_fit(rt: &HostRuntime) -> Result<Finding, Fail> {
    let z1 = name("z1")?;
    let z2 = name("z2")?;
    let zones = listed_zones(rt, z1, z2)?;
    let filled = listed_cells(rt, z1, z2)?;
    Ok(Finding::Fit(Fitted {
        instances: 5,
        placed: 5,
        unplaced: 0,
        room_for: 7,
        zones,
        first: None,
        filled,
        verdict: Verdict::Room,
    }))
}

fn printed_fit(rt: &HostRuntime) -> Result<Vec<u8>, Fail> {
    let finding = some_fit(rt)?;
    printed(rt, finding)
}

#[test]
fn more_instances_fit(rt: HostRuntime) -> Result<(), Fail> {
    let text = printed_fit(&rt)?;
    let wanted = wanted(
        &rt,
        "\nfit: asked 5, placed 5, on cells 3 (z1 2, z2 3), room for 7 of this size\nROOM: all find room\n\nCELL  ZONE  INSTANCES  MEMORY FREE  THEN  DISK FREE   THEN\nc1    z1            2         600M    0M      9900M  9700M\nc2    z2            1         600M  300M      9900M  9800M\nc3    z2            2        1000M  400M     10000M  9800M\n",
    )?;
    assert_eq!(rt; text.as_slice(), wanted.as_slice());
    Ok(())
}
