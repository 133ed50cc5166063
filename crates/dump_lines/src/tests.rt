use super::*;
use cell_records::Amounts;
use diego_names::Name;
use std::alloc::Global;
use std::test::Fail;

// What is told of a line in one word: its kind, or its fault.
fn word_of(alloc: Global, line: &str) -> &'static str {
    match read_dump_line(alloc, line.as_bytes()) {
        Ok(DumpLine::Asks(_)) => "asks",
        Ok(DumpLine::State(_)) => "state",
        Ok(DumpLine::Listed(_)) => "listed",
        Ok(DumpLine::Task(_)) => "task",
        Ok(DumpLine::Desired(_)) => "desired",
        Ok(DumpLine::Actual(_)) => "actual",
        Ok(DumpLine::Domain) => "domain",
        Err(LineError::Faulty(LineFault::BadJson)) => "bad json",
        Err(LineError::Faulty(LineFault::BadShape)) => "bad shape",
        Err(LineError::Faulty(LineFault::BadName)) => "bad name",
        Err(LineError::Faulty(LineFault::BadTags)) => "bad tags",
        Err(LineError::Faulty(LineFault::BadAmounts)) => "bad amounts",
        Err(LineError::OutOfMemory) => "out of memory",
    }
}

// Each kind with its least members, and what is passed over.
const KINDS: [(&str, &str); 16] = [
    ("\"cf-apps\"", "domain"),
    ("\"\"", "domain"),
    (r#"{"cell_id":"c1","zone":"z1","capacity":null}"#, "listed"),
    (r#"{"task_guid":"t","state":"Running"}"#, "task"),
    (
        r#"{"process_guid":"p","instances":0,"index":"x"}"#,
        "desired",
    ),
    (
        r#"{"process_guid":"p","index":0,"state":"crashed"}"#,
        "actual",
    ),
    (
        r#"{"process_guid":"p","instances":1,"capacity":1}"#,
        "bad shape",
    ),
    (r#"{"ask":"show","TotalResources":{}}"#, "bad shape"),
    (r#"{"process_guid":"p","index":0}"#, "bad shape"),
    (r#"{"task_guid":"t"}"#, "bad shape"),
    (r#"{"process_guid":"p"}"#, "bad shape"),
    (r#"{"key":"cf_apps","owner":"o"}"#, "bad shape"),
    ("{}", "bad shape"),
    ("[]", "bad shape"),
    ("null", "bad shape"),
    ("1", "bad shape"),
];

#[test]
fn a_line_is_what_its_members_say(rt: HostRuntime) -> Result<(), Fail> {
    for (line, word) in KINDS {
        assert_eq!(rt; word_of(rt.alloc(), line), word, "of {line}");
    }
    Ok(())
}

// Lines with members that lack, are null, or stand at a limit.
const MEMBERS: [(&str, &str); 30] = [
    (
        r#"{"task_guid":"t","state":"x","memory_mb":4294967295}"#,
        "task",
    ),
    (
        r#"{"task_guid":"t","state":"x","memory_mb":4294967296}"#,
        "bad shape",
    ),
    (
        r#"{"task_guid":"t","state":"x","memory_mb":-1}"#,
        "bad shape",
    ),
    (
        r#"{"task_guid":"t","state":"x","memory_mb":1.0}"#,
        "bad shape",
    ),
    (
        r#"{"task_guid":"t","state":"x","memory_mb":null}"#,
        "bad shape",
    ),
    (
        r#"{"task_guid":"t","state":"x","placement_tags":null}"#,
        "task",
    ),
    (
        r#"{"task_guid":"t","state":"x","placement_tags":"iso"}"#,
        "bad shape",
    ),
    (
        r#"{"task_guid":"t","state":"x","placement_tags":[null]}"#,
        "bad shape",
    ),
    (
        r#"{"task_guid":"t","state":"x","placement_tags":["a","a"]}"#,
        "task",
    ),
    (
        r#"{"task_guid":"t","state":"x","placement_tags":["a","b"]}"#,
        "bad tags",
    ),
    (
        r#"{"task_guid":"t","state":"x","PlacementTags":["a","b"]}"#,
        "bad tags",
    ),
    (
        r#"{"task_guid":"t","state":"x","placement_tags":["a"],"PlacementTags":["b"]}"#,
        "task",
    ),
    (r#"{"task_guid":"t","state":1}"#, "bad shape"),
    (r#"{"task_guid":null,"state":"x"}"#, "bad shape"),
    (r#"{"task_guid":"","state":"x"}"#, "bad name"),
    (r#"{"task_guid":"a b","state":"x"}"#, "bad name"),
    (
        r#"{"process_guid":"p","index":0,"state":"INVALID"}"#,
        "bad shape",
    ),
    (
        r#"{"process_guid":"p","index":0,"state":"RUNNING","presence":1}"#,
        "bad shape",
    ),
    (
        r#"{"process_guid":"p","index":0,"state":"RUNNING","presence":""}"#,
        "actual",
    ),
    (
        r#"{"process_guid":"p","index":0,"state":"RUNNING","cell_id":""}"#,
        "actual",
    ),
    (
        r#"{"process_guid":"p","index":0,"state":"RUNNING","cell_id":"c 1"}"#,
        "bad name",
    ),
    (
        r#"{"process_guid":"p","index":0,"state":"RUNNING","cell_id":null}"#,
        "bad shape",
    ),
    (
        r#"{"process_guid":"p","instances":1,"volume_placement":null}"#,
        "desired",
    ),
    (
        r#"{"process_guid":"p","instances":1,"volume_placement":[]}"#,
        "bad shape",
    ),
    (
        r#"{"process_guid":"p","instances":1,"volume_placement":{"driver_names":1}}"#,
        "bad shape",
    ),
    (
        r#"{"process_guid":"p","instances":1,"volume_mounts":{}}"#,
        "bad shape",
    ),
    (r#"{"cell_id":"c1","zone":1,"capacity":{}}"#, "bad shape"),
    (r#"{"cell_id":"c1","Zone":"z1","capacity":{}}"#, "bad shape"),
    (r#"{"cell_id":"c1","#, "bad json"),
    ("", "bad json"),
];

#[test]
fn members_are_of_their_kinds(rt: HostRuntime) -> Result<(), Fail> {
    for (line, word) in MEMBERS {
        assert_eq!(rt; word_of(rt.alloc(), line), word, "of {line}");
    }
    assert!(rt;
        matches!(
            read_dump_line(rt.alloc(), b"\"\xff\""),
            Err(LineError::Faulty(LineFault::BadJson))
        )
    );
    Ok(())
}

// The state of a cell in parts, so that each case tells what is special in it: its name, what it has in all,
// what is free, and other members.
fn state_word(alloc: Global, parts: [&str; 4]) -> Result<&'static str, Fail> {
    let [cell, totals, free, more] = parts;
    let line = format!(in alloc;
        "{{\"cell_id\":{cell},\"Zone\":\"z1\",\"TotalResources\":{totals},\"AvailableResources\":{free}{more}}}"
    )?;
    Ok(word_of(alloc, line.as_str()))
}

const TWO: &str = r#"{"MemoryMB":2,"DiskMB":2,"Containers":2}"#;

const ONE: &str = r#"{"MemoryMB":1,"DiskMB":1,"Containers":1}"#;

const MOST: &str = r#"{"MemoryMB":3,"DiskMB":2,"Containers":2}"#;

const DISK: &str = r#"{"MemoryMB":2,"DiskMB":3,"Containers":2}"#;

const MANY: &str = r#"{"MemoryMB":2,"DiskMB":2,"Containers":3}"#;

const STATES: [([&str; 4], &str); 22] = [
    ([r#""c1""#, TWO, ONE, ""], "state"),
    ([r#""c1""#, TWO, TWO, ""], "state"),
    ([r#""c1""#, TWO, MOST, ""], "bad amounts"),
    ([r#""c1""#, TWO, DISK, ""], "bad amounts"),
    ([r#""c1""#, TWO, MANY, ""], "bad amounts"),
    ([r#""c1""#, TWO, "{}", ""], "bad shape"),
    ([r#""c1""#, TWO, "null", ""], "bad shape"),
    ([r#""c 1""#, TWO, ONE, ""], "bad name"),
    (
        [
            r#""c1""#,
            TWO,
            ONE,
            r#","LRPs":null,"Tasks":null,"PlacementTags":null,"OptionalPlacementTags":null"#,
        ],
        "state",
    ),
    ([r#""c1""#, TWO, ONE, r#","LRPs":{}"#], "bad shape"),
    ([r#""c1""#, TWO, ONE, r#","Tasks":[1]"#], "bad shape"),
    ([r#""c1""#, TWO, ONE, r#","Evacuating":0"#], "bad shape"),
    (
        [r#""c1""#, TWO, ONE, r#","ProxyMemoryAllocationMB":"32""#],
        "bad shape",
    ),
    (
        [r#""c1""#, TWO, ONE, r#","PlacementTags":["iso","gpu"]"#],
        "bad tags",
    ),
    // Of two faults the first in the order counts, wherever they stand.
    (
        [
            r#""c 1""#,
            TWO,
            MOST,
            r#","PlacementTags":["iso","gpu"],"Evacuating":0"#,
        ],
        "bad shape",
    ),
    (
        [r#""c 1""#, TWO, MOST, r#","PlacementTags":["iso","gpu"]"#],
        "bad name",
    ),
    (
        [r#""c1""#, TWO, MOST, r#","PlacementTags":["iso","gpu"]"#],
        "bad tags",
    ),
    (
        [
            r#""c1""#,
            TWO,
            MOST,
            r#","PlacementTags":["iso","gpu","a b"]"#,
        ],
        "bad name",
    ),
    (
        [
            r#""c1""#,
            TWO,
            ONE,
            r#","PlacementTags":["iso","gpu"],"LRPs":[{"process_guid":"","index":0,"MemoryMB":1,"DiskMB":1}]"#,
        ],
        "bad name",
    ),
    (
        [
            r#""c1""#,
            TWO,
            ONE,
            r#","LRPs":[{"process_guid":"","index":0,"MemoryMB":1,"DiskMB":1},{"process_guid":"p","MemoryMB":1,"DiskMB":1}]"#,
        ],
        "bad shape",
    ),
    (
        [
            r#""c1""#,
            TWO,
            ONE,
            r#","LRPs":[{"process_guid":"p","index":0,"MemoryMB":1,"DiskMB":1},{"process_guid":"p","index":1,"MemoryMB":1,"DiskMB":1}]"#,
        ],
        "state",
    ),
    (
        [
            r#""c1""#,
            TWO,
            ONE,
            r#","LRPs":[{"process_guid":"p","index":0,"MemoryMB":1,"DiskMB":1},{"process_guid":"p","index":1,"MemoryMB":1,"DiskMB":1}],"Tasks":[{"task_guid":"t","MemoryMB":1,"DiskMB":1}]"#,
        ],
        "bad amounts",
    ),
];

#[test]
fn of_two_faults_the_first_in_the_order_counts(rt: HostRuntime) -> Result<(), Fail> {
    for (parts, word) in STATES {
        let told = state_word(rt.alloc(), parts)?;
        assert_eq!(rt; told, word, "of {parts:?}");
    }
    Ok(())
}

const QUESTIONS: [(&str, &str); 40] = [
    (r#"{"ask":"show"}"#, "asks"),
    (r#"{"ask":"Show"}"#, "bad shape"),
    (r#"{"ask":1}"#, "bad shape"),
    (r#"{"ask":"show","of":"zone"}"#, "bad shape"),
    (r#"{"ask":"lose","cells":["b1"]}"#, "asks"),
    (r#"{"ask":"lose","zones":["z1"],"cells":null}"#, "asks"),
    (r#"{"ask":"lose","zones":["z 1"]}"#, "bad name"),
    (r#"{"ask":"lose","zones":["z 1",2]}"#, "bad shape"),
    (r#"{"ask":"lose"}"#, "bad shape"),
    (r#"{"ask":"lose","cells":[],"zones":null}"#, "bad shape"),
    (r#"{"ask":"lose","cells":"b1"}"#, "bad shape"),
    (r#"{"ask":"lose_each","of":"zone"}"#, "asks"),
    (r#"{"ask":"lose_each","of":"tag"}"#, "bad shape"),
    (r#"{"ask":"lose_each"}"#, "bad shape"),
    (
        r#"{"ask":"lose_in_turn","order":"fullest","at_least":1}"#,
        "asks",
    ),
    (r#"{"ask":"lose_in_turn","order":"name"}"#, "asks"),
    (
        r#"{"ask":"lose_in_turn","order":"name","cells":["c1"]}"#,
        "bad shape",
    ),
    (
        r#"{"ask":"lose_in_turn","order":"given","cells":["c1"]}"#,
        "asks",
    ),
    (r#"{"ask":"lose_in_turn","order":"given"}"#, "bad shape"),
    (
        r#"{"ask":"lose_in_turn","order":"given","cells":[""],"at_least":-1}"#,
        "bad shape",
    ),
    (
        r#"{"ask":"lose_in_turn","order":"given","cells":[""]}"#,
        "bad name",
    ),
    (
        r#"{"ask":"lose_in_turn","order":"given","cells":[]}"#,
        "bad shape",
    ),
    (
        r#"{"ask":"lose_in_turn","order":"given","cells":null}"#,
        "bad shape",
    ),
    (r#"{"ask":"lose_in_turn"}"#, "bad shape"),
    (r#"{"ask":"drain","at_a_time":2}"#, "asks"),
    (r#"{"ask":"drain","at_a_time":1}"#, "asks"),
    (r#"{"ask":"drain","at_a_time":0}"#, "bad shape"),
    (r#"{"ask":"drain","at_a_time":0,"cells":[""]}"#, "bad shape"),
    (r#"{"ask":"drain","at_a_time":2,"cells":[]}"#, "bad shape"),
    (
        r#"{"ask":"drain","at_a_time":2,"cells":["c1","c2"]}"#,
        "asks",
    ),
    (r#"{"ask":"drain","cells":["c1"]}"#, "bad shape"),
    (
        r#"{"ask":"drain","at_a_time":2,"zones":["z1"]}"#,
        "bad shape",
    ),
    (
        r#"{"ask":"fit","instances":5,"memory":300,"disk":100}"#,
        "asks",
    ),
    (
        r#"{"ask":"fit","instances":1,"memory":1,"disk":1,"tag":"iso","process":"web"}"#,
        "asks",
    ),
    (
        r#"{"ask":"fit","instances":4294967296,"memory":1,"disk":1}"#,
        "bad shape",
    ),
    (r#"{"ask":"fit","instances":1,"memory":1}"#, "bad shape"),
    (
        r#"{"ask":"fit","instances":1,"memory":1,"disk":1,"tag":["iso"]}"#,
        "bad shape",
    ),
    (
        r#"{"ask":"fit","instances":1,"memory":1,"disk":1,"tag":""}"#,
        "bad name",
    ),
    (
        r#"{"ask":"fit","instances":1,"memory":1,"disk":1,"cells":[]}"#,
        "bad shape",
    ),
    (r#"{"ask":"plan"}"#, "bad shape"),
];

#[test]
fn questions_have_no_members_but_their_own(rt: HostRuntime) -> Result<(), Fail> {
    for (line, word) in QUESTIONS {
        assert_eq!(rt; word_of(rt.alloc(), line), word, "of {line}");
    }
    Ok(())
}

const CELL: &str =
    r#"{"cell_id":"c1","AvailableResources":{"MemoryMB":3328,"DiskMB":13312,"Containers":47},"TotalResources":{"MemoryMB":4096,"DiskMB":16384,"Containers":50},"LRPs":[{"instance_guid":"web-0","process_guid":"web","index":3,"domain":"cf-apps","PlacementTags":["iso"],"VolumeDrivers":["nfs"],"RootFs":"preloaded:cflinuxfs4","MemoryMB":256,"DiskMB":1024,"MaxPids":1024,"state":"RUNNING"},{"instance_guid":"done-0","process_guid":"done","index":0,"domain":"cf-apps","PlacementTags":[],"VolumeDrivers":null,"MemoryMB":257,"DiskMB":1025,"state":"Completed"}],"Tasks":[{"TaskGuid":"t1","task_guid":"t2","Domain":"cf-tasks","PlacementTags":["a","b"],"MemoryMB":128,"DiskMB":512,"state":"Completed","failed":false}],"StartingContainerCount":0,"Zone":"z1","Evacuating":true,"PlacementTags":["iso"],"OptionalPlacementTags":["extra"],"ProxyMemoryAllocationMB":32}"#;

fn is_name(name: Option<Name>, text: &str) -> bool {
    match name {
        Some(name) => name.as_str() == text,
        None => text.is_empty(),
    }
}

fn asks_for(demand: &Demand, memory: u32, disk: u32, tag: &str) -> bool {
    demand.memory == memory && demand.disk == disk && is_name(demand.tag, tag)
}

fn is_instance(row: &InstanceOnCell, process: &str, index: u32) -> bool {
    row.process.as_str() == process && row.index == index
}

fn are_its_instances(rows: &[InstanceOnCell]) -> bool {
    match rows {
        [web, done] => {
            is_instance(web, "web", 3)
                && web.memory == 256
                && web.disk == 1024
                && is_name(web.tag, "iso")
                && !web.ended
                && web.has_volume_drivers
                && is_instance(done, "done", 0)
                && done.memory == 257
                && done.disk == 1025
                && is_name(done.tag, "")
                && done.ended
                && !done.has_volume_drivers
        }
        _ => false,
    }
}

fn are_its_tasks(rows: &[TaskOnCell]) -> bool {
    match rows {
        [task] => task.task.as_str() == "t1" && task.memory == 128 && task.disk == 512,
        _ => false,
    }
}

fn is_the_cell(state: &CellState) -> bool {
    let totals = Amounts {
        memory: 4096,
        disk: 16384,
        containers: 50,
    };
    let free = Amounts {
        memory: 3328,
        disk: 13312,
        containers: 47,
    };
    state.place.cell.as_str() == "c1"
        && state.place.zone.as_str() == "z1"
        && state.totals == totals
        && state.free == free
        && is_name(state.tag, "iso")
        && state.has_optional_tags
        && state.evacuating
        && state.proxy_memory == 32
}

fn cell_is_read(alloc: Global) -> bool {
    match read_dump_line(alloc, CELL.as_bytes()) {
        Ok(DumpLine::State(state)) => {
            is_the_cell(&state)
                && are_its_instances(state.instances.items())
                && are_its_tasks(state.tasks.items())
        }
        _ => false,
    }
}

#[test]
fn a_cell_tells_all_of_itself(rt: HostRuntime) -> Result<(), Fail> {
    assert!(rt; cell_is_read(rt.alloc()));
    Ok(())
}

const LISTED: &str =
    r#"{"cell_id":"c3","rep_address":"http://10.0.0.1:1800","zone":"z2","capacity":{"memory_mb":4096,"disk_mb":16384,"containers":50},"placement_tags":[]}"#;

const TASK: &str =
    r#"{"task_guid":"t9","domain":"cf-tasks","memory_mb":128,"disk_mb":512,"state":"Pending","cell_id":"","PlacementTags":["gpu"],"placement_tags":[]}"#;

const DESIRED: &str =
    r#"{"process_guid":"web","domain":"cf-apps","instances":3,"memory_mb":256,"disk_mb":1024,"rootfs":"preloaded:cflinuxfs4","placement_tags":["iso"],"PlacementTags":["gpu"],"annotation":"1","volume_placement":{"driver_names":["nfs"]}}"#;

const ACTUAL: &str =
    r#"{"process_guid":"web","index":2,"domain":"cf-apps","instance_guid":"web-2","cell_id":"c3","state":"Claimed","since":1700000000000000000,"presence":"Evacuating","crash_count":0}"#;

fn listed_is_read(alloc: Global) -> bool {
    match read_dump_line(alloc, LISTED.as_bytes()) {
        Ok(line) => listed_is_told(&line),
        Err(_) => false,
    }
}

fn listed_is_told(line: &DumpLine) -> bool {
    match line {
        DumpLine::Listed(place) => is_the_place(place),
        _ => false,
    }
}

fn is_the_place(place: &Place) -> bool {
    place.cell.as_str() == "c3" && place.zone.as_str() == "z2"
}

fn task_is_read(alloc: Global) -> bool {
    match read_dump_line(alloc, TASK.as_bytes()) {
        Ok(line) => task_is_told(&line),
        Err(_) => false,
    }
}

fn task_is_told(line: &DumpLine) -> bool {
    match line {
        DumpLine::Task(row) => is_the_task(row),
        _ => false,
    }
}

fn is_the_task(row: &TaskRow) -> bool {
    row.task.as_str() == "t9" && row.waits && asks_for(&row.demand, 128, 512, "gpu")
}

fn desired_is_read(alloc: Global) -> bool {
    match read_dump_line(alloc, DESIRED.as_bytes()) {
        Ok(line) => desired_is_told(&line),
        Err(_) => false,
    }
}

fn desired_is_told(line: &DumpLine) -> bool {
    match line {
        DumpLine::Desired(row) => is_the_desired(row),
        _ => false,
    }
}

fn is_the_desired(row: &DesiredRow) -> bool {
    row.process.as_str() == "web"
        && row.instances == 3
        && asks_for(&row.demand, 256, 1024, "iso")
        && row.has_volume_drivers
}

fn actual_is_read(alloc: Global) -> bool {
    match read_dump_line(alloc, ACTUAL.as_bytes()) {
        Ok(line) => actual_is_told(&line),
        Err(_) => false,
    }
}

fn actual_is_told(line: &DumpLine) -> bool {
    match line {
        DumpLine::Actual(row) => is_the_actual(row),
        _ => false,
    }
}

fn is_the_actual(row: &ActualRow) -> bool {
    row.instance.process.as_str() == "web"
        && row.instance.index == 2
        && row.state == RowState::Claimed
        && !row.ordinary
        && is_name(row.cell, "c3")
}

#[test]
fn rows_tell_what_they_say(rt: HostRuntime) -> Result<(), Fail> {
    assert!(rt; listed_is_read(rt.alloc()));
    assert!(rt; task_is_read(rt.alloc()));
    assert!(rt; desired_is_read(rt.alloc()));
    assert!(rt; actual_is_read(rt.alloc()));
    Ok(())
}

fn is_name_list(names: &[Name], texts: &[&str]) -> bool {
    names.len() == texts.len()
        && names
            .iter()
            .zip(texts.iter())
            .all(|(name, text)| name.as_str() == *text)
}

fn fit_is_new(alloc: Global) -> bool {
    let line = r#"{"ask":"fit","instances":5,"memory":300,"disk":100}"#;
    match read_dump_line(alloc, line.as_bytes()) {
        Ok(DumpLine::Asks(question)) => is_new_fit(&question),
        _ => false,
    }
}

fn is_new_fit(question: &Question) -> bool {
    match question {
        Question::Fit {
            process,
            instances,
            demand,
        } => process.as_str() == "new" && *instances == 5 && asks_for(demand, 300, 100, ""),
        _ => false,
    }
}

fn turns_are_given(alloc: Global) -> bool {
    let line = r#"{"ask":"lose_in_turn","order":"given","cells":["c2","c1"]}"#;
    match read_dump_line(alloc, line.as_bytes()) {
        Ok(DumpLine::Asks(question)) => are_given_turns(&question),
        _ => false,
    }
}

fn are_given_turns(question: &Question) -> bool {
    match question {
        Question::LoseInTurn { order, at_least } => is_given(order) && *at_least == 1,
        _ => false,
    }
}

fn is_given(order: &TurnOrder) -> bool {
    match order {
        TurnOrder::Given(cells) => is_name_list(cells.items(), &["c2", "c1"]),
        _ => false,
    }
}

fn all_are_drained(alloc: Global) -> bool {
    let line = r#"{"ask":"drain","at_a_time":2}"#;
    match read_dump_line(alloc, line.as_bytes()) {
        Ok(DumpLine::Asks(Question::Drain { at_a_time, cells })) => {
            at_a_time == 2 && cells.is_none()
        }
        _ => false,
    }
}

#[test]
fn questions_tell_what_they_ask(rt: HostRuntime) -> Result<(), Fail> {
    assert!(rt; fit_is_new(rt.alloc()));
    assert!(rt; turns_are_given(rt.alloc()));
    assert!(rt; all_are_drained(rt.alloc()));
    Ok(())
}
