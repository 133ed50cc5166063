ghost use Rattle.bbs_model.specs.Valid.{IsValid};

use super::*;

const SMALL: (u32, u32, u32) = (1024, 4096, 10);

const LARGE: (u32, u32, u32) = (4096, 16384, 50);

fn claimed(process: Name, index: u32, domain: Name, instance: Instance, cell: Name) -> Actual {
    let state = LrpState::Claimed { instance, cell };
    Actual {
        state,
        domain: Some(domain),
        ..unclaimed(process, index, 1)
    }
}

// Two cells join, and a process of three instances is placed on them.
fn first_placement(n: &Names, web: Name, apps: Name) -> [(u32, Op, Verdict); 9] {
    [
        (0, join(n.c1, n.z1, SMALL, 600), OK),
        (0, join(n.c2, n.z2, SMALL, 600), OK),
        (0, desire(web, apps, 3), OK),
        (1, make(web, 0), OK),
        (1, make(web, 1), OK),
        (1, make(web, 2), OK),
        (1, claim(web, 0, container(0, 1), n.c1), OK),
        (1, claim(web, 1, container(1, 1), n.c2), OK),
        (1, claim(web, 2, container(0, 2), n.c1), OK),
    ]
}

fn place(rt: &impl Abort, alloc: Global, rows: &mut Rows) -> Result<(), Fail>
    requires { IsValid rows.old }
{
    let n = all_names()?;
    let (web, apps) = (Name::read(b"web")?, Name::read(b"apps")?);
    each_comes_to(rt, alloc, rows, &first_placement(&n, web, apps))?;
    assert_eq!(rt; rows.next, 9);
    assert_eq!(rt; rows.desired.items(), [wanted(web, apps, 3)].as_slice());
    let cells = rows.cells.items().iter().map(|row| (row.epoch, row.until));
    assert!(rt; cells.eq([(0, 600), (1, 600)]));
    let placed = [
        claimed(web, 0, apps, container(0, 1), n.c1),
        claimed(web, 1, apps, container(1, 1), n.c2),
        claimed(web, 2, apps, container(0, 2), n.c1),
    ];
    assert_eq!(rt; rows.actual.items(), placed.as_slice());
    Ok(())
}

#[test]
fn a_process_is_placed(rt: HostRuntime) -> Result<(), Fail> {
    let mut rows = no_rows(rt.alloc());
    place(&rt, rt.alloc(), &mut rows)
}

fn joins_and_wishes(n: &Names, apps: Name) -> [(u32, Op, Verdict); 7] {
    [
        (0, join(n.c1, n.z1, LARGE, 3600), OK),
        (0, join(n.c2, n.z1, LARGE, 3600), OK),
        (0, join(n.c3, n.z2, LARGE, 3600), OK),
        (0, join(n.c4, n.z2, LARGE, 3600), OK),
        (0, desire(n.p, apps, 3), OK),
        (0, desire(n.q, apps, 1), OK),
        (0, new_task(n.task), OK),
    ]
}

fn placements(n: &Names) -> [(u32, Op, Verdict); 9] {
    [
        (1, make(n.p, 0), OK),
        (1, make(n.p, 1), OK),
        (1, make(n.p, 2), OK),
        (1, make(n.q, 0), OK),
        (1, claim(n.q, 0, container(0, 1), n.c1), OK),
        (1, claim(n.p, 0, container(1, 1), n.c2), OK),
        (1, start_task(n.task, container(2, 1), n.c3), OK),
        (1, claim(n.p, 1, container(3, 1), n.c4), OK),
        (1, claim(n.p, 2, container(2, 2), n.c3), OK),
    ]
}

fn starts_and_a_crash(n: &Names) -> [(u32, Op, Verdict); 6] {
    [
        (5, start(n.q, 0, container(0, 1), n.c1), OK),
        (5, start(n.p, 0, container(1, 1), n.c2), OK),
        (5, start(n.p, 2, container(2, 2), n.c3), OK),
        (5, start(n.p, 1, container(3, 1), n.c4), OK),
        (20, complete(n.task, container(2, 1)), OK),
        (20, crash(n.p, 0, container(1, 1)), OK),
    ]
}

fn outcome_and_evacuation(n: &Names) -> [(u32, Op, Verdict); 4] {
    let drain = Op::Drain {
        cell: n.c4,
        epoch: 3,
    };
    [
        (25, Op::ResolveTask { name: n.task }, OK),
        (25, Op::DeleteTask { name: n.task }, OK),
        (25, drain, OK),
        (25, evacuate(n.p, 1, container(3, 1)), OK),
    ]
}

fn placements_anew(n: &Names) -> [(u32, Op, Verdict); 5] {
    [
        (30, claim(n.p, 0, container(1, 2), n.c2), OK),
        (30, claim(n.p, 1, container(0, 2), n.c1), OK),
        (35, start(n.p, 1, container(0, 2), n.c1), OK),
        (35, start(n.p, 0, container(1, 2), n.c2), OK),
        (40, drop_evacuating(n.p, 1, container(3, 1)), OK),
    ]
}

fn live(rt: &impl Abort, alloc: Global, rows: &mut Rows) -> Result<(), Fail>
    requires { IsValid rows.old }
{
    let n = all_names()?;
    let apps = Name::read(b"cf-apps")?;
    each_comes_to(rt, alloc, rows, &joins_and_wishes(&n, apps))?;
    let births = rows.tasks.items().iter().map(|task| task.birth);
    assert!(rt; births.eq([6]));
    each_comes_to(rt, alloc, rows, &placements(&n))?;
    each_comes_to(rt, alloc, rows, &starts_and_a_crash(&n))?;
    each_comes_to(rt, alloc, rows, &outcome_and_evacuation(&n))?;
    assert_eq!(rt; (rows.tasks.len(), rows.actual.len()), (0, 5));
    each_comes_to(rt, alloc, rows, &placements_anew(&n))?;
    assert_eq!(rt; rows.next, 31);
    assert_eq!(rt; rows.actual.items(), last_rows(&n, apps).as_slice());
    Ok(())
}

#[test]
fn a_board_lives_through_a_crash_and_an_evacuation(rt: HostRuntime) -> Result<(), Fail> {
    let mut rows = no_rows(rt.alloc());
    live(&rt, rt.alloc(), &mut rows)
}

// What runs at the end, of which one has crashed once.
fn last_rows(n: &Names, apps: Name) -> [Actual; 4] {
    let crashed = running(n.p, 0, apps, container(1, 2), n.c2);
    let p2 = running(n.p, 2, apps, container(2, 2), n.c3);
    let q0 = running(n.q, 0, apps, container(0, 1), n.c1);
    [
        Actual {
            count: 1,
            ..since(35, crashed)
        },
        since(35, running(n.p, 1, apps, container(0, 2), n.c1)),
        since(5, p2),
        since(5, q0),
    ]
}
