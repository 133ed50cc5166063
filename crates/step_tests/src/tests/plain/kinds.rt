ghost use Rattle.bbs_model.specs.Valid.{IsValid};

use super::*;
use diego_names::StateName;
use task_records::TaskRefusal;

const EXISTS: Verdict = Verdict::Refused(BoardRefusal::Exists);

// The container that each command below names.
const OWN: Instance = Instance {
    epoch: 0,
    number: 1,
};

fn key(process: Name) -> Key {
    Key { process, index: 0 }
}

fn update(process: Name) -> Op {
    Op::Update {
        process,
        instances: 1,
        route: None,
        port: 8080,
    }
}

fn unclaim(process: Name) -> Op {
    let (key, instance) = (key(process), OWN);
    Op::Unclaim { key, instance }
}

fn place_fail(process: Name) -> Op {
    Op::PlaceFail { key: key(process) }
}

// A process is wanted, and its instance is placed.
fn placing(n: &Names) -> [(u32, Op, Verdict); 13] {
    [
        (0, join(n.c1, n.z1, (1024, 4096, 10), 600), OK),
        (0, desire(n.p, n.z1, 2), OK),
        (1, desire(n.p, n.z1, 1), EXISTS),
        (1, update(n.p), OK),
        (1, update(n.p), SAME),
        (1, make(n.p, 1), refused(BoardRefusal::NotWanted)),
        (1, make(n.p, 0), OK),
        (2, place_fail(n.p), OK),
        (2, place_fail(n.p), SAME),
        (3, claim(n.p, 0, OWN, n.c1), OK),
        (3, claim(n.p, 0, OWN, n.c1), SAME),
        (4, unclaim(n.p), OK),
        (4, unclaim(n.p), lrp(LrpRefusal::NotRunning)),
    ]
}

fn restart(process: Name) -> Op {
    Op::Restart { key: key(process) }
}

// It crashes four times, and is tried again 30 seconds after the fourth.
fn crashing(n: &Names) -> [(u32, Op, Verdict); 10] {
    [
        (10, start(n.p, 0, OWN, n.c1), OK),
        (20, crash(n.p, 0, OWN), OK),
        (20, start(n.p, 0, OWN, n.c1), OK),
        (30, crash(n.p, 0, OWN), OK),
        (30, start(n.p, 0, OWN, n.c1), OK),
        (40, crash(n.p, 0, OWN), OK),
        (40, start(n.p, 0, OWN, n.c1), OK),
        (50, crash(n.p, 0, OWN), OK),
        (79, restart(n.p), lrp(LrpRefusal::NotDue { at: 80 })),
        (80, restart(n.p), OK),
    ]
}

fn remove(process: Name) -> Op {
    let (key, instance) = (key(process), None);
    Op::Remove { key, instance }
}

// It evacuates, and is given up.
fn leaving(n: &Names) -> [(u32, Op, Verdict); 9] {
    [
        (81, start(n.p, 0, OWN, n.c1), OK),
        (82, evacuate(n.p, 0, OWN), OK),
        (82, evacuate(n.p, 0, OWN), SAME),
        (83, drop_evacuating(n.p, 0, OWN), OK),
        (83, drop_evacuating(n.p, 0, OWN), UNKNOWN),
        (84, Op::Undesire { process: n.p }, OK),
        (84, Op::Undesire { process: n.p }, UNKNOWN),
        (85, remove(n.p), OK),
        (85, remove(n.p), UNKNOWN),
    ]
}

fn not_due(at: u64) -> Verdict {
    Verdict::Refused(BoardRefusal::Task(TaskRefusal::NotDue { at }))
}

fn completed() -> Verdict {
    let state = StateName::Completed;
    Verdict::Refused(BoardRefusal::Task(TaskRefusal::WrongState { state }))
}

// A task completes and its outcome is taken. Another of its name is given up, and nobody asks.
fn tasks(n: &Names) -> [(u32, Op, Verdict); 14] {
    [
        (101, new_task(n.task), OK),
        (101, new_task(n.task), EXISTS),
        (102, start_task(n.task, OWN, n.c1), OK),
        (109, complete(n.task, OWN), OK),
        (109, complete(n.task, OWN), completed()),
        (110, Op::ResolveTask { name: n.task }, OK),
        (139, Op::KickTask { name: n.task }, not_due(140)),
        (140, Op::KickTask { name: n.task }, OK),
        (140, Op::ResolveTask { name: n.task }, OK),
        (140, Op::DeleteTask { name: n.task }, OK),
        (141, new_task(n.task), OK),
        (142, Op::CancelTask { name: n.task }, OK),
        (261, Op::ExpireTask { name: n.task }, not_due(262)),
        (262, Op::ExpireTask { name: n.task }, OK),
    ]
}

fn renew(cell: Name) -> Op {
    let (epoch, ttl) = (0, 600);
    Op::Renew { cell, epoch, ttl }
}

fn drain(cell: Name) -> Op {
    Op::Drain { cell, epoch: 0 }
}

// The cell renews its lease, is emptied, and goes.
fn parting(n: &Names) -> [(u32, Op, Verdict); 7] {
    let holds = BoardRefusal::LeaseHolds { until: 900 };
    [
        (300, renew(n.c1), OK),
        (300, renew(n.c1), SAME),
        (301, drain(n.c1), OK),
        (301, drain(n.c1), SAME),
        (899, Op::Vanish { cell: n.c1 }, refused(holds)),
        (900, Op::Vanish { cell: n.c1 }, OK),
        (
            900,
            Op::Vanish { cell: n.c1 },
            refused(BoardRefusal::UnknownCell),
        ),
    ]
}

// The cell has come anew, goes silent and leaves a SUSPECT row behind, which is dropped.
fn suspecting(n: &Names) -> [(u32, Op, Verdict); 10] {
    let own = container(34, 1);
    let holds = BoardRefusal::LeaseHolds { until: 1600 };
    [
        (1000, join(n.c1, n.z1, (1024, 4096, 10), 600), OK),
        (1000, desire(n.p, n.z1, 1), OK),
        (1000, make(n.p, 0), OK),
        (1001, start(n.p, 0, own, n.c1), OK),
        (1599, suspect(n.p, 0, own), refused(holds)),
        (1600, suspect(n.p, 0, own), OK),
        (1600, suspect(n.p, 0, own), SAME),
        (1601, drop_suspect(n.p, 0, own), OK),
        (1601, drop_suspect(n.p, 0, own), UNKNOWN),
        (1601, Op::Undesire { process: n.p }, OK),
    ]
}

// A domain is fresh for ten seconds, and forgotten with all else.
fn forgetting(n: &Names) -> [(u32, Op, Verdict); 7] {
    let holds = BoardRefusal::LeaseHolds { until: 1710 };
    [
        (1700, fresh(n.z1, 10), OK),
        (1700, fresh(n.z1, 10), SAME),
        (1709, forget(n.z1), refused(holds)),
        (1710, forget(n.z1), OK),
        (1710, forget(n.z1), UNKNOWN),
        (1710, remove(n.p), OK),
        (1710, Op::Vanish { cell: n.c1 }, OK),
    ]
}

fn all_come_to(rt: &impl Abort, alloc: Global, rows: &mut Rows) -> Result<(), Fail>
    requires { IsValid rows.old }
{
    let n = all_names()?;
    each_comes_to(rt, alloc, rows, &placing(&n))?;
    each_comes_to(rt, alloc, rows, &crashing(&n))?;
    each_comes_to(rt, alloc, rows, &leaving(&n))?;
    each_comes_to(rt, alloc, rows, &tasks(&n))?;
    each_comes_to(rt, alloc, rows, &parting(&n))?;
    assert_eq!(rt; rows.next, 34);
    each_comes_to(rt, alloc, rows, &suspecting(&n))?;
    each_comes_to(rt, alloc, rows, &forgetting(&n))?;
    assert_eq!(rt; (rows.desired.len(), rows.actual.len()), (0, 0));
    assert_eq!(rt; (rows.tasks.len(), rows.cells.len()), (0, 0));
    assert_eq!(rt; (rows.domains.len(), rows.next), (0, 45));
    Ok(())
}

#[test]
fn a_board_meets_every_kind_of_command(rt: HostRuntime) -> Result<(), Fail> {
    let mut rows = no_rows(rt.alloc());
    all_come_to(&rt, rt.alloc(), &mut rows)
}
