//! Instances whose cells go silent.
ghost use Rattle.bbs_model.specs.Valid.{IsValid};

use super::*;

const SIZES: (u32, u32, u32) = (1024, 4096, 10);

// The containers of the instance, on one cell after another.
const FIRST: Instance = Instance {
    epoch: 0,
    number: 1,
};

const SECOND: Instance = Instance {
    epoch: 1,
    number: 1,
};

const THIRD: Instance = Instance {
    epoch: 2,
    number: 1,
};

fn holds(until: u64) -> Verdict {
    refused(BoardRefusal::LeaseHolds { until })
}

fn elsewhere(have: Instance) -> Verdict {
    lrp(LrpRefusal::WrongInstance { have })
}

// An instance leaves its first cell, which is emptied, and its second one, which goes silent.
fn leaving_two_cells(n: &Names) -> [(u32, Op, Verdict); 12] {
    [
        (0, join(n.c1, n.z1, SIZES, 600), OK),
        (0, join(n.c2, n.z1, SIZES, 60), OK),
        (0, join(n.c3, n.z2, SIZES, 90), OK),
        (0, desire(n.p, n.task, 1), OK),
        (1, make(n.p, 0), OK),
        (2, start(n.p, 0, FIRST, n.c1), OK),
        (10, evacuate(n.p, 0, FIRST), OK),
        (20, start(n.p, 0, SECOND, n.c2), OK),
        (59, suspect(n.p, 0, SECOND), holds(60)),
        (60, suspect(n.p, 0, SECOND), OK),
        (60, suspect(n.p, 0, SECOND), SAME),
        (70, start(n.p, 0, THIRD, n.c3), OK),
    ]
}

// The third cell goes silent too.
fn leaving_a_third(n: &Names) -> [(u32, Op, Verdict); 6] {
    [
        (71, suspect(n.p, 0, SECOND), SAME),
        (71, suspect(n.p, 0, FIRST), elsewhere(THIRD)),
        (71, drop_suspect(n.p, 0, FIRST), elsewhere(SECOND)),
        (71, drop_evacuating(n.p, 0, SECOND), elsewhere(FIRST)),
        (89, suspect(n.p, 0, THIRD), holds(90)),
        (90, suspect(n.p, 0, THIRD), OK),
    ]
}

fn dropping_both(n: &Names) -> [(u32, Op, Verdict); 5] {
    [
        (91, drop_suspect(n.p, 0, SECOND), elsewhere(THIRD)),
        (91, drop_evacuating(n.p, 0, FIRST), OK),
        (91, drop_evacuating(n.p, 0, FIRST), UNKNOWN),
        (91, drop_suspect(n.p, 0, THIRD), OK),
        (91, drop_suspect(n.p, 0, THIRD), UNKNOWN),
    ]
}

// The row of that container with this presence.
fn kept(n: &Names, presence: Presence, instance: Instance, cell: Name, second: u32) -> Actual {
    let row = running(n.p, 0, n.task, instance, cell);
    Actual {
        presence,
        ..since(second, row)
    }
}

// The ORDINARY row after the last suspicion.
fn placed_anew(n: &Names) -> Actual {
    let domain = Some(n.task);
    Actual {
        domain,
        ..unclaimed(n.p, 0, 90)
    }
}

// Three rows of one instance, each of another container.
fn three_rows(n: &Names) -> [Actual; 3] {
    [
        kept(n, Presence::Ordinary, THIRD, n.c3, 70),
        kept(n, Presence::Evacuating, FIRST, n.c1, 2),
        kept(n, Presence::Suspect, SECOND, n.c2, 20),
    ]
}

// The new SUSPECT row stands in the place of the old one.
fn replaced_rows(n: &Names) -> [Actual; 3] {
    [
        placed_anew(n),
        kept(n, Presence::Evacuating, FIRST, n.c1, 2),
        kept(n, Presence::Suspect, THIRD, n.c3, 70),
    ]
}

fn fall_silent(rt: &impl Abort, alloc: Global, rows: &mut Rows) -> Result<(), Fail>
    requires { IsValid rows.old }
{
    let n = all_names()?;
    each_comes_to(rt, alloc, rows, &leaving_two_cells(&n))?;
    assert_eq!(rt; rows.actual.items(), three_rows(&n).as_slice());
    each_comes_to(rt, alloc, rows, &leaving_a_third(&n))?;
    assert_eq!(rt; rows.actual.items(), replaced_rows(&n).as_slice());
    each_comes_to(rt, alloc, rows, &dropping_both(&n))?;
    assert_eq!(rt; rows.actual.items(), [placed_anew(&n)].as_slice());
    assert_eq!(rt; rows.next, 13);
    Ok(())
}

#[test]
fn an_instance_has_a_suspect_row_beside_an_evacuating_one(rt: HostRuntime) -> Result<(), Fail> {
    let mut rows = no_rows(rt.alloc());
    fall_silent(&rt, rt.alloc(), &mut rows)
}
