//! A domain that is kept fresh for ever, then for ten seconds.
ghost use Rattle.bbs_model.specs.Valid.{IsValid};

use super::*;

fn holds(until: u64) -> Verdict {
    refused(BoardRefusal::LeaseHolds { until })
}

fn for_ever(apps: Name) -> [(u32, Op, Verdict); 3] {
    [
        (0, fresh(apps, 0), OK),
        (0, fresh(apps, 0), SAME),
        (0, forget(apps), holds(18_446_744_073_709_551_615)),
    ]
}

fn for_ten_seconds(apps: Name) -> [(u32, Op, Verdict); 2] {
    [(0, fresh(apps, 10), OK), (9, forget(apps), holds(10))]
}

// The domains of a board, where this one is fresh until then.
fn vouched(domain: Name, until: Option<u64>) -> [DomainRow; 1] {
    [DomainRow { domain, until }]
}

fn come_and_go(rt: &impl Abort, alloc: Global, rows: &mut Rows) -> Result<(), Fail>
    requires { IsValid rows.old }
{
    let apps = Name::read(b"apps")?;
    each_comes_to(rt, alloc, rows, &for_ever(apps))?;
    assert_eq!(rt; rows.domains.items(), vouched(apps, None).as_slice());
    each_comes_to(rt, alloc, rows, &for_ten_seconds(apps))?;
    assert_eq!(rt; rows.domains.items(), vouched(apps, Some(10)).as_slice());
    each_comes_to(rt, alloc, rows, &[(10, forget(apps), OK)])?;
    assert_eq!(rt; (rows.domains.len(), rows.next), (0, 3));
    Ok(())
}

#[test]
fn a_domain_is_fresh_until_its_end(rt: HostRuntime) -> Result<(), Fail> {
    let mut rows = no_rows(rt.alloc());
    come_and_go(&rt, rt.alloc(), &mut rows)
}
