use super::*;

// A domain that is fresh until then, or for ever.
fn vouched(until: Option<u64>) -> Result<DomainRow, NameFault> {
    let domain = apps()?;
    Ok(DomainRow { domain, until })
}

// A board with so many domains, of which the one that is asked for may be one.
fn among(domain: Option<DomainRow>, domains: u32) -> Found {
    let counts = Counts {
        domains,
        ..NO_ROWS.counts
    };
    Found {
        domain,
        counts,
        ..NO_ROWS
    }
}

fn fresh(ttl: u32) -> Result<Op, NameFault> {
    let domain = apps()?;
    Ok(Op::Fresh { domain, ttl })
}

fn forget() -> Result<Op, NameFault> {
    let domain = apps()?;
    Ok(Op::Forget { domain })
}

fn until(end: u64) -> Result<Attempt, NameFault> {
    Ok(put(Row::Domain(vouched(Some(end))?)))
}

fn for_ever() -> Result<Attempt, NameFault> {
    Ok(put(Row::Domain(vouched(None)?)))
}

// A board on which it is fresh until then.
fn ends(end: u64) -> Result<Found, NameFault> {
    Ok(among(Some(vouched(Some(end))?), 1))
}

#[test]
fn the_1001st_domain_is_too_many(rt: HostRuntime) -> Result<(), Fail> {
    let (ended, same) = (Some(vouched(Some(7))?), Some(vouched(Some(500))?));
    each_comes_to(
        &rt,
        &[
            (among(None, 999), fresh(100)?, until(500)?),
            (among(None, 1000), fresh(100)?, too_many(1000)),
            (among(None, 1000), fresh(0)?, too_many(1000)),
            (among(ended, 1000), fresh(100)?, until(500)?),
            (among(same, 1000), fresh(100)?, Attempt::Keep),
        ],
    );
    Ok(())
}

#[test]
fn a_domain_is_fresh_for_so_many_seconds_or_for_ever(rt: HostRuntime) -> Result<(), Fail> {
    let endless = among(Some(vouched(None)?), 1);
    each_comes_to(
        &rt,
        &[
            (NO_ROWS, fresh(0)?, for_ever()?),
            (NO_ROWS, fresh(1)?, until(401)?),
            (NO_ROWS, fresh(4_294_967_295)?, until(4_294_967_695)?),
            (ends(499)?, fresh(100)?, until(500)?),
            (ends(500)?, fresh(100)?, Attempt::Keep),
            (ends(501)?, fresh(100)?, until(500)?),
            (ends(500)?, fresh(0)?, for_ever()?),
            (endless, fresh(0)?, Attempt::Keep),
            (endless, fresh(100)?, until(500)?),
        ],
    );
    Ok(())
}

#[test]
fn a_domain_is_forgotten_in_the_second_at_which_it_ends(rt: HostRuntime) -> Result<(), Fail> {
    let (before, ended, holds) = (
        vouched(Some(399))?,
        vouched(Some(400))?,
        vouched(Some(401))?,
    );
    let endless = vouched(None)?;
    let never = BoardRefusal::LeaseHolds {
        until: 18_446_744_073_709_551_615,
    };
    let not_yet = BoardRefusal::LeaseHolds { until: 401 };
    let op = forget()?;
    each_comes_to(
        &rt,
        &[
            (NO_ROWS, op, refuse(BoardRefusal::Unknown)),
            (among(Some(endless), 1), op, refuse(never)),
            (among(Some(holds), 1), op, refuse(not_yet)),
            (among(Some(ended), 1), op, drop_row(Row::Domain(ended))),
            (among(Some(before), 1), op, drop_row(Row::Domain(before))),
        ],
    );
    Ok(())
}
