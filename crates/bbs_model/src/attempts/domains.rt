//! What is asked of domains.
ghost use Rattle.std.specs.Prelude.{◌≡◌};
ghost use Rattle.bbs_model.specs.Domains as told;

use super::{drop_row, put, too_many};
use crate::{Attempt, BoardRefusal, DomainRow, Found, MOST_DOMAINS, Row};
use crash_backoff::Moment;
use diego_names::Name;

/// The domain is fresh for `ttl` seconds from now, or for ever where that is 0.
pub fn fresh(found: &Found, domain: Name, ttl: u32, now: Moment) -> Attempt
    ensures { result ≡ told.fresh found.now domain ttl now }
{
    if found.domain.is_none() && found.counts.domains >= MOST_DOMAINS {
        return too_many(MOST_DOMAINS);
    }
    let until = lease_end(ttl, now);
    let new = Row::Domain(DomainRow { domain, until });
    match found.domain {
        Some(old) if old.until == until => Attempt::Keep,
        Some(_) | None => put(new),
    }
}

/// The row of a domain that isn't fresh any more is dropped.
pub fn forget(found: &Found, now: Moment) -> Attempt
    ensures { result ≡ told.forget found.now now }
{
    match found.domain {
        None => Attempt::Refuse(BoardRefusal::Unknown),
        Some(old) if old.holds_at(now) => {
            let until = told_end(old.until);
            Attempt::Refuse(BoardRefusal::LeaseHolds { until })
        }
        Some(old) => drop_row(Row::Domain(old)),
    }
}

fn lease_end(ttl: u32, now: Moment) -> Option<u64>
    ensures { result ≡ told.lease_end ttl now }
{
    if ttl == 0 {
        None
    } else {
        Some(u64::from(now.0) + u64::from(ttl))
    }
}

fn told_end(until: Option<u64>) -> u64
    ensures { result ≡ told.told_end until }
{
    match until {
        None => u64::MAX,
        Some(until) => until,
    }
}
