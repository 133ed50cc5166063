//! What clients ask of desired processes.
ghost use Rattle.std.specs.Prelude.{◌≡◌};
ghost use Rattle.bbs_model.specs.Attempts.{unless_refused, put as told_put};
ghost use Rattle.bbs_model.specs.Processes as told;

use super::{drop_row, put, too_many};
use crate::{Attempt, BoardRefusal, Found, MOST_INSTANCES, MOST_PROCESSES, MOST_WANTED, Row};
use diego_names::Name;
use lrp_records::Desired;

/// A new process is desired.
pub fn desire(found: &Found, desired: &Desired) -> Attempt
    ensures { result ≡ told.desire found.now desired.now }
{
    if found.desired.is_some() {
        return Attempt::Refuse(BoardRefusal::Exists);
    }
    if found.counts.desired >= MOST_PROCESSES {
        return too_many(MOST_PROCESSES);
    }
    if desired.instances > MOST_INSTANCES {
        return too_many(MOST_INSTANCES);
    }
    if u64::from(found.counts.wanted) + u64::from(desired.instances) > u64::from(MOST_WANTED) {
        return too_many(MOST_WANTED);
    }
    put(Row::Desired(*desired))
}

/// A desired process gets these instances, this route and this port.
pub fn update(found: &Found, instances: u32, route: Option<Name>, port: u16) -> Attempt
    ensures { result ≡ told.update found.now instances route port }
{
    match found.desired {
        None => Attempt::Refuse(BoardRefusal::Unknown),
        Some(old) if asks_for(&old, instances, &route, port) => Attempt::Keep,
        Some(old) => {
            let new = Desired {
                instances,
                route,
                port,
                ..old
            };
            resize(found, &old, new)
        }
    }
}

/// A process is desired no more.
pub fn undesire(found: &Found) -> Attempt
    ensures { result ≡ told.undesire found.now }
{
    match found.desired {
        None => Attempt::Refuse(BoardRefusal::Unknown),
        Some(desired) => drop_row(Row::Desired(desired)),
    }
}

fn asks_for(desired: &Desired, instances: u32, route: &Option<Name>, port: u16) -> bool
    ensures { result ≡ told.asks_for desired.now instances route.now port }
{
    desired.instances == instances && desired.route == *route && desired.port == port
}

fn resize(found: &Found, old: &Desired, new: Desired) -> Attempt
    ensures { result ≡ unless_refused (told.resize_refusals found.now old.now new.instances)
        (told_put (Row.Desired new)) }
{
    if new.instances > MOST_INSTANCES {
        return too_many(MOST_INSTANCES);
    }
    let others = found.counts.wanted.saturating_sub(old.instances);
    if u64::from(others) + u64::from(new.instances) > u64::from(MOST_WANTED) {
        return too_many(MOST_WANTED);
    }
    put(Row::Desired(new))
}
