//! The entry of a row that runs.
ghost use Rattle.std.specs.Prelude.{◌≡◌};
ghost use Rattle.std.specs.Option.{option_copied};
ghost use Rattle.route_emitter.specs.Routes.{entry_for, way_in, way_to};

use crate::entry::RouteEntry;
use diego_names::{Instance, Key, Name};
use lrp_records::{Actual, Desired, LrpState};

// The way to a container, if its process has a route.
fn way_to(desired: &Desired, key: Key, instance: Instance, cell: Name) -> Option<RouteEntry>
    ensures { result ≡ way_to desired.now.route desired.now.port key instance cell }
{
    match desired.route {
        None => None,
        Some(route) => Some(RouteEntry {
            route,
            process: key.process,
            index: key.index,
            instance,
            cell,
            port: desired.port,
        }),
    }
}

// The way to an instance, if it is RUNNING and its process has a route.
fn way_in(row: &Actual, desired: &Desired) -> Option<RouteEntry>
    ensures { result ≡ way_in row.now.state row.now.key desired.now }
{
    match row.state {
        LrpState::Running { instance, cell } => way_to(desired, row.key, instance, cell),
        LrpState::Unclaimed | LrpState::Claimed { .. } | LrpState::Crashed => None,
    }
}

// The entry of a row whose process is desired so.
pub(crate) fn entry_for(desired: Option<&Desired>, row: &Actual) -> Option<RouteEntry>
    ensures { result ≡ entry_for (option_copied desired.entry) row.now }
{
    match desired {
        None => None,
        Some(desired) => way_in(row, desired),
    }
}
