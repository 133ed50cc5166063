//! What decides where an uneven process is told.
ghost use Rattle.std.specs.Prelude.{◌≡◌, map};
ghost use Rattle.dump_reader.specs.Facts.{AllDiffer};
ghost use Rattle.site_spread.specs.Spread.{by_spread, unevenness};

use diego_names::Name;
use forecast_records::Uneven;
use std::cmp::Reverse;

// The first of these in which two processes differ.
#[derive(Clone, Copy, PartialEq, Eq, PartialOrd, Ord)]
pub(crate) struct Unevenness {
    pub(crate) spread: Reverse<u64>,
    pub(crate) process: Name,
}

fn order_key(uneven: &Uneven) -> Unevenness
    ensures { result ≡ unevenness uneven.now }
{
    Unevenness {
        spread: Reverse(uneven.spread),
        process: uneven.process,
    }
}

/// The larger spread first, then by name.
pub fn by_spread(list: Vec<Uneven>) -> Vec<Uneven>
    requires { AllDiffer (map (λ u. u.process) list.items) }
    ensures { result.items ≡ by_spread list.items }
{
    let mut sorted = list;
    sorted.sort_unstable_by_key(order_key);
    sorted
}
