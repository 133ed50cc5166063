//! How many losses were tried.
ghost use Rattle.std.specs.Prelude.{◌≡◌};
ghost use Rattle.headroom_print.specs.Counts.{tried};

use forecast_records::EachLost;

/// How many losses were tried, of all verdicts. The count ends at the most that 64 bits have.
pub fn tried(each: &EachLost) -> u64
    ensures { result ≡ tried each.now }
{
    each.room
        .saturating_add(each.unplaced)
        .saturating_add(each.short)
}
