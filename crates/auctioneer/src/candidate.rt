//! A cell that fits a job, and how it is compared with another.
ghost use Rattle.std.specs.Prelude.{◌≡◌};
ghost use Rattle.auctioneer.specs.Candidates.{better_candidate};
ghost use Rattle.auctioneer.specs.Stands.{view_of};

use crate::stand::Stand;
use auction_scoring::{CellView, Score, better};

// A cell that fits, by its place, with its score.
#[derive(Clone, Copy)]
pub(crate) struct Candidate {
    pub(crate) at: usize,
    pub(crate) score: Score,
}

// The better of the best so far and another.
pub(crate) fn better_of(best: Option<Candidate>, other: Candidate) -> Candidate
    ensures { result ≡ better_candidate best other }
{
    match best {
        Some(found) if better(&found.score, &other.score) => found,
        _ => other,
    }
}

// The cell as it is compared for a job, of whose process there are so many in its zone and on it.
pub(crate) fn view_of(stand: &Stand, in_zone: u64, on_cell: u64) -> CellView
    ensures { result ≡ view_of stand.now in_zone on_cell }
{
    CellView {
        cell: stand.cell,
        tag: stand.tag,
        totals: stand.totals,
        free: stand.free,
        in_zone,
        on_cell,
    }
}
