ghost use Rattle.std.specs.Prelude.{◌≡◌, ◌≤◌};
ghost use Rattle.auction_scoring.specs.Fits.{IsWithin};
ghost use Rattle.auction_scoring.specs.Score.{used_share, score_of};
ghost use Rattle.auction_scoring.specs.Order.{is_better};

use crate::cell_view::CellView;
use crate::scores::Score;

// The thousandths of a total that are used.
fn used_share(total: u32, free: u32) -> u32
    requires { free ≤ total }
    ensures share { result ≡ used_share total free }
    ensures most { result ≤ 1000 }
{
    if total == 0 {
        0
    } else {
        (1000 * u64::from(total - free) / u64::from(total)) as u32
    }
}

/// What the cell scores for the job that the view is for.
pub fn score(view: &CellView) -> Score
    requires { IsWithin view.now.free view.now.totals }
    ensures { result ≡ score_of view.now }
{
    let CellView { totals, free, .. } = *view;
    let load = used_share(totals.memory, free.memory)
        + used_share(totals.disk, free.disk)
        + used_share(totals.containers, free.containers);
    Score {
        in_zone: view.in_zone,
        on_cell: view.on_cell,
        load,
        cell: view.cell,
    }
}

/// Whether the first score is the better one.
pub fn better(a: &Score, b: &Score) -> bool
    ensures { result ≡ is_better a.now b.now }
{
    a < b
}
