//! What is counted of a drain.
ghost use Rattle.std.specs.Prelude.{◌≡◌, count_by, not};
ghost use Rattle.cell_drains.specs.Drains.{bad_steps, empty_cells, is_room, worst_of};
ghost use Rattle.what_if.specs.Verdicts.{worse};

use forecast_records::{Step, Unplaced, Verdict};
use what_if::Site;

// How many of the jobs without room waited before the step.
pub(crate) fn count_waiting(without: &[Unplaced]) -> u64
    ensures { result ≡ count_by (λ u. u.waited) without.now }
{
    without.iter().filter(|job| job.waited).count() as u64
}

// How many of them are displaced by it.
pub(crate) fn count_displaced(without: &[Unplaced]) -> u64
    ensures { result ≡ count_by (λ u. not u.waited) without.now }
{
    without.iter().filter(|job| !job.waited).count() as u64
}

// How many cells that told their state have no container.
pub(crate) fn empty_cells(site: &Site) -> u64
    ensures { result ≡ empty_cells site.now }
{
    let cells = site.cells.items();
    cells
        .iter()
        .filter(|cell| cell.containers.is_empty())
        .count() as u64
}

fn is_room(verdict: Verdict) -> bool
    ensures { result ≡ is_room verdict }
{
    match verdict {
        Verdict::Room => true,
        Verdict::Unplaced | Verdict::Short => false,
    }
}

// How many of the steps don't find room.
pub(crate) fn bad_steps(steps: &[Step]) -> u64
    ensures { result ≡ bad_steps steps.now }
{
    steps.iter().filter(|step| !is_room(step.verdict)).count() as u64
}

// The worse of two.
fn worse(first: Verdict, second: Verdict) -> Verdict
    ensures { result ≡ worse first second }
{
    match first {
        Verdict::Room => second,
        Verdict::Unplaced => match second {
            Verdict::Room | Verdict::Unplaced => Verdict::Unplaced,
            Verdict::Short => Verdict::Short,
        },
        Verdict::Short => Verdict::Short,
    }
}

// The worst verdict of the steps.
pub(crate) fn worst_of(steps: &[Step]) -> Verdict
    ensures { result ≡ worst_of steps.now }
{
    let mut worst = Verdict::Room;
    for step in steps {
        worst = worse(worst, step.verdict);
    }
    worst
}
