//! What a placement tells.
ghost use Rattle.std.specs.Prelude.{◌≡◌, count_by};
ghost use Rattle.room_facts.specs.Placings.{is_placed};

use auctioneer::Placement;

// Whether the job has a cell.
pub(crate) fn is_placed(placement: &Placement) -> bool
    ensures { result ≡ is_placed placement.now }
{
    match placement {
        Placement::On { .. } => true,
        Placement::NoRoom { .. } => false,
    }
}

// How many of the jobs have a cell.
pub(crate) fn count_placed(placements: &[Placement]) -> u64
    ensures { result ≡ count_by is_placed placements.now }
{
    placements
        .iter()
        .filter(|placement| is_placed(placement))
        .count() as u64
}
