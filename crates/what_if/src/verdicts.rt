//! How far jobs find room.
ghost use Rattle.std.specs.Prelude.{◌≡◌, ◌≤◌, ◌^◌, length};
ghost use Rattle.std.specs.List.{list_any};
ghost use Rattle.room_facts.specs.Rooms.{is_short};
ghost use Rattle.what_if.specs.Verdicts.{verdict_of};

use auctioneer::Stand;
use cell_records::Job;
use forecast_records::Verdict;
use room_facts::is_short;

// Whether it is shown of one of the jobs left over that there is too little.
fn is_any_short(before: &[Stand], jobs: &[Job], left: &[Job]) -> bool
    requires stands { length before.now ≤ 2 ^ 32 }
    requires jobs { length jobs.now ≤ 2 ^ 32 }
    ensures { result ≡ list_any (is_short before.now jobs.now) left.now }
{
    left.iter().any(|job| is_short(before, jobs, job))
}

/// Room where none of the jobs is left over. Short where that is shown of one of them: the cells are as
/// before the first job. It costs a look at each cell and each job for each job that is left over.
pub fn verdict_of(before: &[Stand], jobs: &[Job], left: &[Job]) -> Verdict
    requires stands { length before.now ≤ 2 ^ 32 }
    requires jobs { length jobs.now ≤ 2 ^ 32 }
    ensures { result ≡ verdict_of before.now jobs.now left.now }
{
    if left.len() == 0 {
        Verdict::Room
    } else if is_any_short(before, jobs, left) {
        Verdict::Short
    } else {
        Verdict::Unplaced
    }
}
