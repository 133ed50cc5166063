//! The laws. These functions do nothing: they are there for what they ensure. Where one calls a law, it follows
//! from that law.
ghost use Rattle.forecast_laws.specs.Losses.{LossesGoAsPlanned, LossesLeaveTheSite};
ghost use Rattle.forecast_laws.specs.Plans.{PlansAreRounds};
ghost use Rattle.forecast_laws.specs.Records.{RecordsReadTheSite};
ghost use Rattle.forecast_laws.specs.Rooms.{DisplacedJobsFindRoom, RoomLeavesNothingWaiting};
ghost use Rattle.forecast_laws.specs.Rooms.{RoomMakesRoundsComplete, RoundsLeaveWhatPlansLeave};

use round_completeness::{
    rounds_auction_what_is_left, rounds_decline_no_start, rounds_that_nothing_disturbs_are_complete,
};
use round_theorem::{
    complete_rounds_converge, rounds_hear_what_gets_through, rounds_lose_what_the_wire_lost,
};

/// Where a round reads what the site says with these cells lost, it places each job just where the
/// plan does.
pub fn plans_are_rounds()
    ensures { PlansAreRounds }
{}

/// Such a round reports without a place just the jobs that the plan leaves, in the same order.
pub fn rounds_leave_what_plans_leave()
    ensures { RoundsLeaveWhatPlansLeave }
{}

/// Where the plan leaves no job, such a round reports none without a place.
pub fn room_leaves_nothing_waiting()
    ensures { RoomLeavesNothingWaiting }
{}

/// Where the verdict of the loss is room, such a round reports none of the displaced jobs without
/// a place, whatever waited before.
pub fn displaced_jobs_find_room()
    ensures { DisplacedJobsFindRoom }
{}

/// Where the plan leaves no job and nothing else disturbs such a round, its report is complete, and
/// all is as it should be.
pub fn room_makes_rounds_complete()
    ensures { RoomMakesRoundsComplete }
{
    rounds_that_nothing_disturbs_are_complete();
    complete_rounds_converge();
}

/// Where the names of the reps differ, a round reads the site if its rows and the answers of the
/// cells are as the site says with these cells lost.
pub fn records_read_the_site()
    ensures { RecordsReadTheSite }
{
    rounds_auction_what_is_left();
}

/// Where rows and cells are in order and as the site says before a loss, and the leases of the lost
/// cells alone have ended, the commands of a round leave what the site says with these cells lost.
pub fn losses_leave_the_site()
    ensures { LossesLeaveTheSite }
{}

/// A round at such rows goes as planned, where nothing disturbs it but, perhaps, want of room: at its
/// end each job that the plan places has its row on that cell.
pub fn losses_go_as_planned()
    ensures { LossesGoAsPlanned }
{
    losses_leave_the_site();
    records_read_the_site();
    rounds_hear_what_gets_through();
    rounds_lose_what_the_wire_lost();
    rounds_decline_no_start();
    plans_are_rounds();
    rounds_leave_what_plans_leave();
    displaced_jobs_find_room();
    room_makes_rounds_complete();
}
