//! The laws. These functions do nothing: they are there for what they ensure.
ghost use Rattle.round_completeness.specs.Completeness.{RoundsThatNothingDisturbsAreComplete};
ghost use Rattle.round_completeness.specs.Ends.{RoundsLoseByTheEnds};
ghost use Rattle.round_completeness.specs.Left.{RoundsAuctionWhatIsLeft};
ghost use Rattle.round_completeness.specs.Rooms.{PlacementsHaveRoom, RoundsDeclineNoStart};

/// Over valid rows and sound answers of cells whose names differ, each job that the auction gives
/// to a cell finds room in what the ones before it leave of what the cell answered.
pub fn placements_have_room()
    ensures { PlacementsHaveRoom }
{}

/// Where the names of the reps differ, no rep declines a start of a round: it has joined, and has
/// room for the job.
pub fn rounds_decline_no_start()
    ensures { RoundsDeclineNoStart }
{}

/// Where the names of the reps differ and the wire tells ends that don't depend on the number of
/// the delivery, a round hears, stops and loses exactly what these ends tell.
pub fn rounds_lose_by_the_ends()
    ensures { RoundsLoseByTheEnds }
{}

/// Where the names of the reps differ, a round holds its auction over the answers less what was
/// stopped, without the cells that are being emptied.
pub fn rounds_auction_what_is_left()
    ensures { RoundsAuctionWhatIsLeft }
{}

/// A round's report is complete where the names of the reps differ and each cell that is present
/// has an answer, the wire loses nothing, nobody else moves the board, each job finds a cell, and
/// no refusal says that the board has no room left.
pub fn rounds_that_nothing_disturbs_are_complete()
    ensures { RoundsThatNothingDisturbsAreComplete }
{}
