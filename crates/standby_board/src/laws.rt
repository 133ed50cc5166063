//! What follows from what a pair promises.
ghost use Rattle.standby_board.specs.Laws.{BeginningsAreReached, NumbersRiseOverTakeOvers};

/// No number in the fences of a pair and of the board that took over falls, both lists together.
pub fn numbers_rise_over_take_overs()
    ensures { NumbersRiseOverTakeOvers }
{}

/// The rows after a beginning of what was done are rows that the log reaches.
pub fn beginnings_are_reached()
    ensures { BeginningsAreReached }
{}
