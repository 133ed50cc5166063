//! The laws of a whole round. These functions do nothing: they are there for what they ensure.
ghost use Rattle.round_theorem.specs.Accounts.{RoundsHaveAccounts};
ghost use Rattle.round_theorem.specs.Complete.{CompleteRoundsTakeAll, CompleteRoundsConverge};
ghost use Rattle.round_theorem.specs.Lacks.{PlanIsRefusedForRoom, RoundsAloneAreRefusedForRoom, WorkIsRefusedForRoom};
ghost use Rattle.round_theorem.specs.Losses.{RoundsHearWhatGetsThrough, RoundsLoseWhatTheWireLost};

/// In a complete round nobody else moved the board, and all that the rows and then the answers
/// asked for was accepted.
pub fn complete_rounds_take_all()
    ensures { CompleteRoundsTakeAll }
{}

/// A complete round over reps whose names differ leaves the board and the cells as they should be.
pub fn complete_rounds_converge()
    ensures { CompleteRoundsConverge }
{}

/// Each round has its account by places of the log: who answered, what was called and why, and,
/// where nobody else called, each command.
pub fn rounds_have_accounts()
    ensures { RoundsHaveAccounts }
{}

/// What a round lost was lost by the wire, or a cell had nothing to tell, or a rep declined a start.
pub fn rounds_lose_what_the_wire_lost()
    ensures { RoundsLoseWhatTheWireLost }
{}

/// Where the wire tells its ends, a cell that has joined under the epoch of its row is heard if its
/// question gets through.
pub fn rounds_hear_what_gets_through()
    ensures { RoundsHearWhatGetsThrough }
{}

/// Where nobody else calls, the work of a board is refused for want of room on it alone: it has made
/// its last transition, or has 100,000 actual rows.
pub fn work_is_refused_for_room()
    ensures { WorkIsRefusedForRoom }
{}

/// So is what answers ask for.
pub fn plan_is_refused_for_room()
    ensures { PlanIsRefusedForRoom }
{}

/// Where nobody else called, a round over reps whose names differ is refused for that alone.
pub fn rounds_alone_are_refused_for_room()
    ensures { RoundsAloneAreRefusedForRoom }
{}
