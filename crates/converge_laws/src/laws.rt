//! The laws of a round's stages. These functions do nothing: they are there for what they ensure.
ghost use Rattle.converge_laws.specs.Laws.{WorkIsOfRound, PlanIsOfRound, RoundsKeepGround, WorkLeavesNothingButSuspicions, PlanLeavesContainersHeld, StopsLeaveNoStrays, ClaimsConverge, RoundsConverge};

/// What is asked by the rows, and by what cells answer, are commands of a round; and those change
/// neither which cells are there nor which instances are wanted nor which domains are fresh.
pub fn rounds_keep_the_ground()
    ensures work { WorkIsOfRound }
    ensures plan { PlanIsOfRound }
    ensures ground { RoundsKeepGround }
{}

/// Once what the rows alone ask for is done, they ask for nothing at that moment but to drop SUSPECT
/// rows that are new.
pub fn work_leaves_nothing_but_suspicions()
    ensures { WorkLeavesNothingButSuspicions }
{}

/// Once what the answers ask for is done too, each row has its container, or waits for a place or
/// for its time.
pub fn plan_leaves_containers_held()
    ensures { PlanLeavesContainersHeld }
{}

/// Once all strays are stopped, no cell that is there keeps one, and no row has lost its container.
pub fn stops_leave_no_strays()
    ensures { StopsLeaveNoStrays }
{}

/// Once each row that waits for a place is claimed as well, all is as it should be.
pub fn claims_converge()
    ensures { ClaimsConverge }
{}

/// A round of which nothing was lost, refused or left without a place leaves all as it should be.
pub fn rounds_converge()
    ensures { RoundsConverge }
{}
