//! The laws of runs. These functions do nothing: they are there for what they ensure.
ghost use Rattle.run_theorem.specs.Laws.{ActorsAnswersStand, ItemsAreAnswered, PlayedPhasesEndInTime, PlayedRunsAreFaithful, PlayedRunsKeepBase, RoundsGoOverItsCells};

use bbs_laws::tasks_complete_once;
use disk_trait::Disk;
use round_theorem::{complete_rounds_converge, rounds_have_accounts};

/// A scenario that was played on a board says what its log did: its answers, its reports and its log
/// agree. The rows that the board was opened with stay. Its phases ended one after another, by the
/// disk's clock: at the end of each all that it did was on the disk, and nothing else.
pub fn played_runs_are_faithful<D: Disk>()
    ensures faithful { PlayedRunsAreFaithful D.told }
    ensures base { PlayedRunsKeepBase D.told }
    ensures ends { PlayedPhasesEndInTime D.told }
{
    tasks_complete_once();
    complete_rounds_converge();
    rounds_have_accounts();
}

/// Nothing is in the log of a faithful run but what was answered: each item of a phase that ended is
/// that of an answer which names its place, unless it is one of a round.
pub fn items_are_answered()
    ensures { ItemsAreAnswered }
{}

/// The answers of a phase stand by line, and those of each actor among them are its own, in the order
/// in which they were made.
pub fn answers_of_actors_stand()
    ensures { ActorsAnswersStand }
{}

/// The round of each phase goes over one rep for each cell of the scenario, and no two of them have one
/// name. So what is said of rounds over reps whose names differ can be said of the rounds of a run.
pub fn rounds_go_over_the_cells()
    ensures { RoundsGoOverItsCells }
{}
