//! How a run ended, and what it did.
ghost use Rattle.std.specs.Prelude.{◌≡◌};
ghost use Rattle.program_run.specs.Runs.{IsEmpty};

use bbs_model::Item;
use convergence::Report;
use program_ends::Ending;
use scenario_lines::Answered;
use std::alloc::Global;

/// How a run ended, and what it did.
#[derive(Drop)]
pub struct Ended {
    pub ending: Ending,
    /// The items that it added to the board's log.
    pub log: Vec<Item>,
    /// The disk's clock at the end of the call of each item.
    pub marks: Vec<u64>,
    /// The answers of the phases that were told: phase after phase, in each by line.
    pub answers: Vec<Answered>,
    /// The reports of their rounds, in the order of the phases.
    pub reports: Vec<Report>,
}

/// What ended so and did nothing.
pub(crate) fn idle(alloc: Global, ending: Ending) -> Ended
    ensures ending { result.ending ≡ ending }
    ensures empty { IsEmpty result }
{
    Ended {
        ending,
        log: Vec::new(alloc),
        marks: Vec::new(alloc),
        answers: Vec::new(alloc),
        reports: Vec::new(alloc),
    }
}
