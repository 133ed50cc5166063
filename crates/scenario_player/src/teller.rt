//! What tells the phases of a run, in words of its own.
ghost use Rattle.std.specs.Prelude.{◌≡◌, ◌≤◌, List, [], length, take, IfOk, OnOk};
ghost use Rattle.bbs_model.specs.declared.item.Item.{Item as AnItem};
ghost use Rattle.bbs_model.specs.declared.rows.Rows.{Rows as TheRows};
ghost use Rattle.phase_text.specs.Answers.{AreActorAnswers, AreByLine};
ghost use Rattle.scenario_player.specs.Wordings.{Wording};

use bbs_board::Board;
use convergence::Report;
use diego_names::OutOfMemory;
use disk_trait::Disk;
use scenario_lines::{Answered, Phase, Script};
use std::alloc::Global;

/// Tells the phases of a run, one after another, and each once: it is told of a phase behind all
/// phases before it.
pub trait Teller {
    /// Its words: what it tells of a phase.
    ghost wording: { Wording };

    /// On a board that was opened with these rows it has told all up to the end of this log.
    ghost told: { Self → TheRows → List AnItem → Type 0 };

    /// One for a board that was just loaded. What stands there already isn't told.
    fn begin<D: Disk>(alloc: Global, board: &Board<D>) -> Result<Self, OutOfMemory>
        requires fresh { board.now.log ≡ [] }
        ensures told { IfOk result (λ teller. told teller board.now.base board.now.log) };

    /// The text of a phase that began at the place `from` of the log and goes on to its end, with
    /// its answers by line.
    fn tell<D: Disk>(
        &mut self,
        alloc: Global,
        script: &Script,
        phase: &Phase,
        board: &Board<D>,
        from: u64,
        answers: &[Answered],
        report: &Option<Report>,
    ) -> Result<Vec<u8>, OutOfMemory>
        requires from { from ≤ length board.now.log }
        requires told { told self.old board.now.base (take from board.now.log) }
        requires answers { AreActorAnswers script.now.actors phase.now.lines answers.now }
        requires by_line { AreByLine answers.now }
        ensures text { IfOk result (λ text. text.items ≡ wording script.now phase.now answers.now
            report.now board.now.base (take from board.now.log) board.now.log) }
        ensures told { OnOk result (told self.new board.now.base board.now.log) };
}
