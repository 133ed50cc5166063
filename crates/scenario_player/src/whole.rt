//! Phases that are told whole.

use crate::events::events_from;
use crate::teller::Teller;
use bbs_board::Board;
use convergence::Report;
use diego_names::OutOfMemory;
use disk_trait::Disk;
use phase_text::{events_by_key, phase_text};
use scenario_lines::{Answered, Phase, Script};
use std::alloc::Global;

/// Tells each answer, the report and each event. It takes the time of a sort of the events.
#[derive(Clone, Copy, Debug)]
pub struct WholeTeller;

impl Teller for WholeTeller {
    ghost use Rattle.scenario_player.specs.Wordings.{whole_wording};

    ghost wording = { whole_wording };

    ghost told = { λ teller base log. Unit {0} };

    fn begin<D: Disk>(_alloc: Global, _board: &Board<D>) -> Result<WholeTeller, OutOfMemory> {
        Ok(WholeTeller)
    }

    fn tell<D: Disk>(
        &mut self,
        alloc: Global,
        script: &Script,
        phase: &Phase,
        board: &Board<D>,
        from: u64,
        answers: &[Answered],
        report: &Option<Report>,
    ) -> Result<Vec<u8>, OutOfMemory> {
        let events = events_by_key(alloc, &events_from(alloc, board, from)?)?;
        phase_text(alloc, script, phase, answers, report, events.items())
    }
}
