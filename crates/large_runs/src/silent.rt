//! Phases of which nothing is told.
use bbs_board::Board;
use convergence::Report;
use diego_names::OutOfMemory;
use disk_trait::Disk;
use scenario_lines::{Answered, Phase, Script};
use scenario_player::Teller;
use std::alloc::Global;

/// Tells nothing, so that of a run only its summary is printed.
#[derive(Clone, Copy, Debug)]
pub struct SilentTeller;

impl Teller for SilentTeller {
    ghost use Rattle.large_runs.specs.Silent.{silent_wording};

    ghost wording = { silent_wording };

    ghost told = { λ teller base log. Unit {0} };

    fn begin<D: Disk>(_alloc: Global, _board: &Board<D>) -> Result<SilentTeller, OutOfMemory> {
        Ok(SilentTeller)
    }

    fn tell<D: Disk>(
        &mut self,
        alloc: Global,
        _script: &Script,
        _phase: &Phase,
        _board: &Board<D>,
        _from: u64,
        _answers: &[Answered],
        _report: &Option<Report>,
    ) -> Result<Vec<u8>, OutOfMemory> {
        Ok(Vec::new(alloc))
    }
}
