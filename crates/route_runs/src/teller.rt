//! Phases that are told by what they change of the routes.
use crate::lines::change_text;
use bbs_board::Board;
use convergence::Report;
use diego_names::OutOfMemory;
use disk_trait::Disk;
use route_emitter::{Emitter, emitters_follow_boards};
use scenario_lines::{Answered, Phase, Script};
use scenario_player::{Teller, events_from};
use std::alloc::Global;

/// Tells the entries that a phase took out of the table of routes, and then those that it brought
/// into it. A phase costs look-ups for the instances that its events name, and a move of the entries behind those
/// that came or went.
#[derive(Drop)]
pub struct RouteTeller {
    /// The table as the last phase left it.
    emitter: Emitter,
}

impl Teller for RouteTeller {
    ghost use Rattle.bbs_model.specs.Replay.{replay_log};
    ghost use Rattle.route_emitter.specs.Routing.{IsRoutingOf};
    ghost use Rattle.route_runs.specs.Wording.{route_wording};

    ghost wording = { route_wording };

    ghost told = { λ teller base log. IsRoutingOf (replay_log base log) teller.emitter };

    fn begin<D: Disk>(alloc: Global, board: &Board<D>) -> Result<RouteTeller, OutOfMemory> {
        let rows = board.rows(alloc)?;
        let emitter = Emitter::of(alloc, &rows)?;
        Ok(RouteTeller { emitter })
    }

    fn tell<D: Disk>(
        &mut self,
        alloc: Global,
        _script: &Script,
        _phase: &Phase,
        board: &Board<D>,
        from: u64,
        _answers: &[Answered],
        _report: &Option<Report>,
    ) -> Result<Vec<u8>, OutOfMemory> {
        board.holds();
        emitters_follow_boards();
        let events = events_from(alloc, board, from)?;
        let change = self.emitter.take(&events)?;
        change_text(alloc, &change)
    }
}
