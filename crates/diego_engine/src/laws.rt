//! What the headline comes to over runs and over phases. These functions do nothing: they are there for what they ensure.
ghost use Rattle.diego_engine.specs.PhaseEnds.{PhasesAreKeptFromTheirEnds, RunsKeepPhasesFromTheirEnds};
ghost use Rattle.diego_engine.specs.Restarts.{EachRunHandsItOn, KeepsSettledBoards, NextRunFindsLog, NextRunHoldsAcknowledged};

/// If a stop at entry could leave the board alone, nothing but boards that the log reaches is left
/// since.
pub fn settled_boards_are_kept()
    ensures { KeepsSettledBoards }
{}

/// A run finds rows that the log of the run before it reaches, with each item that was acknowledged
/// before the stop between the two.
pub fn the_next_run_finds_the_log()
    ensures { NextRunFindsLog }
{}

/// What was acknowledged in one run is on the disk of each later run, whatever stops came between them.
pub fn acknowledged_items_outlive_runs()
    ensures next { NextRunHoldsAcknowledged }
    ensures later { EachRunHandsItOn }
{}

/// What a phase told as done is on every image that a stop left since the phase ended.
pub fn phases_are_kept_from_their_ends()
    ensures phases { PhasesAreKeptFromTheirEnds }
    ensures runs { RunsKeepPhasesFromTheirEnds }
{}
