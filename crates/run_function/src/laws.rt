//! The laws of serial runs. These functions do nothing: they are there for what they ensure.
ghost use Rattle.run_function.specs.ActLaws.{ActsAreAlone, EvacuationsAreAlone};
ghost use Rattle.run_function.specs.PhaseLaws.{PhasesAreAlone};
ghost use Rattle.run_function.specs.Quiet.{CallsAreAlone};
ghost use Rattle.run_function.specs.RoundLaws.{RoundsAreAlone};
ghost use Rattle.run_function.specs.ScriptLaws.{RunsAreAlone, RunsEndAlone};
ghost use Rattle.run_function.specs.TurnLaws.{LinesAreRunAlone, TurnsAreAlone};
ghost use Rattle.run_function.specs.Worked.{AreWorkedOut};

use disk_trait::Disk;

/// Where nobody else calls and the disk stores, a call has the reply of its step at the end of the
/// log, and adds the item of that reply.
pub fn calls_are_alone()
    ensures { CallsAreAlone }
{}

/// So a cell does for an act what it does alone.
pub fn acts_are_alone()
    ensures { ActsAreAlone }
{}

/// And for an evacuation.
pub fn evacuations_are_alone()
    ensures { EvacuationsAreAlone }
{}

/// An actor makes a run of a line, once, as it makes it alone.
pub fn lines_are_run_alone()
    ensures { LinesAreRunAlone }
{}

/// And runs one after another.
pub fn turns_are_alone()
    ensures { TurnsAreAlone }
{}

/// A round has the report, the board and the reps of one that is alone.
pub fn rounds_are_alone()
    ensures { RoundsAreAlone }
{}

/// A phase with one actor, or with a round alone, in which the disk stored, leaves and tells what one
/// that is alone leaves and tells.
pub fn phases_are_alone<D: Disk>()
    ensures { PhasesAreAlone D.told }
{}

/// A run of serial phases that ends well has the answers, the reports, the text and the log that its
/// script and its board come to, and leaves a disk that reads as it did with what was done behind it.
pub fn runs_are_alone<D: Disk>()
    ensures { RunsAreAlone D.told }
{}

/// Where neither the disk nor the sink fails, a run of serial phases ends so, or memory runs out behind
/// some first phases, of which the same holds.
pub fn runs_end_alone<D: Disk>()
    ensures { RunsEndAlone D.told }
{}

/// Scenarios that were worked out by hand print what they should, to the byte; one of them also
/// writes what it should.
pub fn worked_scenarios_print()
    ensures { AreWorkedOut }
{}
