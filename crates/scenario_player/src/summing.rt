//! How a phase and a run end, and what is printed behind the phases.
ghost use Rattle.std.specs.Prelude.{◌≡◌, ◌⊎◌, ◌<◌};
ghost use Rattle.program_ends.specs.declared.ending.Ending.TheVariants as ending;
ghost use Rattle.record_print.specs.Printed.{line_text, summary_data};
ghost use Rattle.scenario_player.specs.Plays.{summary_of};
ghost use Rattle.scenario_player.specs.Tellings.{EndsBehind, Finishes};

use crate::counting::summary_of;
use bbs_board::Board;
use byte_ports::Sink;
use disk_trait::Disk;
use program_ends::{Ending, written};
use record_print::summary_text;
use std::alloc::Global;

/// How a phase ends whose text was printed whole, and whose items have so many doubts.
pub(crate) fn ending_by(doubts: u64) -> Ending
    ensures { ((doubts ≡ 0) × (result ≡ ending.Done)) ⊎ ((0 < doubts) × (result ≡ ending.Doubt)) }
{
    if doubts == 0 {
        Ending::Done
    } else {
        Ending::Doubt
    }
}

/// Prints the summary, behind a text that was printed whole and ended so.
fn print_summary<K: Sink, D: Disk>(
    alloc: Global,
    board: &Board<D>,
    sink: &mut K,
    ending: Ending,
    phases: u64,
) -> Ending
    ensures { EndsBehind ending result (line_text (summary_data (summary_of board.now phases)))
        (K.held sink.old) (K.held sink.new) (K.faults sink.old) (K.faults sink.new) }
{
    let line = match summary_text(alloc, summary_of(board, phases)) {
        Ok(line) => line,
        Err(_) => return Ending::OutOfMemory,
    };
    if written(sink, &line) {
        ending
    } else {
        Ending::Unwritten
    }
}

/// Prints the summary behind the text of the phases, where that was printed whole.
pub(crate) fn finish<K: Sink, D: Disk>(
    alloc: Global,
    board: &Board<D>,
    sink: &mut K,
    ending: Ending,
    phases: u64,
) -> Ending
    ensures { Finishes ending result board.now phases
        (K.held sink.old) (K.held sink.new) (K.faults sink.old) (K.faults sink.new) }
{
    match ending {
        Ending::Done | Ending::Doubt => print_summary(alloc, board, sink, ending, phases),
        other => other,
    }
}
