//! The lines of endings before the first phase.
ghost use Rattle.std.specs.Prelude.{◌≡◌, ◌⊎◌, Bool, IfOk, string_bytes};
ghost use Rattle.program_ends.specs.Ports.{PrintsTo};
ghost use Rattle.program_ends.specs.declared.ending.Ending.TheVariants.{OutOfMemory as NoMemory};
ghost use Rattle.pair_top.specs.Endings.{EndsAs, StaysAs, line_of};
ghost use Rattle.pair_top.specs.declared.ending.PairEnding.TheVariants.{Run};

use crate::ending::PairEnding;
use byte_ports::Sink;
use disk_trait::Area;
use pair_lines::{other_line_text, standby_damaged_text, standby_no_board_line, unequal_line};
use program_ends::{Ending, ended_before, written};
use std::alloc::{AllocError, Global};

/// Prints a constant line, and ends so. Where writing it fails, the ending stays.
fn ended_by<K: Sink>(sink: &mut K, ending: PairEnding, line: &[u8]) -> PairEnding
    requires { line.now ≡ line_of ending }
    ensures ending { result ≡ ending }
    ensures prints { (whole : Bool) × PrintsTo whole (line_of result)
        (K.held sink.old) (K.held sink.new) (K.faults sink.old) (K.faults sink.new) }
{
    let _whole = written(sink, line);
    ending
}

/// Prints a line that tells a place, and ends so. Where there was no memory for it, it ends for want of
/// that.
fn ended_at_place<K: Sink>(
    sink: &mut K,
    ending: PairEnding,
    line: Result<String, AllocError>,
) -> PairEnding
    requires { IfOk line (λ s. string_bytes s ≡ line_of ending) }
    ensures ending { (result ≡ ending) ⊎ (result ≡ Run NoMemory) }
    ensures prints { (whole : Bool) × PrintsTo whole (line_of result)
        (K.held sink.old) (K.held sink.new) (K.faults sink.old) (K.faults sink.new) }
{
    match line {
        Ok(line) => ended_by(sink, ending, line.as_bytes()),
        Err(AllocError) => PairEnding::Run(Ending::OutOfMemory),
    }
}

/// Prints the line of an ending, and ends so.
pub(crate) fn ended<K: Sink>(alloc: Global, sink: &mut K, ending: PairEnding) -> PairEnding
    ensures ending { EndsAs ending result }
    ensures stays { StaysAs ending result }
    ensures prints { (whole : Bool) × PrintsTo whole (line_of result)
        (K.held sink.old) (K.held sink.new) (K.faults sink.old) (K.faults sink.new) }
{
    match ending {
        PairEnding::Run(ending) => PairEnding::Run(ended_before(alloc, sink, ending)),
        PairEnding::OtherLine { line } => {
            ended_at_place(sink, ending, other_line_text(alloc, line))
        }
        PairEnding::NoStandby { area } => ended_by(sink, ending, standby_no_board_line(area)),
        PairEnding::DamagedStandby { area, at } => {
            ended_at_place(sink, ending, standby_damaged_text(alloc, area, at))
        }
        PairEnding::Unequal => ended_by(sink, ending, unequal_line()),
    }
}
