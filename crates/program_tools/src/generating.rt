//! The scenario of a number, printed.
ghost use Rattle.std.specs.Prelude.{◌≡◌};
ghost use Rattle.program_ends.specs.Ports.{ports_of};
ghost use Rattle.program_tools.specs.Still.{GenerateEnds};

use crate::showing::show;
use byte_ports::Sink;
use disk_trait::Disk;
use program_ends::Ending;
use scenario_maker::generate;
use std::alloc::Global;

/// Prints the scenario of a number, and gives the disk back as it is. The text is had whole before anything
/// is printed.
pub(crate) fn print_scenario<K: Sink, D: Disk>(
    alloc: Global,
    number: u32,
    sink: &mut K,
    disk: D,
) -> (Ending, D)
    ensures apart { result.1 ≡ disk }
    ensures ends { GenerateEnds number result.0
        (ports_of (K.held sink.old) (K.faults sink.old)
        (D.told disk) (D.fault_count disk) (D.moment disk))
        (ports_of (K.held sink.new) (K.faults sink.new)
        (D.told result.1) (D.fault_count result.1) (D.moment result.1)) }
{
    (show(sink, generate(alloc, number)), disk)
}
