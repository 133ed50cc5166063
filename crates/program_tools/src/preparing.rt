//! The making of an empty board.
ghost use Rattle.program_ends.specs.Ports.{ports_of};
ghost use Rattle.program_tools.specs.Still.{PrepareEnds};

use bbs_board::{PrepareFault, prepare};
use byte_ports::Sink;
use disk_trait::Disk;
use program_ends::{Ending, ended_early};

/// Makes an empty board in two empty areas. It prints nothing but why it made none.
pub(crate) fn prepare_board<K: Sink, D: Disk>(sink: &mut K, disk: &mut D) -> Ending
    ensures { PrepareEnds result
        (ports_of (K.held sink.old) (K.faults sink.old)
        (D.told disk.old) (D.fault_count disk.old) (D.moment disk.old))
        (ports_of (K.held sink.new) (K.faults sink.new)
        (D.told disk.new) (D.fault_count disk.new) (D.moment disk.new)) }
{
    match prepare(disk) {
        Ok(()) => ended_early(sink, Ending::Done),
        Err(PrepareFault::Disk) => ended_early(sink, Ending::Unopened),
        Err(PrepareFault::NotEmpty) => ended_early(sink, Ending::Exists),
    }
}
