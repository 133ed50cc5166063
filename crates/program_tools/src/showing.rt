//! What is shown of a board, and that nothing of it changes.
ghost use Rattle.std.specs.Prelude.{◌≡◌, Bool, IfOk};
ghost use Rattle.bbs_board.specs.View.{rows_of};
ghost use Rattle.program_ends.specs.Ports.{PrintsTo, ports_of};
ghost use Rattle.program_tools.specs.Records.{records_text};
ghost use Rattle.program_tools.specs.Showing.{text_in, ending_after};
ghost use Rattle.program_tools.specs.Still.{RecordsEnds, CheckEnds};

use crate::checking::check_of;
use crate::records::records_text;
use bbs_board::{Board, Closed};
use byte_ports::Sink;
use disk_trait::Disk;
use program_ends::{Ending, ended_early, open, written};
use record_print::check_text;
use std::alloc::{AllocError, Global};

/// Prints a text whole, or nothing where there was no memory for it.
pub(crate) fn show<K: Sink>(sink: &mut K, text: Result<Vec<u8>, AllocError>) -> Ending
    ensures { (whole : Bool) × (result ≡ ending_after text whole) × PrintsTo whole (text_in text)
        (K.held sink.old) (K.held sink.new) (K.faults sink.old) (K.faults sink.new) }
{
    match text {
        Ok(text) => {
            if written(sink, &text) {
                Ending::Done
            } else {
                Ending::Unwritten
            }
        }
        Err(_) => ended_early(sink, Ending::OutOfMemory),
    }
}

/// The text of the rows of a board. It is had whole before anything is printed.
fn records_of<D: Disk>(alloc: Global, board: &Board<D>) -> Result<Vec<u8>, AllocError>
    ensures { IfOk result (λ text. text.items ≡ records_text (rows_of board.now)) }
{
    match board.rows(alloc) {
        Ok(rows) => records_text(alloc, &rows),
        Err(_) => Err(AllocError),
    }
}

/// Prints every row of the board that the disk holds, and gives the disk back.
pub(crate) fn show_records<K: Sink, D: Disk>(alloc: Global, sink: &mut K, disk: D) -> (Ending, D)
    ensures { RecordsEnds result.0
        (ports_of (K.held sink.old) (K.faults sink.old)
        (D.told disk) (D.fault_count disk) (D.moment disk))
        (ports_of (K.held sink.new) (K.faults sink.new)
        (D.told result.1) (D.fault_count result.1) (D.moment result.1)) }
{
    let board = match open(alloc, sink, disk) {
        Ok(board) => board,
        Err(ended) => return ended,
    };
    let text = records_of(alloc, &board);
    let Closed {
        disk,
        log: _,
        marks: _,
    } = board.close();
    (show(sink, text), disk)
}

/// Prints where the disk keeps its board, and gives the disk back.
pub(crate) fn show_check<K: Sink, D: Disk>(alloc: Global, sink: &mut K, disk: D) -> (Ending, D)
    ensures { CheckEnds result.0
        (ports_of (K.held sink.old) (K.faults sink.old)
        (D.told disk) (D.fault_count disk) (D.moment disk))
        (ports_of (K.held sink.new) (K.faults sink.new)
        (D.told result.1) (D.fault_count result.1) (D.moment result.1)) }
{
    let board = match open(alloc, sink, disk) {
        Ok(board) => board,
        Err(ended) => return ended,
    };
    let text = check_text(alloc, check_of(&board));
    let Closed {
        disk,
        log: _,
        marks: _,
    } = board.close();
    (show(sink, text), disk)
}
