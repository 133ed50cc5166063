//! The ways in which the program ends, each with its status and its fault line.
ghost use Rattle.std.specs.Prelude.{◌≡◌, IfOk, string_bytes};
ghost use Rattle.dump_reader.specs.Faults.{at};
ghost use Rattle.headroom_engine.specs.Ending.{constant_line, fault_line, fault_word, status_of};

use dump_reader::{DumpFault, LineFault};
use std::alloc::{AllocError, Global};

/// How the program ends.
#[derive(Clone, Copy, Debug, PartialEq, Eq)]
pub(crate) enum Ending {
    /// The answers are written, and all that is asked about has room.
    Room,
    /// The words aren't in the grammar.
    Usage,
    /// The source isn't a dump: this line of it has this fault. Lines count from 1.
    Faulty { fault: DumpFault, line: u32 },
    /// The source failed while it was read.
    Read,
    /// The sink failed while the answers were written.
    Unwritten,
    /// There was no memory. Nothing is written.
    OutOfMemory,
    /// The source has more bytes than a dump may have.
    TooLong,
    /// The answers are written, and not all that is asked about has room.
    NoRoom,
}

/// The program's status.
pub(crate) fn number_of(ending: Ending) -> u8
    ensures { result ≡ status_of ending }
{
    match ending {
        Ending::Room => 0,
        Ending::Usage => 1,
        Ending::Faulty { fault: _, line: _ } => 2,
        Ending::Read => 3,
        Ending::Unwritten => 4,
        Ending::OutOfMemory => 7,
        Ending::TooLong => 8,
        Ending::NoRoom => 10,
    }
}

/// The line of a fault that has no place. It is a constant, so that telling it wants no memory.
pub(crate) fn constant_line(ending: Ending) -> &'static [u8]
    ensures { result.now ≡ constant_line ending }
{
    match ending {
        Ending::Usage => b"{\"fault\":\"usage\"}\n",
        Ending::Read => b"{\"fault\":\"read\"}\n",
        Ending::TooLong => b"{\"fault\":\"too long\"}\n",
        Ending::Room | Ending::Unwritten | Ending::OutOfMemory | Ending::NoRoom => b"",
        Ending::Faulty { fault: _, line: _ } => b"",
    }
}

fn fault_word(fault: DumpFault) -> &'static str
    ensures { result.now ≡ fault_word fault }
{
    match fault {
        DumpFault::Line(LineFault::BadJson) => "bad json",
        DumpFault::Line(LineFault::BadShape) => "bad shape",
        DumpFault::Line(LineFault::BadName) => "bad name",
        DumpFault::Line(LineFault::BadTags) => "bad tags",
        DumpFault::Line(LineFault::BadAmounts) => "bad amounts",
        DumpFault::Twice => "twice",
        DumpFault::TooMuch => "too much",
        DumpFault::Unknown => "unknown",
    }
}

/// The line of a fault, and where it stands.
pub(crate) fn fault_line(alloc: Global, fault: DumpFault, line: u32) -> Result<String, AllocError>
    ensures { IfOk result (λ s. string_bytes s ≡ fault_line (at fault line)) }
{
    let word = fault_word(fault);
    format!(in alloc; "{{\"fault\":\"{word}\",\"line\":{line}}}\n")
}
