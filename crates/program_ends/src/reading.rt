//! The bytes of a source, and how the program ends where they aren't what it was to read.
ghost use Rattle.std.specs.Prelude.{◌≡◌};
ghost use Rattle.byte_ports.specs.Cause.{HasCause};
ghost use Rattle.program_ends.specs.Reading.{TakesBytes, is_unread, or_ending, script_ending};

use crate::ending::Ending;
use byte_ports::{ReadFault, Source, read_whole};
use scenario_reader::ScriptFault;
use std::alloc::Global;

/// The most bytes that a source may have.
const LIMIT: usize = 16_777_216;

/// All bytes of the source, or how the program ends that can't have them.
pub fn read_bytes<S: Source>(alloc: Global, source: &mut S) -> Result<Vec<u8>, Ending>
    ensures takes { TakesBytes result (S.left source.old) (S.left source.new) }
    ensures cause { HasCause (is_unread result) (S.faults source.old) (S.faults source.new) }
{
    match read_whole(alloc, source, LIMIT) {
        Ok(bytes) => Ok(bytes),
        Err(ReadFault::Failed) => Err(Ending::Read),
        Err(ReadFault::TooLong) => Err(Ending::TooLong),
        Err(ReadFault::OutOfMemory) => Err(Ending::OutOfMemory),
    }
}

/// How it ends whose bytes have this fault.
fn script_ending(fault: ScriptFault) -> Ending
    ensures { result ≡ script_ending fault }
{
    match fault {
        ScriptFault::OutOfMemory => Ending::OutOfMemory,
        other => Ending::Script(other),
    }
}

/// What bytes are, or how the program ends for their fault.
pub fn or_ending<X>(read: Result<X, ScriptFault>) -> Result<X, Ending>
    ensures { result ≡ or_ending read }
{
    match read {
        Ok(read) => Ok(read),
        Err(fault) => Err(script_ending(fault)),
    }
}
