//! The lines of lock commands that a source gives.
ghost use Rattle.byte_ports.specs.Cause.{HasCause};
ghost use Rattle.lock_lines.specs.Reading.{lock_lines_of};
ghost use Rattle.program_ends.specs.Reading.{ReadsAs, is_unread};

use byte_ports::Source;
use diego_names::List;
use lock_lines::{LockLine, read_lock_lines};
use program_ends::{Ending, or_ending, read_bytes};
use std::alloc::Global;

/// The lines that the source gives, or how the program ends that has none.
pub(crate) fn read<S: Source>(alloc: Global, source: &mut S) -> Result<List<LockLine>, Ending>
    ensures reads { ReadsAs lock_lines_of result (S.left source.old) (S.left source.new) }
    ensures cause { HasCause (is_unread result) (S.faults source.old) (S.faults source.new) }
{
    match read_bytes(alloc, source) {
        Ok(bytes) => or_ending(read_lock_lines(alloc, &bytes)),
        Err(ending) => Err(ending),
    }
}
