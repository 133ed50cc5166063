//! The dump that a source gives.
ghost use Rattle.std.specs.Prelude.{◌≡◌, IfOk};
ghost use Rattle.byte_ports.specs.Cause.{HasCause};
ghost use Rattle.dump_reader.specs.Facts.{IsDump};
ghost use Rattle.headroom_engine.specs.Reading.{ReadsDump, is_unread};

use crate::ending::Ending;
use byte_ports::{ReadFault, Source, read_whole};
use dump_reader::{Dump, DumpError, read_dump};
use std::alloc::Global;

/// The most bytes that a dump and its questions may have.
const LIMIT: usize = 67_108_864;

/// The dump that the source gives, or how the program ends that has none.
pub(crate) fn read<S: Source>(alloc: Global, source: &mut S) -> Result<Dump, Ending>
    ensures reads { ReadsDump result (S.left source.old) (S.left source.new) }
    ensures facts { IfOk result IsDump }
    ensures cause { HasCause (is_unread result) (S.faults source.old) (S.faults source.new) }
{
    match read_whole(alloc, source, LIMIT) {
        Ok(bytes) => match read_dump(alloc, &bytes) {
            Ok(dump) => Ok(dump),
            Err(DumpError::Faulty { fault, line }) => Err(Ending::Faulty { fault, line }),
            Err(DumpError::OutOfMemory) => Err(Ending::OutOfMemory),
        },
        Err(ReadFault::Failed) => Err(Ending::Read),
        Err(ReadFault::TooLong) => Err(Ending::TooLong),
        Err(ReadFault::OutOfMemory) => Err(Ending::OutOfMemory),
    }
}
