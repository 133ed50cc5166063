//! Why a dump was not read.
ghost use Rattle.std.specs.Prelude.{◌≡◌};
ghost use Rattle.dump_reader.specs.declared.fault.DumpError.TheVariants.{OutOfMemory as NoMemory};

use diego_names::OutOfMemory;
use dump_lines::LineFault;
use thiserror::Error;

/// What is wrong with a line of a dump: of its faults the first in this order.
#[derive(Clone, Copy, Debug, PartialEq, Eq, Error)]
pub enum DumpFault {
    /// What is wrong with it by itself.
    #[error("{0}")]
    Line(LineFault),
    /// It names what is there already, or is a question that names a cell twice.
    #[error("twice")]
    Twice,
    /// By it there is more than a dump may have, or it asks for more than may be asked.
    #[error("too much")]
    TooMuch,
    /// It is a question about a cell or a zone that no line names.
    #[error("unknown")]
    Unknown,
}

/// Why a dump was not read.
#[derive(Clone, Copy, Debug, PartialEq, Eq, Error)]
pub enum DumpError {
    /// Lines count from 1; blank lines are counted.
    #[error("{fault} in line {line}")]
    Faulty { fault: DumpFault, line: u32 },
    #[error("out of memory")]
    OutOfMemory,
}

impl From<OutOfMemory> for DumpError {
    ghost from_gives = { λ _ error. error ≡ NoMemory };

    fn from(_want: OutOfMemory) -> DumpError {
        DumpError::OutOfMemory
    }
}
