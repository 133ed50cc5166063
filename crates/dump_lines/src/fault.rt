//! Why a line was not read.
ghost use Rattle.std.specs.Prelude.{◌≡◌};
ghost use Rattle.dump_lines.specs.Faults.{first_of, or_shape, rank, ◌&◌};
ghost use Rattle.dump_lines.specs.declared.fault.LineError.TheVariants.{Faulty, OutOfMemory as NoMemory};

use diego_names::OutOfMemory;
use thiserror::Error;

/// What is wrong with a line by itself: of its faults the first in this order.
#[derive(Clone, Copy, Debug, PartialEq, Eq, Error)]
pub enum LineFault {
    /// It isn't UTF-8, or no JSON.
    #[error("bad json")]
    BadJson,
    /// It is of no kind that is read, lacks a member, or has one of another kind.
    #[error("bad shape")]
    BadShape,
    /// A text that has to be a name is none.
    #[error("bad name")]
    BadName,
    /// A list has two different placement tags.
    #[error("bad tags")]
    BadTags,
    /// A cell has more free than in all, or more containers than it may have.
    #[error("bad amounts")]
    BadAmounts,
}

/// Why a line was not read.
#[derive(Clone, Copy, Debug, PartialEq, Eq, Error)]
pub enum LineError {
    #[error("{0}")]
    Faulty(LineFault),
    #[error("out of memory")]
    OutOfMemory,
}

impl From<LineFault> for LineError {
    ghost from_gives = { λ fault error. error ≡ Faulty fault };

    fn from(fault: LineFault) -> LineError {
        LineError::Faulty(fault)
    }
}

impl From<OutOfMemory> for LineError {
    ghost from_gives = { λ _ error. error ≡ NoMemory };

    fn from(_want: OutOfMemory) -> LineError {
        LineError::OutOfMemory
    }
}

impl LineFault {
    fn rank(self) -> u8
        ensures { result ≡ rank self }
    {
        match self {
            LineFault::BadJson => 0,
            LineFault::BadShape => 1,
            LineFault::BadName => 2,
            LineFault::BadTags => 3,
            LineFault::BadAmounts => 4,
        }
    }

    /// Of two faults the first in the order.
    pub(crate) fn or_before(self, other: LineFault) -> LineFault
        ensures { result ≡ first_of self other }
    {
        if self.rank() <= other.rank() {
            self
        } else {
            other
        }
    }
}

/// What is there as it has to be.
pub(crate) fn or_shape<T: Drop>(found: Option<T>) -> Result<T, LineFault>
    ensures { result ≡ or_shape found }
{
    match found {
        Some(value) => Ok(value),
        None => Err(LineFault::BadShape),
    }
}

/// Two things that are read of one line: both, or the first of their faults.
pub(crate) fn both<A: Drop, B: Drop>(
    one: Result<A, LineFault>,
    other: Result<B, LineFault>,
) -> Result<(A, B), LineFault>
    ensures { result ≡ (one & other) }
{
    match one {
        Ok(a) => match other {
            Ok(b) => Ok((a, b)),
            Err(fault) => Err(fault),
        },
        Err(fault) => match other {
            Ok(_) => Err(fault),
            Err(second) => Err(fault.or_before(second)),
        },
    }
}
