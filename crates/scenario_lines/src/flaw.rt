//! Why a line was not read.
ghost use Rattle.std.specs.Prelude.{◌≡◌};
ghost use Rattle.scenario_lines.specs.declared.flaw.LineError.TheVariants.{Flawed, OutOfMemory as NoMemory};

use diego_names::OutOfMemory;
use thiserror::Error;

/// What is wrong with a line by itself: the first of these that holds.
#[derive(Clone, Copy, Debug, PartialEq, Eq, Error)]
pub enum Flaw {
    /// It isn't UTF-8, or no JSON.
    #[error("bad json")]
    BadJson,
    /// A member is missing, is one too many or is of another kind.
    #[error("bad shape")]
    BadShape,
    /// A text that has to be a name is none.
    #[error("bad name")]
    BadName,
}

/// Why a line was not read.
#[derive(Clone, Copy, Debug, PartialEq, Eq, Error)]
pub enum LineError {
    #[error("{0}")]
    Flawed(Flaw),
    #[error("out of memory")]
    OutOfMemory,
}

impl From<Flaw> for LineError {
    ghost from_gives = { λ flaw error. error ≡ Flawed flaw };

    fn from(flaw: Flaw) -> LineError {
        LineError::Flawed(flaw)
    }
}

impl From<OutOfMemory> for LineError {
    ghost from_gives = { λ _ error. error ≡ NoMemory };

    fn from(_want: OutOfMemory) -> LineError {
        LineError::OutOfMemory
    }
}
