//! Why bytes were not read as a scenario.
ghost use Rattle.std.specs.Prelude.{◌≡◌};
ghost use Rattle.scenario_reader.specs.Faults.{flaw_at};
ghost use Rattle.scenario_reader.specs.declared.fault.ScriptFault.TheVariants.{OutOfMemory as NoMemory};

use diego_names::OutOfMemory;
use scenario_lines::Flaw;
use thiserror::Error;

/// Why bytes were not read as a scenario: the first faulty line, and of its faults the first of
/// these. Lines count from 1.
#[derive(Clone, Copy, Debug, PartialEq, Eq, Error)]
pub enum ScriptFault {
    /// The line isn't UTF-8, or no JSON.
    #[error("bad json in line {line}")]
    BadJson { line: u32 },
    /// A member of the line is missing, is one too many or is of another kind.
    #[error("bad shape in line {line}")]
    BadShape { line: u32 },
    /// A text of the line that has to be a name is none.
    #[error("bad name in line {line}")]
    BadName { line: u32 },
    /// The line may not stand where it does, beside the lines before it.
    #[error("bad order in line {line}")]
    BadOrder { line: u32 },
    /// The line is the one by which there are more actors or more runs than a scenario may have.
    #[error("too much in line {line}")]
    TooMuch { line: u32 },
    /// There was no memory to read it.
    #[error("out of memory")]
    OutOfMemory,
}

impl ScriptFault {
    /// What is wrong with a line by itself.
    pub fn of_flaw(flaw: Flaw, line: u32) -> ScriptFault
        ensures { result ≡ flaw_at flaw line }
    {
        match flaw {
            Flaw::BadJson => ScriptFault::BadJson { line },
            Flaw::BadShape => ScriptFault::BadShape { line },
            Flaw::BadName => ScriptFault::BadName { line },
        }
    }
}

impl From<OutOfMemory> for ScriptFault {
    ghost from_gives = { λ _ fault. fault ≡ NoMemory };

    fn from(_want: OutOfMemory) -> ScriptFault {
        ScriptFault::OutOfMemory
    }
}
