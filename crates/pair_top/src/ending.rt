//! The ways in which the program of a pair ends, each with its status.
ghost use Rattle.std.specs.Prelude.{◌≡◌};
ghost use Rattle.pair_top.specs.Endings.{status_of};

use disk_trait::Area;
use program_ends::Ending;

/// How the program of a pair ends.
#[derive(Clone, Copy, Debug, PartialEq, Eq)]
pub enum PairEnding {
    /// As the run of a scenario ends. A board is that of the primary; a disk is that of either.
    Run(Ending),
    /// The script has this line, which is no client's.
    OtherLine { line: u32 },
    /// The standby's disk isn't a board: this area tells so first.
    NoStandby { area: Area },
    /// The standby's disk is a board whose first defect stands at this place of the area.
    DamagedStandby { area: Area, at: u64 },
    /// The rows of the two boards differ.
    Unequal,
}

/// The program's status.
pub fn number_of(ending: PairEnding) -> u8
    ensures { result ≡ status_of ending }
{
    match ending {
        PairEnding::Run(ending) => program_ends::number_of(ending),
        PairEnding::OtherLine { line: _ } => 2,
        PairEnding::NoStandby { area: _ } => 6,
        PairEnding::DamagedStandby { area: _, at: _ } => 6,
        PairEnding::Unequal => 10,
    }
}
