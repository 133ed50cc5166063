//! The ways in which the program ends, each with its status and its line.
ghost use Rattle.std.specs.Prelude.{◌≡◌};
ghost use Rattle.program_ends.specs.Ending.{status_of, constant_line, no_board_line};

use disk_trait::Area;
use scenario_reader::ScriptFault;

/// How the program ends.
#[derive(Clone, Copy, Debug, PartialEq, Eq)]
pub enum Ending {
    /// All is done, and the whole text is written.
    Done,
    /// The words aren't in the grammar.
    Usage,
    /// The source isn't a script, for this fault. The disk is untouched.
    Script(ScriptFault),
    /// The source failed while it was read.
    Read,
    /// The sink failed while text was printed.
    Unwritten,
    /// The disk failed before a call was made.
    Unopened,
    /// The disk failed in a call of the last phase.
    Doubt,
    /// The disk isn't a board: this area tells so first.
    NotABoard { area: Area },
    /// The disk is a board whose first defect stands at this place of the area.
    Damaged { area: Area, at: u64 },
    /// There was no memory.
    OutOfMemory,
    /// The source has more bytes than a script may have.
    TooLong,
    /// There are bytes where a board was to be prepared.
    Exists,
}

/// The program's status.
pub fn number_of(ending: Ending) -> u8
    ensures { result ≡ status_of ending }
{
    match ending {
        Ending::Done => 0,
        Ending::Usage => 1,
        Ending::Script(_) => 2,
        Ending::Read => 3,
        Ending::Unwritten => 4,
        Ending::Unopened => 5,
        Ending::Doubt => 5,
        Ending::NotABoard { area: _ } => 6,
        Ending::Damaged { area: _, at: _ } => 6,
        Ending::OutOfMemory => 7,
        Ending::TooLong => 8,
        Ending::Exists => 9,
    }
}

fn no_board_line(area: Area) -> &'static [u8]
    ensures { result.now ≡ no_board_line area }
{
    match area {
        Area::A => b"{\"area\":\"a\",\"at\":0,\"fault\":\"not a board\"}\n",
        Area::B => b"{\"area\":\"b\",\"at\":0,\"fault\":\"not a board\"}\n",
    }
}

/// The line that a fault is told by, where it tells no place. It is a constant, so that telling the
/// fault wants no memory.
pub fn constant_line(ending: Ending) -> &'static [u8]
    ensures { result.now ≡ constant_line ending }
{
    match ending {
        Ending::Usage => b"{\"fault\":\"usage\"}\n",
        Ending::Read => b"{\"fault\":\"read\"}\n",
        Ending::Unopened => b"{\"fault\":\"disk\"}\n",
        Ending::NotABoard { area } => no_board_line(area),
        Ending::TooLong => b"{\"fault\":\"too long\"}\n",
        Ending::Exists => b"{\"fault\":\"exists\"}\n",
        Ending::Script(_) => b"",
        Ending::Damaged { area: _, at: _ } => b"",
        Ending::Done | Ending::Unwritten | Ending::Doubt | Ending::OutOfMemory => b"",
    }
}
