ghost use Rattle.std.specs.Prelude.{◌≡◌};
ghost use Rattle.scenario_lines.specs.Acts.{is_of_cell};

use bbs_model::Op;
use cell_rep::CellAct;

/// What an actor does.
#[derive(Clone, Copy, Debug, PartialEq, Eq)]
pub enum Act {
    /// A client asks this of the board.
    Client(Op),
    /// A cell's rep does this.
    Cell(CellAct),
    /// A cell is emptied: its drain, and the settle behind it.
    Evacuate,
}

impl Act {
    /// Whether a cell does it, and no client.
    pub fn is_of_cell(&self) -> bool
        ensures { result ≡ is_of_cell self.now }
    {
        match self {
            Act::Client(_) => false,
            Act::Cell(_) | Act::Evacuate => true,
        }
    }
}

/// What is lost of a call.
#[derive(Clone, Copy, Debug, PartialEq, Eq)]
pub enum Loss {
    /// The call: it never reaches the board.
    Call,
    /// The reply: the board has answered, and nobody hears it.
    Reply,
}
