//! What a round counts while it calls the board.
ghost use Rattle.std.specs.Prelude.{◌≡◌, [], ◌∷◌, ◌++◌, OnOk};
ghost use Rattle.converge_round.specs.Tallies.{noted, lost_one, no_calls};

use bbs_model::{BoardRefusal, Command, Reply};
use diego_names::{List, OutOfMemory};
use std::alloc::Global;

/// What became of the calls of a round so far.
#[derive(Debug, Drop)]
pub struct Tally {
    /// How many of them the board did.
    pub own: u64,
    /// Those that it refused, each with its cause.
    pub refused: List<(Command, BoardRefusal)>,
    /// How many jobs were not started because something was lost, or are not known to be.
    pub lost: u64,
}

impl Tally {
    pub fn new(alloc: Global) -> Tally
        ensures { result ≡ no_calls }
    {
        Tally {
            own: 0,
            refused: List::new(alloc),
            lost: 0,
        }
    }

    /// The reply to a command counts.
    pub(crate) fn note(&mut self, command: &Command, reply: &Reply) -> Result<(), OutOfMemory>
        ensures { OnOk result (self.new ≡ noted command.entry.now reply.now self.old) }
    {
        match reply {
            Reply::Ok { .. } => {
                self.own = self.own.saturating_add(1);
                Ok(())
            }
            Reply::Same { .. } => Ok(()),
            Reply::Refused { why, .. } => add_pair(&mut self.refused, command, why),
        }
    }

    pub fn lose(&mut self)
        ensures { self.new ≡ lost_one self.old }
    {
        self.lost = self.lost.saturating_add(1);
    }
}

fn add_pair<A: Copy, B: Copy>(pairs: &mut List<(A, B)>, a: &A, b: &B) -> Result<(), OutOfMemory>
    ensures { OnOk result (pairs.new ≡ pairs.old ++ (a.now, b.now) ∷ []) }
{
    pairs.push((*a, *b))
}
