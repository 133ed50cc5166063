//! What answers the calls of a phase.
ghost use Rattle.pair_runs.specs.Served.{IsServed, ServerView};

use bbs_model::Command;
use standby_board::{PairFault, PairReply};

/// What answers the calls of a phase: a pair of boards, or the board that took over from one.
pub trait Server {
    // The rows that it began with, what it did since, and the faults of its disks.
    ghost view: { Self → ServerView };

    // It is the same server, and of what it leads to only this has changed.
    ghost keeps: { Self → Self → Type 0 };

    /// Does a command for a caller of this number. A place in the answer is one of the log.
    fn call(&mut self, by: u32, command: Command) -> Result<PairReply, PairFault>
        ensures keeps { keeps self.old self.new }
        ensures served { IsServed by command (view self.old) result (view self.new) };

    // It is what it is.
    ghost same: { (s : Self) → keeps s s };

    // What keeps what was kept keeps the first.
    ghost goes_on: { (s t u : Self) → keeps s t → keeps t u → keeps s u };
}
