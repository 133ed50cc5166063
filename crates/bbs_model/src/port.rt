//! A caller's way to a board that others may call too.
ghost use Rattle.std.specs.Prelude.{◌≡◌, ◌≤◌, ℕ, length, IfOk};
ghost use Rattle.bbs_model.specs.PortView.{PortView, rows_seen, Looks, IsCalled};
ghost use Rattle.bbs_model.specs.Told.{IsHeard};
ghost use Rattle.bbs_model.specs.Valid.{IsValid};
ghost use Rattle.bbs_model.specs.Work as asked;

use crate::{CallFault, Command, Heard, Reply, Rows};
use crash_backoff::Moment;
use diego_names::{List, OutOfMemory};
use std::alloc::Global;

/// A way to a board, with the number of its caller. Between any two calls others may have done
/// items; a caller learns of them when it calls or looks. A look may fail for want of memory alone,
/// and counts as a look all the same.
pub trait Port {
    // What its caller has seen of the log, and has done.
    ghost view: { Self → PortView };

    // The caller's number.
    ghost number: { Self → ℕ };

    // It is the same way to the same board, and of what it leads to only this has changed.
    ghost keeps: { Self → Self → Type 0 };

    /// Does a command, behind what others did. A place in the reply is one of the log; a fault of
    /// the disk leaves a doubt there.
    fn call(&mut self, command: Command) -> Result<Reply, CallFault>
        ensures keeps { keeps self.old self.new }
        ensures number { number self.new ≡ number self.old }
        ensures called { IsCalled (number self.old) (view self.old) command result (view self.new) };

    /// The rows, copied in the memory of all of them.
    fn rows(&mut self, alloc: Global) -> Result<Rows, OutOfMemory>
        ensures keeps { keeps self.old self.new }
        ensures number { number self.new ≡ number self.old }
        ensures looks { Looks (view self.old) (view self.new) }
        ensures rows { IfOk result (λ rows. rows ≡ rows_seen (view self.new)) }
        ensures valid { IsValid (rows_seen (view self.new)) };

    /// What convergence asks at a moment.
    fn work(&mut self, alloc: Global, now: Moment) -> Result<List<Command>, OutOfMemory>
        ensures keeps { keeps self.old self.new }
        ensures number { number self.new ≡ number self.old }
        ensures looks { Looks (view self.old) (view self.new) }
        ensures work { IfOk result (λ list. list ≡ asked.work (rows_seen (view self.new)) now) };

    /// The changes of rows that the items from the place `from` on made, of `max` items at most.
    fn events(&mut self, alloc: Global, from: u64, max: u32) -> Result<Heard, OutOfMemory>
        requires { from ≤ length (view self.old).seen }
        ensures keeps { keeps self.old self.new }
        ensures number { number self.new ≡ number self.old }
        ensures looks { Looks (view self.old) (view self.new) }
        ensures heard { IfOk result
            (IsHeard (view self.new).base (view self.new).seen from max) };

    /// The length of the log.
    fn place(&mut self) -> u64
        ensures keeps { keeps self.old self.new }
        ensures number { number self.new ≡ number self.old }
        ensures looks { Looks (view self.old) (view self.new) }
        ensures place { result ≡ length (view self.new).seen };

    // It is what it is.
    ghost same: { (p : Self) → keeps p p };

    // What keeps what was kept keeps the first.
    ghost goes_on: { (p q r : Self) → keeps p q → keeps q r → keeps p r };
}
