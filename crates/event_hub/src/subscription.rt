ghost use Rattle.std.specs.Prelude.{◌≡◌, ◌≤◌, length, IfOk, OnErr};
ghost use Rattle.bbs_model.specs.PortView.{Looks};
ghost use Rattle.bbs_model.specs.Told.{IsHeard};

use bbs_model::{Event, Heard, Port};
use diego_names::{List, OutOfMemory};
use std::alloc::Global;
use std::marker::Model;

/// A reader of a board's log, which knows the place up to which it has heard.
#[derive(Debug, Drop)]
pub struct Subscription {
    at: u64,
}

// Contracts see the place.
impl Model for Subscription {
    ghost use Rattle.std.specs.Prelude as plain;

    ghost Value = { plain.ℕ };

    ghost view = { λ s. s.at };
}

impl Subscription {
    /// A reader that begins at a place of a log: at 0 it hears all, at the log's length only what
    /// comes later.
    pub fn new(at: u64) -> Subscription
        ensures { result ≡ at }
    {
        Subscription { at }
    }

    /// The place at which the next poll begins.
    pub fn at(&self) -> u64
        ensures { result ≡ self.now }
    {
        self.at
    }

    /// The changes of rows that the next items made, of `max` items at most, and of all that there
    /// are where these are fewer. The next poll begins behind them.
    pub fn poll<P: Port>(
        &mut self,
        alloc: Global,
        port: &mut P,
        max: u32,
    ) -> Result<List<Event>, OutOfMemory>
        requires { self.old ≤ length (P.view port.old).seen }
        ensures keeps { P.keeps port.old port.new }
        ensures number { P.number port.new ≡ P.number port.old }
        ensures looks { Looks (P.view port.old) (P.view port.new) }
        ensures heard { IfOk result (λ events. IsHeard (P.view port.new).base
            (P.view port.new).seen self.old max (record { events = events; upto = self.new })) }
        ensures within { self.new ≤ length (P.view port.new).seen }
        ensures stays { OnErr result (self.new ≡ self.old) }
    {
        match port.events(alloc, self.at, max) {
            Err(why) => Err(why),
            Ok(Heard { events, upto }) => {
                self.at = upto;
                Ok(events)
            }
        }
    }
}
