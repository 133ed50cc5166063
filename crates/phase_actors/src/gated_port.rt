//! A port with a gate before each call.
use bbs_model::{CallFault, Command, Heard, Port, Reply, Rows};
use byte_ports::Gate;
use crash_backoff::Moment;
use diego_names::{List, OutOfMemory};
use std::alloc::Global;

/// A port whose caller passes a gate before each call of the board. A look at the board passes none.
#[derive(Drop)]
pub struct GatedPort<'a, P: Port + Drop, G: Gate> {
    pub port: P,
    pub gate: &'a G,
    /// The number by which the caller passes the gate.
    pub actor: u32,
}

impl<'a, P: Port + Drop, G: Gate> Port for GatedPort<'a, P, G> {
    ghost view = { λ p. P.view p.port };

    ghost number = { λ p. P.number p.port };

    ghost keeps = { λ p q. P.keeps p.port q.port };

    ghost same = { λ p. P.same p.port };

    ghost goes_on = { λ p q r. P.goes_on p.port q.port r.port };

    fn call(&mut self, command: Command) -> Result<Reply, CallFault> {
        self.gate.pass(self.actor);
        self.port.call(command)
    }

    fn rows(&mut self, alloc: Global) -> Result<Rows, OutOfMemory> {
        self.port.rows(alloc)
    }

    fn work(&mut self, alloc: Global, now: Moment) -> Result<List<Command>, OutOfMemory> {
        self.port.work(alloc, now)
    }

    fn events(&mut self, alloc: Global, from: u64, max: u32) -> Result<Heard, OutOfMemory> {
        self.port.events(alloc, from, max)
    }

    fn place(&mut self) -> u64 {
        self.port.place()
    }
}
