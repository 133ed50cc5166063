//! A board in memory for one caller, by the plain step: what code over any port is tried with.
ghost use Rattle.std.specs.Prelude.{◌≡◌, ◌++◌, [], ◌<◌, ◌^◌, length, IfOk};
ghost use Rattle.bbs_model.specs.Calls.{Ends, added};
ghost use Rattle.bbs_model.specs.Replay.{replay_log};
ghost use Rattle.bbs_model.specs.Step.{IsLegal};
ghost use Rattle.bbs_model.specs.Valid.{IsValid};

use crate::editing::copy_of;
use crate::step::{apply, decide};
use bbs_model::{CallFault, Command, Events, Heard, Item, Port, Reply, Rows, Verdict, hear};
use convergence::work_of;
use crash_backoff::Moment;
use diego_names::{List, OutOfMemory};
use std::alloc::Global;
use std::marker::Model;

/// A board without a disk. Each legal command is acknowledged, as long as there is memory.
#[derive(Drop)]
pub struct PlainPort {
    alloc: Global,
    number: u32,
    base: Rows,
    rows: Rows,
    log: Vec<Item>,
    // What each item told.
    told: Vec<Option<Events>>,
}

impl Model for PlainPort {
    ghost use Rattle.plain_step.specs.Plain.{PlainBoard, IsPlain};

    ghost Value = { PlainBoard };

    ghost view = { λ p. record { number = p.number; base = p.base; log = p.log.items } };

    ghost invariant = { λ p. IsPlain p.base p.rows p.log.items p.told.items };
}

impl PlainPort {
    /// A board with these rows, for the caller of this number.
    pub fn new(alloc: Global, number: u32, base: Rows) -> Result<PlainPort, OutOfMemory>
        requires { IsValid base }
        ensures { IfOk result (λ p. p ≡ record { number = number; base = base; log = [] }) }
    {
        let rows = copy_of(alloc, &base)?;
        Ok(PlainPort {
            alloc,
            number,
            base,
            rows,
            log: Vec::new(alloc),
            told: Vec::new(alloc),
        })
    }

    /// What was done, oldest first.
    pub fn log(&self) -> &[Item]
        ensures { result.now ≡ self.now.log }
    {
        self.log.as_slice()
    }

    /// Makes a legal command a transition.
    fn transition(&mut self, command: &Command) -> Result<Reply, CallFault>
        requires { IsLegal (replay_log self.old.base self.old.log) command.now }
        ensures ends { Ends Verdict.Ok (length self.old.log)
            (replay_log self.old.base self.old.log).next result }
        ensures done { self.new ≡ record self.old {
          log = self.old.log ++ added result self.old.number command.entry.now;
        } }
        ensures few { length self.new.log < 2 ^ 64 }
    {
        let place = self.log.len() as u64;
        let stamp = self.rows.next;
        if self.log.reserve(1).is_err() || self.told.reserve(1).is_err() {
            return Err(CallFault::OutOfMemory);
        }
        match apply(self.alloc, &mut self.rows, command) {
            Err(_) => Err(CallFault::OutOfMemory),
            Ok(events) => {
                self.log.push_reserved(Item::Done(self.number, *command));
                self.told.push_reserved(Some(events));
                let _length = self.log.len();
                Ok(Reply::Ok { place, stamp })
            }
        }
    }
}

impl Port for PlainPort {
    ghost use Rattle.plain_step.specs.Plain.{PlainBoard, plain_seen_of, GoesOnFrom, goes_same, goes_then};

    ghost view = { plain_seen_of };

    ghost number = { λ (p : PlainBoard). p.number };

    ghost keeps = { GoesOnFrom };

    ghost same = { goes_same };

    ghost goes_on = { goes_then };

    fn call(&mut self, command: Command) -> Result<Reply, CallFault> {
        let place = self.log.len() as u64;
        match decide(&self.rows, &command) {
            Verdict::Ok => self.transition(&command),
            Verdict::Same => Ok(Reply::Same { place }),
            Verdict::Refused(why) => Ok(Reply::Refused { why, place }),
        }
    }

    fn rows(&mut self, alloc: Global) -> Result<Rows, OutOfMemory> {
        let _length = self.log.len();
        copy_of(alloc, &self.rows)
    }

    fn work(&mut self, alloc: Global, now: Moment) -> Result<List<Command>, OutOfMemory> {
        let _length = self.log.len();
        work_of(alloc, &self.rows, now)
    }

    fn events(&mut self, alloc: Global, from: u64, max: u32) -> Result<Heard, OutOfMemory> {
        let _length = self.log.len();
        hear(alloc, self.told.as_slice(), from, max)
    }

    fn place(&mut self) -> u64 {
        self.log.len() as u64
    }
}
