//! A board in memory whose disk fails once: what code over any port is tried with.
ghost use Rattle.std.specs.Prelude.{◌≡◌, ◌++◌, [], ◌<◌, ◌^◌, length, IfOk};
ghost use Rattle.bbs_model.specs.Calls.{added};
ghost use Rattle.bbs_model.specs.Replay.{replay_log};
ghost use Rattle.bbs_model.specs.Step.{IsLegal};
ghost use Rattle.bbs_model.specs.Valid.{IsValid};
ghost use Rattle.cell_tests.specs.Failing.{is_failing, EndsHere};

use bbs_model::{CallFault, Command, Events, Heard, Item, Port, Reply, Rows, Verdict, hear};
use convergence::work_of;
use crash_backoff::Moment;
use diego_names::{List, OutOfMemory};
use plain_step::{apply, copy_of, decide};
use std::alloc::Global;
use std::marker::Model;

/// A board whose disk fails at the item of one place, which is a doubt then. Each other legal command
/// is acknowledged, as long as there is memory.
#[derive(Drop)]
pub struct FailingPort {
    alloc: Global,
    number: u32,
    base: Rows,
    rows: Rows,
    log: Vec<Item>,
    // What each item told.
    told: Vec<Option<Events>>,
    fails_at: Option<u64>,
}

impl Model for FailingPort {
    ghost use Rattle.cell_tests.specs.Failing.{FailingBoard};
    ghost use Rattle.plain_step.specs.Plain.{IsPlain};

    ghost Value = { FailingBoard };

    ghost view = { λ p. record {
      board = record { number = p.number; base = p.base; log = p.log.items };
      fails_at = p.fails_at;
    } };

    ghost invariant = { λ p. IsPlain p.base p.rows p.log.items p.told.items };
}

impl FailingPort {
    /// A board with these rows, for the caller of this number. The disk fails at the item of the
    /// place that is given: once, since a place is taken once.
    pub fn new(
        alloc: Global,
        number: u32,
        base: Rows,
        fails_at: Option<u64>,
    ) -> Result<FailingPort, OutOfMemory>
        requires { IsValid base }
        ensures { IfOk result (λ p. p ≡ record {
          board = record { number = number; base = base; log = [] };
          fails_at = fails_at;
        }) }
    {
        let rows = copy_of(alloc, &base)?;
        Ok(FailingPort {
            alloc,
            number,
            base,
            rows,
            log: Vec::new(alloc),
            told: Vec::new(alloc),
            fails_at,
        })
    }

    /// What was done, oldest first.
    pub fn log(&self) -> &[Item]
        ensures { result.now ≡ self.now.board.log }
    {
        self.log.as_slice()
    }

    // Whether the disk fails at a place.
    fn is_failing(&self, place: u64) -> bool
        ensures { result ≡ is_failing self.now.fails_at place }
    {
        match self.fails_at {
            None => false,
            Some(at) => at == place,
        }
    }

    /// Makes a legal command a transition, or a doubt where the disk fails.
    fn store(&mut self, command: &Command) -> Result<Reply, CallFault>
        requires { IsLegal (replay_log self.old.board.base self.old.board.log) command.now }
        ensures ends { EndsHere (is_failing self.old.fails_at (length self.old.board.log))
            (length self.old.board.log)
            (replay_log self.old.board.base self.old.board.log).next result }
        ensures done { self.new ≡ record self.old {
          board = record self.old.board {
            log = self.old.board.log ++ added result self.old.board.number command.entry.now;
          };
        } }
        ensures few { length self.new.board.log < 2 ^ 64 }
    {
        let place = self.log.len() as u64;
        let stamp = self.rows.next;
        let fails = self.is_failing(place);
        if self.log.reserve(1).is_err() || self.told.reserve(1).is_err() {
            return Err(CallFault::OutOfMemory);
        }
        if fails {
            self.log.push_reserved(Item::Doubt(self.number, *command));
            self.told.push_reserved(None);
            let _length = self.log.len();
            return Err(CallFault::Disk { place });
        }
        match apply(self.alloc, &mut self.rows, command) {
            Err(_) => Err(CallFault::OutOfMemory),
            Ok(events) => {
                self.log.push_reserved(Item::Done(self.number, *command));
                self.told.push_reserved(Some(events));
                let _length = self.log.len();
                Ok(Reply::Ok { place, stamp })
            }
        }
    }
}

impl Port for FailingPort {
    ghost use Rattle.cell_tests.specs.Failing.{FailingBoard, failing_seen_of, FailsOn, fails_same, fails_then};

    ghost view = { failing_seen_of };

    ghost number = { λ (p : FailingBoard). p.board.number };

    ghost keeps = { FailsOn };

    ghost same = { fails_same };

    ghost goes_on = { fails_then };

    fn call(&mut self, command: Command) -> Result<Reply, CallFault> {
        let place = self.log.len() as u64;
        match decide(&self.rows, &command) {
            Verdict::Ok => self.store(&command),
            Verdict::Same => Ok(Reply::Same { place }),
            Verdict::Refused(why) => Ok(Reply::Refused { why, place }),
        }
    }

    fn rows(&mut self, alloc: Global) -> Result<Rows, OutOfMemory> {
        let _length = self.log.len();
        copy_of(alloc, &self.rows)
    }

    fn work(&mut self, alloc: Global, now: Moment) -> Result<List<Command>, OutOfMemory> {
        let _length = self.log.len();
        work_of(alloc, &self.rows, now)
    }

    fn events(&mut self, alloc: Global, from: u64, max: u32) -> Result<Heard, OutOfMemory> {
        let _length = self.log.len();
        hear(alloc, self.told.as_slice(), from, max)
    }

    fn place(&mut self) -> u64 {
        self.log.len() as u64
    }
}
