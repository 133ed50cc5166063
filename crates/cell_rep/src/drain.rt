//! What a rep is asked to do: to be emptied, and to start a job.
ghost use Rattle.std.specs.Prelude.{◌≡◌, [], ◌∷◌, IfOk, OnOk, OnErr};
ghost use Rattle.cell_rep.specs.Acts.{drain_todo, job_begun, job_todo};
ghost use Rattle.cell_rep.specs.Follows.{stage, Performs, IsStarted};

use crate::begin::{call, claim_op, refused};
use crate::call_end::{CallEnd, Called, RepRefusal};
use crate::rep::CellRep;
use crate::todo::Todo;
use crate::wire::Wire;
use bbs_model::{CallFault, Op, Port};
use cell_records::Job;
use crash_backoff::Moment;
use diego_names::OutOfMemory;
use std::alloc::Global;

impl CellRep {
    fn drain_todo(&self, now: Moment) -> Todo
        ensures { result ≡ drain_todo now self.now.cell self.now.joined }
    {
        match &self.joined {
            None => Todo::Local(RepRefusal::Down),
            Some(joined) => call(
                now,
                Op::Drain {
                    cell: self.cell,
                    epoch: joined.store.epoch(),
                },
            ),
        }
    }

    /// Tells the board that the cell is to be emptied.
    pub fn drain<P: Port, W: Wire>(
        &mut self,
        alloc: Global,
        port: &mut P,
        wire: &mut W,
        now: Moment,
    ) -> Called
        ensures keeps { P.keeps port.old port.new }
        ensures number { P.number port.new ≡ P.number port.old }
        ensures drained { Performs (P.number port.old) self.old.cell
            (drain_todo now self.old.cell self.old.joined ∷ [])
            (stage self.old (P.view port.old) (W.ends wire.old) (W.losses wire.old) [])
            (stage self.new (P.view port.new) (W.ends wire.new) (W.losses wire.new) (result ∷ [])) }
        ensures cell { self.new.cell ≡ self.old.cell }
    {
        let todo = self.drain_todo(now);
        self.once(alloc, &todo, port, wire)
    }

    fn begin_job(&mut self, job: &Job, now: Moment) -> Result<Todo, OutOfMemory>
        ensures todo { IfOk result
            (λ todo. todo ≡ job_todo job.now now self.old.cell self.old.joined) }
        ensures begun { OnOk result (self.new ≡ job_begun job.now self.old self.old.joined) }
        ensures err { OnErr result (self.new ≡ self.old) }
        ensures cell { self.new.cell ≡ self.old.cell }
    {
        let cell = self.cell;
        match &mut self.joined {
            None => Ok(Todo::Local(RepRefusal::Down)),
            Some(joined) => match joined.store.reserve(job.job, job.memory, job.disk) {
                Err(fault) => refused(fault),
                Ok(instance) => Ok(call(now, claim_op(cell, &job.job, instance))),
            },
        }
    }

    /// Makes room for a job that a round starts here, and tells the board. Where memory runs out
    /// before that, nothing was done, and the answer is that fault without a command.
    pub fn start_job<P: Port, W: Wire>(
        &mut self,
        alloc: Global,
        job: &Job,
        port: &mut P,
        wire: &mut W,
        now: Moment,
    ) -> Called
        ensures keeps { P.keeps port.old port.new }
        ensures number { P.number port.new ≡ P.number port.old }
        ensures started { IsStarted (P.number port.old) job.now now
            (stage self.old (P.view port.old) (W.ends wire.old) (W.losses wire.old) [])
            (stage self.new (P.view port.new) (W.ends wire.new) (W.losses wire.new) (result ∷ [])) }
        ensures cell { self.new.cell ≡ self.old.cell }
    {
        match self.begin_job(job, now) {
            Err(_) => Called {
                command: None,
                end: CallEnd::Fault(CallFault::OutOfMemory),
            },
            Ok(todo) => self.once(alloc, &todo, port, wire),
        }
    }
}
