//! What an act does at once, and what it then calls.
ghost use Rattle.std.specs.Prelude.{◌≡◌, [], ◌∷◌, IfOk, OnOk, OnErr};
ghost use Rattle.cell_rep.specs.Acts.{begun, begun_in, plan, plan_in, call, claim_op, found_todo, not_joined};
ghost use Rattle.cell_rep.specs.Claims.{first_of, flag_of};
ghost use Rattle.bbs_model.specs.declared.command.Op.TheVariants as op;
ghost use Rattle.cell_records.specs.declared.job_name.JobName.TheVariants.{Lrp, Task};
ghost use Rattle.cell_rep.specs.Kinds.{IsOfOne, IsToldRefused};
ghost use Rattle.cell_rep.specs.declared.cell_act.CellAct.TheVariants as act;

use crate::call_end::RepRefusal;
use crate::cell_act::CellAct;
use crate::claims::{claim_in, end_in, flag_of, run_in};
use crate::joined::Joined;
use crate::rep::CellRep;
use crate::todo::Todo;
use bbs_model::{Command, Op};
use cell_records::JobName;
use container_store::{ReserveFault, StoreRefusal};
use crash_backoff::Moment;
use diego_names::{Instance, Key, Name, OutOfMemory};

/// A call at a moment.
pub fn call(now: Moment, op: Op) -> Todo
    ensures { result ≡ call now op }
{
    Todo::Call(Command { now, op })
}

/// What tells the board of a job's container.
pub fn claim_op(cell: Name, job: &JobName, instance: Instance) -> Op
    ensures { result ≡ claim_op cell job.now instance }
{
    match *job {
        JobName::Lrp(key) => Op::Claim {
            key,
            instance,
            cell,
        },
        JobName::Task(name) => Op::StartTask {
            name,
            instance,
            cell,
        },
    }
}

impl CellRep {
    // The containers and the epoch are forgotten.
    fn forget(&mut self)
        ensures joined { self.new ≡ not_joined self.old }
        ensures cell { self.new.cell ≡ self.old.cell }
    {
        self.joined = None;
    }

    /// Does at once what an act does, and tells the one thing that it then does. Where memory runs
    /// out nothing was done.
    pub(crate) fn begin(&mut self, act: &CellAct, now: Moment) -> Result<Todo, OutOfMemory>
        requires { IsOfOne act.now }
        ensures todo { IfOk result (λ todo. plan act.entry.now now self.old ≡ todo ∷ []) }
        ensures begun { OnOk result (self.new ≡ begun act.entry.now self.old) }
        ensures err { OnErr result (self.new ≡ self.old) }
        ensures cell { self.new.cell ≡ self.old.cell }
    {
        let cell = self.cell;
        match act {
            CellAct::Join {
                zone,
                tag,
                totals,
                ttl,
            } => {
                self.forget();
                Ok(call(
                    now,
                    Op::Join {
                        cell,
                        zone: *zone,
                        tag: *tag,
                        totals: *totals,
                        ttl: *ttl,
                    },
                ))
            }
            CellAct::Die => {
                self.forget();
                Ok(Todo::Idle)
            }
            _ => match &mut self.joined {
                None => Ok(Todo::Local(RepRefusal::Down)),
                Some(joined) => begin_in(joined, cell, act, now),
            },
        }
    }
}

fn begin_in(
    joined: &mut Joined,
    cell: Name,
    act: &CellAct,
    now: Moment,
) -> Result<Todo, OutOfMemory>
    requires { IsOfOne act.now }
    ensures todo { IfOk result (λ todo. plan_in act.entry.now now cell joined.old ≡ todo ∷ []) }
    ensures begun { OnOk result (joined.new
        ≡ record joined.old { store = begun_in act.entry.now joined.old.store }) }
    ensures err { OnErr result (joined.new ≡ joined.old) }
{
    match act {
        CellAct::Renew { ttl } => Ok(call(
            now,
            Op::Renew {
                cell,
                epoch: joined.store.epoch(),
                ttl: *ttl,
            },
        )),
        CellAct::Claim { job, memory, disk } => {
            claim_at_once(joined, cell, job, *memory, *disk, now)
        }
        CellAct::Run { key, memory, disk } => run_at_once(joined, cell, key, *memory, *disk, now),
        CellAct::Crash { key } => Ok(crash_in(joined, key, now)),
        CellAct::Finish { name, failed } => Ok(finish_in(joined, name, *failed, now)),
        _ => Ok(Todo::Idle),
    }
}

// The container that is there or is made room for is told to the board.
fn claim_at_once(
    joined: &mut Joined,
    cell: Name,
    job: &JobName,
    memory: u32,
    disk: u32,
    now: Moment,
) -> Result<Todo, OutOfMemory>
    ensures todo { IfOk result
        (λ todo. plan_in (act.Claim job.now memory disk) now cell joined.old ≡ todo ∷ []) }
    ensures begun { OnOk result (joined.new ≡ record joined.old {
      store = begun_in (act.Claim job.now memory disk) joined.old.store;
    }) }
    ensures err { OnErr result (joined.new ≡ joined.old) }
{
    match claim_in(&mut joined.store, job, memory, disk) {
        Err(fault) => refused(fault),
        Ok(container) => Ok(call(now, claim_op(cell, job, container.instance))),
    }
}

// It runs at once, too.
fn run_at_once(
    joined: &mut Joined,
    cell: Name,
    key: &Key,
    memory: u32,
    disk: u32,
    now: Moment,
) -> Result<Todo, OutOfMemory>
    ensures todo { IfOk result
        (λ todo. plan_in (act.Run key.now memory disk) now cell joined.old ≡ todo ∷ []) }
    ensures begun { OnOk result (joined.new ≡ record joined.old {
      store = begun_in (act.Run key.now memory disk) joined.old.store;
    }) }
    ensures err { OnErr result (joined.new ≡ joined.old) }
{
    match claim_in(&mut joined.store, &JobName::Lrp(*key), memory, disk) {
        Err(fault) => refused(fault),
        Ok(container) => {
            run_in(&mut joined.store, &container);
            Ok(call(
                now,
                Op::Start {
                    key: *key,
                    instance: container.instance,
                    cell,
                },
            ))
        }
    }
}

// What a claim that has no container comes to.
pub fn refused(fault: ReserveFault) -> Result<Todo, OutOfMemory>
    ensures { IsToldRefused fault result }
{
    match fault {
        ReserveFault::OutOfMemory => Err(OutOfMemory),
        ReserveFault::Refused(why) => Ok(Todo::Local(RepRefusal::Store(why))),
    }
}

fn crash_in(joined: &mut Joined, key: &Key, now: Moment) -> Todo
    ensures todo { result ≡ found_todo now (λ c. op.Crash key.now c.instance)
        (first_of (Lrp key.now) joined.old.store.containers) }
    ensures begun { joined.new
        ≡ record joined.old { store = begun_in (act.Crash key.now) joined.old.store } }
{
    match end_in(&mut joined.store, &JobName::Lrp(*key), true) {
        None => Todo::Local(RepRefusal::Store(StoreRefusal::Unknown)),
        Some(container) => call(
            now,
            Op::Crash {
                key: *key,
                instance: container.instance,
            },
        ),
    }
}

fn finish_in(joined: &mut Joined, name: &Name, failed: bool, now: Moment) -> Todo
    ensures todo { result
        ≡ found_todo now (λ c. op.CompleteTask name.now c.instance (flag_of c.state failed))
        (first_of (Task name.now) joined.old.store.containers) }
    ensures begun { joined.new
        ≡ record joined.old { store = begun_in (act.Finish name.now failed) joined.old.store } }
{
    match end_in(&mut joined.store, &JobName::Task(*name), failed) {
        None => Todo::Local(RepRefusal::Store(StoreRefusal::Unknown)),
        Some(container) => call(
            now,
            Op::CompleteTask {
                name: *name,
                instance: container.instance,
                failed: flag_of(&container, failed),
            },
        ),
    }
}
