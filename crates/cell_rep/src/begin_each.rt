//! The acts that have a call for each of some containers.
ghost use Rattle.std.specs.Prelude.{◌≡◌, IfOk};
ghost use Rattle.std.specs.List.{list_any};
ghost use Rattle.container_store.specs.Lookups.{those_of};
ghost use Rattle.cell_rep.specs.Acts.{named_in, begun, start_todo, comes_up, settle_op, settle_todo, each_todo, refused_each, each_refusal};
ghost use Rattle.cell_records.specs.declared.job_name.JobName.TheVariants.{Lrp};
ghost use Rattle.cell_rep.specs.Kinds.{IsOfEach};
ghost use Rattle.cell_rep.specs.Reps.{containers_of};

use crate::begin::call;
use crate::call_end::RepRefusal;
use crate::cell_act::CellAct;
use crate::rep::CellRep;
use crate::todo::Todo;
use bbs_model::Op;
use cell_records::{Container, ContainerState, JobName};
use container_store::{StoreRefusal, is_job_in, is_reserved};
use crash_backoff::Moment;
use diego_names::{Instance, Key, List, Name, OutOfMemory};
use std::alloc::Global;

fn comes_up(job: &Option<JobName>, container: &Container) -> bool
    ensures { result ≡ comes_up job.now container.now }
{
    is_reserved(container) && is_job_in(job, &container.job)
}

fn start_todo(now: Moment, cell: Name, container: &Container) -> Option<Todo>
    ensures { result ≡ start_todo now cell container.now.job container.now.instance }
{
    match container.job {
        JobName::Task(_) => None,
        JobName::Lrp(key) => Some(call(
            now,
            Op::Start {
                key,
                instance: container.instance,
                cell,
            },
        )),
    }
}

fn settle_op(cell: Name, draining: bool, container: &Container) -> Op
    ensures { result ≡ settle_op cell draining
        container.now.job container.now.state container.now.instance }
{
    let instance = container.instance;
    match container.job {
        JobName::Lrp(key) => settle_lrp(cell, draining, key, container.state, instance),
        JobName::Task(name) => match container.state {
            ContainerState::Completed { failed } => Op::CompleteTask {
                name,
                instance,
                failed,
            },
            _ => Op::StartTask {
                name,
                instance,
                cell,
            },
        },
    }
}

fn settle_lrp(cell: Name, draining: bool, key: Key, state: ContainerState, instance: Instance) -> Op
    ensures { result ≡ settle_op cell draining (Lrp key) state instance }
{
    match state {
        ContainerState::Reserved if draining => Op::Unclaim { key, instance },
        ContainerState::Reserved => Op::Claim {
            key,
            instance,
            cell,
        },
        ContainerState::Running if draining => Op::Evacuate { key, instance },
        ContainerState::Running => Op::Start {
            key,
            instance,
            cell,
        },
        ContainerState::Completed { .. } => Op::Crash { key, instance },
    }
}

fn settle_todo(now: Moment, cell: Name, draining: bool, container: &Container) -> Todo
    ensures { result ≡ settle_todo now cell draining container.now }
{
    call(now, settle_op(cell, draining, container))
}

fn any_comes_up(job: &Option<JobName>, containers: &[Container]) -> bool
    ensures { result ≡ list_any (comes_up job.now) containers.now }
{
    containers.iter().any(|container| comes_up(job, container))
}

/// What a container has to be told of.
pub fn each_todo(
    act: &CellAct,
    now: Moment,
    cell: Name,
    draining: bool,
    container: &Container,
) -> Option<Todo>
    ensures { result ≡ each_todo act.entry.now now cell draining container.now }
{
    match act {
        CellAct::Up { job } if comes_up(job, container) => start_todo(now, cell, container),
        CellAct::Settle => Some(settle_todo(now, cell, draining, container)),
        _ => None,
    }
}

/// Whether a job is named of which no container comes up.
fn refused_each(act: &CellAct, containers: &[Container]) -> bool
    ensures { result ≡ refused_each act.now containers.now }
{
    match act {
        CellAct::Up { job } => job.is_some() && !any_comes_up(job, containers),
        _ => false,
    }
}

// The job that an act names, if it names one.
fn named_in(act: &CellAct) -> Option<JobName>
    ensures { result ≡ named_in act.now }
{
    match act {
        CellAct::Up { job } => *job,
        _ => None,
    }
}

impl CellRep {
    /// The containers that such an act may have a call for: of the job that it names, or all.
    pub(crate) fn asked_of(
        &self,
        alloc: Global,
        act: &CellAct,
    ) -> Result<List<Container>, OutOfMemory>
        ensures { IfOk result (λ list. list ≡ those_of (named_in act.now) (containers_of self.now)) }
    {
        self.those_of(alloc, &named_in(act))
    }

    /// Why such an act calls nothing, if so.
    #[tactic(auto, using(crate::proofs::Asked::asked_refusal))]
    pub(crate) fn refusal_of(&self, act: &CellAct, asked: &[Container]) -> Option<RepRefusal>
        requires { asked.now ≡ those_of (named_in act.now) (containers_of self.now) }
        ensures { result ≡ each_refusal act.now self.now.joined }
    {
        match &self.joined {
            None => Some(RepRefusal::Down),
            Some(_) if refused_each(act, asked) => {
                Some(RepRefusal::Store(StoreRefusal::Unknown))
            }
            Some(_) => None,
        }
    }

    /// Does at once what such an act does.
    pub(crate) fn begin_each(&mut self, act: &CellAct)
        requires { IsOfEach act.now }
        ensures begun { self.new ≡ begun act.now self.old }
        ensures cell { self.new.cell ≡ self.old.cell }
    {
        if let CellAct::Up { job } = act {
            if let Some(joined) = &mut self.joined {
                joined.store.run_each(job);
            }
        }
    }
}
