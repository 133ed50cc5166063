//! What a cell does, by its line.
ghost use Rattle.std.specs.Prelude.{Ok};
ghost use Rattle.scenario_lines.specs.CellActs.{as_act, done_in};
ghost use Rattle.scenario_lines.specs.Flaws.{GivesInPlace};
ghost use Rattle.scenario_lines.specs.Places.{object_of};
ghost use Rattle.scenario_lines.specs.declared.act.Act.TheVariants.{Evacuate};

mod claim;
mod crash;
mod finish;
mod job;
mod join;
mod renew;
mod run;
mod up;

use crate::act::Act;
use crate::flaw::Flaw;
use crate::form::CellOp;
use crate::members::Members;
use cell_rep::CellAct;

/// What a cell does, written to its place.
pub(crate) fn done_into(op: CellOp, members: &Members<'_>, act: &mut Act) -> Result<(), Flaw>
    ensures { GivesInPlace result act.new (done_in op (object_of members.now.object.now)) }
{
    match op {
        CellOp::Join => put(join::join_in(members), act),
        CellOp::Renew => put(renew::renew_in(members), act),
        CellOp::ClaimInstance => put(claim::claim_instance_in(members), act),
        CellOp::ClaimTask => put(claim::claim_task_in(members), act),
        CellOp::Run => put(run::run_in(members), act),
        CellOp::UpAll => put(Ok(CellAct::Up { job: None }), act),
        CellOp::UpInstance => put(up::up_instance_in(members), act),
        CellOp::UpTask => put(up::up_task_in(members), act),
        CellOp::Crash => put(crash::crash_in(members), act),
        CellOp::Finish => put(finish::finish_in(members), act),
        CellOp::Settle => put(Ok(CellAct::Settle), act),
        CellOp::Evacuate => evacuate(act),
        CellOp::Die => put(Ok(CellAct::Die), act),
    }
}

// What a cell's rep does by itself.
fn put(done: Result<CellAct, Flaw>, act: &mut Act) -> Result<(), Flaw>
    ensures { GivesInPlace result act.new (as_act done) }
{
    *act = Act::Cell(done?);
    Ok(())
}

fn evacuate(act: &mut Act) -> Result<(), Flaw>
    ensures { GivesInPlace result act.new (Ok Evacuate) }
{
    *act = Act::Evacuate;
    Ok(())
}
