//! `up`: a cell runs what it has made room for, of one job.
ghost use Rattle.std.specs.Prelude.{◌≡◌};
ghost use Rattle.scenario_lines.specs.CellActs.{up_instance_in, up_task_in};
ghost use Rattle.scenario_lines.specs.Places.{object_of};

use crate::cell::job::{instance_in, task_job_in};
use crate::flaw::Flaw;
use crate::members::Members;
use cell_rep::CellAct;

#[tactic(auto, unfolding(crate::specs::CellActs::up_instance_in))]
pub(crate) fn up_instance_in(members: &Members<'_>) -> Result<CellAct, Flaw>
    ensures { result ≡ up_instance_in (object_of members.now.object.now) }
{
    Ok(CellAct::Up {
        job: Some(instance_in(members)?),
    })
}

#[tactic(auto, unfolding(crate::specs::CellActs::up_task_in))]
pub(crate) fn up_task_in(members: &Members<'_>) -> Result<CellAct, Flaw>
    ensures { result ≡ up_task_in (object_of members.now.object.now) }
{
    Ok(CellAct::Up {
        job: Some(task_job_in(members)?),
    })
}
