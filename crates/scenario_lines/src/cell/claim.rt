//! `claim`: a cell makes room for a job.
ghost use Rattle.std.specs.Prelude.{◌≡◌};
ghost use Rattle.scenario_lines.specs.CellActs.{claim_for, claim_instance_in, claim_task_in};
ghost use Rattle.scenario_lines.specs.Places.{object_of};

use crate::cell::job::{instance_in, task_job_in};
use crate::flaw::Flaw;
use crate::member::Member;
use crate::members::Members;
use crate::values::number_in;
use cell_records::JobName;
use cell_rep::CellAct;

#[tactic(auto, unfolding(crate::specs::CellActs::claim_instance_in))]
pub(crate) fn claim_instance_in(members: &Members<'_>) -> Result<CellAct, Flaw>
    ensures { result ≡ claim_instance_in (object_of members.now.object.now) }
{
    claim_for(instance_in(members)?, members)
}

#[tactic(auto, unfolding(crate::specs::CellActs::claim_task_in))]
pub(crate) fn claim_task_in(members: &Members<'_>) -> Result<CellAct, Flaw>
    ensures { result ≡ claim_task_in (object_of members.now.object.now) }
{
    claim_for(task_job_in(members)?, members)
}

#[tactic(auto, unfolding(crate::specs::CellActs::claim_for))]
fn claim_for(job: JobName, members: &Members<'_>) -> Result<CellAct, Flaw>
    ensures { result ≡ claim_for job (object_of members.now.object.now) }
{
    Ok(CellAct::Claim {
        job,
        memory: number_in(members, Member::Memory)?,
        disk: number_in(members, Member::Disk)?,
    })
}
