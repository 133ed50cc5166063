//! The job that a line names.
ghost use Rattle.std.specs.Prelude.{◌≡◌};
ghost use Rattle.scenario_lines.specs.CellActs.{instance_in, task_job_in};
ghost use Rattle.scenario_lines.specs.Places.{object_of};

use crate::flaw::Flaw;
use crate::member::Member;
use crate::members::Members;
use crate::names::name_in;
use crate::values::key_in;
use cell_records::JobName;

#[tactic(auto, unfolding(crate::specs::CellActs::instance_in))]
pub(crate) fn instance_in(members: &Members<'_>) -> Result<JobName, Flaw>
    ensures { result ≡ instance_in (object_of members.now.object.now) }
{
    Ok(JobName::Lrp(key_in(members)?))
}

#[tactic(auto, unfolding(crate::specs::CellActs::task_job_in))]
pub(crate) fn task_job_in(members: &Members<'_>) -> Result<JobName, Flaw>
    ensures { result ≡ task_job_in (object_of members.now.object.now) }
{
    Ok(JobName::Task(name_in(members, Member::Name)?))
}
