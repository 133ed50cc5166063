//! `task`: a client wants a task to run once.
ghost use Rattle.scenario_lines.specs.ClientActs.{as_ask, task_said};
ghost use Rattle.scenario_lines.specs.Flaws.{GivesInPlace};
ghost use Rattle.scenario_lines.specs.Places.{object_of};

use crate::act::Act;
use crate::flaw::Flaw;
use crate::member::Member;
use crate::members::Members;
use crate::names::{name_in, optional_name_in};
use crate::values::number_in;
use bbs_model::Op;

#[tactic(auto, unfolding(crate::specs::ClientActs::task_said))]
pub(crate) fn task_in(members: &Members<'_>, act: &mut Act) -> Result<(), Flaw>
    ensures { GivesInPlace result act.new (as_ask (task_said (object_of members.now.object.now))) }
{
    *act = Act::Client(Op::NewTask {
        name: name_in(members, Member::Name)?,
        memory: number_in(members, Member::Memory)?,
        disk: number_in(members, Member::Disk)?,
        tag: optional_name_in(members, Member::Tag)?,
    });
    Ok(())
}
