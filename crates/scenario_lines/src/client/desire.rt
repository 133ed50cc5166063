//! `desire`: a client wants a process to run.
ghost use Rattle.scenario_lines.specs.ClientActs.{as_ask, desire_said};
ghost use Rattle.scenario_lines.specs.Flaws.{GivesInPlace};
ghost use Rattle.scenario_lines.specs.Places.{object_of};

use crate::act::Act;
use crate::flaw::Flaw;
use crate::member::Member;
use crate::members::Members;
use crate::names::{name_in, optional_name_in};
use crate::values::{number_in, port_in};
use bbs_model::Op;
use lrp_records::Desired;

#[tactic(auto, unfolding(crate::specs::ClientActs::desire_said))]
pub(crate) fn desire_in(members: &Members<'_>, act: &mut Act) -> Result<(), Flaw>
    ensures { GivesInPlace result act.new (as_ask (desire_said (object_of members.now.object.now))) }
{
    *act = Act::Client(Op::Desire {
        desired: Desired {
            process: name_in(members, Member::Process)?,
            domain: name_in(members, Member::Domain)?,
            instances: number_in(members, Member::Instances)?,
            memory: number_in(members, Member::Memory)?,
            disk: number_in(members, Member::Disk)?,
            tag: optional_name_in(members, Member::Tag)?,
            route: optional_name_in(members, Member::Route)?,
            port: port_in(members)?,
        },
    });
    Ok(())
}
