//! `update`: a client wants a process in so many instances, with this route and port.
ghost use Rattle.scenario_lines.specs.ClientActs.{as_ask, update_in};
ghost use Rattle.scenario_lines.specs.Flaws.{GivesInPlace};
ghost use Rattle.scenario_lines.specs.Places.{object_of};

use crate::act::Act;
use crate::flaw::Flaw;
use crate::member::Member;
use crate::members::Members;
use crate::names::{name_in, optional_name_in};
use crate::values::{number_in, port_in};
use bbs_model::Op;

#[tactic(auto, unfolding(crate::specs::ClientActs::update_in))]
pub(crate) fn update_in(members: &Members<'_>, act: &mut Act) -> Result<(), Flaw>
    ensures { GivesInPlace result act.new (as_ask (update_in (object_of members.now.object.now))) }
{
    *act = Act::Client(Op::Update {
        process: name_in(members, Member::Process)?,
        instances: number_in(members, Member::Instances)?,
        route: optional_name_in(members, Member::Route)?,
        port: port_in(members)?,
    });
    Ok(())
}
