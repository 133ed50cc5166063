//! `fresh`: a client vouches for its list of processes in a domain.
ghost use Rattle.scenario_lines.specs.ClientActs.{as_ask, fresh_in};
ghost use Rattle.scenario_lines.specs.Flaws.{GivesInPlace};
ghost use Rattle.scenario_lines.specs.Places.{object_of};

use crate::act::Act;
use crate::flaw::Flaw;
use crate::member::Member;
use crate::members::Members;
use crate::names::name_in;
use crate::values::ttl_in;
use bbs_model::Op;

#[tactic(auto, unfolding(crate::specs::ClientActs::fresh_in))]
pub(crate) fn fresh_in(members: &Members<'_>, act: &mut Act) -> Result<(), Flaw>
    ensures { GivesInPlace result act.new (as_ask (fresh_in (object_of members.now.object.now))) }
{
    *act = Act::Client(Op::Fresh {
        domain: name_in(members, Member::Domain)?,
        ttl: ttl_in(members)?,
    });
    Ok(())
}
