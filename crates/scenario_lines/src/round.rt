//! `round`: a round of convergence, and what is lost in it.
ghost use Rattle.scenario_lines.specs.Contents.{losses_in};
ghost use Rattle.scenario_lines.specs.Flaws.{GivesContent};
ghost use Rattle.scenario_lines.specs.Places.{object_of};

use crate::content::Losses;
use crate::flaw::LineError;
use crate::member::Member;
use crate::members::Members;
use crate::names::names_in;
use std::alloc::Global;

#[tactic(auto, unfolding(crate::specs::Contents::losses_in))]
pub(crate) fn losses_in(alloc: Global, members: &Members<'_>) -> Result<Losses, LineError>
    ensures { GivesContent (λ losses. losses) result
        (losses_in (object_of members.now.object.now)) }
{
    Ok(Losses {
        ask: names_in(alloc, members, Member::LoseAsk)?,
        stop: names_in(alloc, members, Member::LoseStop)?,
        start: names_in(alloc, members, Member::LoseStart)?,
        reply: names_in(alloc, members, Member::LoseReply)?,
    })
}
