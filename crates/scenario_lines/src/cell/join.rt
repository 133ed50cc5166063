//! `join`: a cell joins.
ghost use Rattle.std.specs.Prelude.{◌≡◌};
ghost use Rattle.scenario_lines.specs.CellActs.{join_in};
ghost use Rattle.scenario_lines.specs.Places.{object_of};

use crate::flaw::Flaw;
use crate::member::Member;
use crate::members::Members;
use crate::names::{name_in, optional_name_in};
use crate::values::{number_in, totals_in};
use cell_rep::CellAct;

#[tactic(auto, unfolding(crate::specs::CellActs::join_in))]
pub(crate) fn join_in(members: &Members<'_>) -> Result<CellAct, Flaw>
    ensures { result ≡ join_in (object_of members.now.object.now) }
{
    Ok(CellAct::Join {
        zone: name_in(members, Member::Zone)?,
        tag: optional_name_in(members, Member::Tag)?,
        totals: totals_in(members)?,
        ttl: number_in(members, Member::Ttl)?,
    })
}
