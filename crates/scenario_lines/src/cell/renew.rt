//! `renew`: a cell renews its lease.
ghost use Rattle.std.specs.Prelude.{◌≡◌};
ghost use Rattle.scenario_lines.specs.CellActs.{renew_in};
ghost use Rattle.scenario_lines.specs.Places.{object_of};

use crate::flaw::Flaw;
use crate::member::Member;
use crate::members::Members;
use crate::values::number_in;
use cell_rep::CellAct;

#[tactic(auto, unfolding(crate::specs::CellActs::renew_in))]
pub(crate) fn renew_in(members: &Members<'_>) -> Result<CellAct, Flaw>
    ensures { result ≡ renew_in (object_of members.now.object.now) }
{
    Ok(CellAct::Renew {
        ttl: number_in(members, Member::Ttl)?,
    })
}
