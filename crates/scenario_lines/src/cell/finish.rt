//! `finish`: a task on a cell ended.
ghost use Rattle.std.specs.Prelude.{◌≡◌};
ghost use Rattle.scenario_lines.specs.CellActs.{finish_in};
ghost use Rattle.scenario_lines.specs.Places.{object_of};

use crate::flaw::Flaw;
use crate::member::Member;
use crate::members::Members;
use crate::names::name_in;
use crate::values::failed_in;
use cell_rep::CellAct;

#[tactic(auto, unfolding(crate::specs::CellActs::finish_in))]
pub(crate) fn finish_in(members: &Members<'_>) -> Result<CellAct, Flaw>
    ensures { result ≡ finish_in (object_of members.now.object.now) }
{
    Ok(CellAct::Finish {
        name: name_in(members, Member::Name)?,
        failed: failed_in(members)?,
    })
}
