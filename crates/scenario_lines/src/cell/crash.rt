//! `crash`: an instance on a cell ended by itself.
ghost use Rattle.std.specs.Prelude.{◌≡◌};
ghost use Rattle.scenario_lines.specs.CellActs.{crash_in};
ghost use Rattle.scenario_lines.specs.Places.{object_of};

use crate::flaw::Flaw;
use crate::members::Members;
use crate::values::key_in;
use cell_rep::CellAct;

#[tactic(auto, unfolding(crate::specs::CellActs::crash_in))]
pub(crate) fn crash_in(members: &Members<'_>) -> Result<CellAct, Flaw>
    ensures { result ≡ crash_in (object_of members.now.object.now) }
{
    Ok(CellAct::Crash {
        key: key_in(members)?,
    })
}
