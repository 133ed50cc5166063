//! `run`: a cell makes room for an instance and runs it.
ghost use Rattle.std.specs.Prelude.{◌≡◌};
ghost use Rattle.scenario_lines.specs.CellActs.{run_in};
ghost use Rattle.scenario_lines.specs.Places.{object_of};

use crate::flaw::Flaw;
use crate::member::Member;
use crate::members::Members;
use crate::values::{key_in, number_in};
use cell_rep::CellAct;

#[tactic(auto, unfolding(crate::specs::CellActs::run_in))]
pub(crate) fn run_in(members: &Members<'_>) -> Result<CellAct, Flaw>
    ensures { result ≡ run_in (object_of members.now.object.now) }
{
    Ok(CellAct::Run {
        key: key_in(members)?,
        memory: number_in(members, Member::Memory)?,
        disk: number_in(members, Member::Disk)?,
    })
}
