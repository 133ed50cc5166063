//! What the members of a line say that are no names.
ghost use Rattle.std.specs.Prelude.{◌≡◌};
ghost use Rattle.scenario_lines.specs.Flaws.{or_shape};
ghost use Rattle.scenario_lines.specs.Places.{object_of};
ghost use Rattle.scenario_lines.specs.Values.{failed_in, key_said, lost_in, number_given, port_in, times_in, totals_in, ttl_in};

use crate::act::Loss;
use crate::flaw::Flaw;
use crate::kind::{loss_of, number_of, port_of, times_of};
use crate::member::Member;
use crate::members::Members;
use crate::names::name_in;
use cell_records::Amounts;
use diego_names::Key;

/// The port of a process that names none.
const PORT: u16 = 8080;

// What is there as it has to be.
fn or_shape<T: Drop>(found: Option<T>) -> Result<T, Flaw>
    ensures { result ≡ or_shape found }
{
    match found {
        Some(value) => Ok(value),
        None => Err(Flaw::BadShape),
    }
}

/// The number of a member.
#[tactic(auto, unfolding(crate::specs::Values::number_given))]
pub(crate) fn number_in(members: &Members<'_>, member: Member) -> Result<u32, Flaw>
    ensures { result ≡ number_given member (object_of members.now.object.now) }
{
    match members.said_for(member) {
        Some(said) => or_shape(number_of(said)),
        None => Err(Flaw::BadShape),
    }
}

/// The port, which is 8080 where none is named.
#[tactic(auto, unfolding(crate::specs::Values::port_in))]
pub(crate) fn port_in(members: &Members<'_>) -> Result<u16, Flaw>
    ensures { result ≡ port_in (object_of members.now.object.now) }
{
    match members.said_for(Member::Port) {
        Some(said) => or_shape(port_of(said)),
        None => Ok(PORT),
    }
}

/// For how many seconds a domain is fresh: 0, which is for ever, where the line doesn't say.
#[tactic(auto, unfolding(crate::specs::Values::ttl_in))]
pub(crate) fn ttl_in(members: &Members<'_>) -> Result<u32, Flaw>
    ensures { result ≡ ttl_in (object_of members.now.object.now) }
{
    if members.has(Member::Ttl) {
        number_in(members, Member::Ttl)
    } else {
        Ok(0)
    }
}

/// How often the line is run: once where it doesn't say.
#[tactic(auto, unfolding(crate::specs::Values::times_in))]
pub(crate) fn times_in(members: &Members<'_>) -> Result<u32, Flaw>
    ensures { result ≡ times_in (object_of members.now.object.now) }
{
    match members.said_for(Member::Times) {
        Some(said) => or_shape(times_of(said)),
        None => Ok(1),
    }
}

/// What is lost of the first call of the line, if anything.
#[tactic(auto, unfolding(crate::specs::Values::lost_in))]
pub(crate) fn lost_in(members: &Members<'_>) -> Result<Option<Loss>, Flaw>
    ensures { result ≡ lost_in (object_of members.now.object.now) }
{
    match members.said_for(Member::Lost) {
        Some(said) => Ok(Some(or_shape(loss_of(said))?)),
        None => Ok(None),
    }
}

/// Whether a task failed: it didn't where the line doesn't say.
#[tactic(auto, unfolding(crate::specs::Values::failed_in))]
pub(crate) fn failed_in(members: &Members<'_>) -> Result<bool, Flaw>
    ensures { result ≡ failed_in (object_of members.now.object.now) }
{
    match members.said_for(Member::Failed) {
        Some(said) => or_shape(said.as_bool()),
        None => Ok(false),
    }
}

/// An instance of a process.
#[tactic(auto, unfolding(crate::specs::Values::key_said))]
pub(crate) fn key_in(members: &Members<'_>) -> Result<Key, Flaw>
    ensures { result ≡ key_said (object_of members.now.object.now) }
{
    Ok(Key {
        process: name_in(members, Member::Process)?,
        index: number_in(members, Member::Index)?,
    })
}

/// All that a cell has.
#[tactic(auto, unfolding(crate::specs::Values::totals_in))]
pub(crate) fn totals_in(members: &Members<'_>) -> Result<Amounts, Flaw>
    ensures { result ≡ totals_in (object_of members.now.object.now) }
{
    Ok(Amounts {
        memory: number_in(members, Member::Memory)?,
        disk: number_in(members, Member::Disk)?,
        containers: number_in(members, Member::Containers)?,
    })
}
