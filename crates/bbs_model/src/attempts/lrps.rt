//! What is asked of the instances of processes.
ghost use Rattle.std.specs.Prelude.{◌≡◌, ◌++◌};
ghost use Rattle.bbs_model.specs.Attempts.{unless_refused};
ghost use Rattle.bbs_model.specs.Lrps as told;

use super::{drop_row, if_joined, put, too_many};
use crate::{Attempt, BoardRefusal, Edit, Found, MOST_ACTUAL, Row};
use crash_backoff::Moment;
use diego_names::{Instance, Key, Name};
use lrp_records::{Actual, Desired, LrpMove, LrpRefusal, LrpState, MoveEnd, Presence, move_of};

/// A wanted instance gets its ORDINARY row, in the domain of its process.
pub fn make(found: &Found, key: Key, now: Moment) -> Attempt
    ensures { result ≡ told.make found.now key now }
{
    if !is_wanted(&found.desired, key.index) {
        return Attempt::Refuse(BoardRefusal::NotWanted);
    }
    if found.ordinary.is_some() {
        return Attempt::Refuse(BoardRefusal::Exists);
    }
    if found.counts.actual >= MOST_ACTUAL {
        return too_many(MOST_ACTUAL);
    }
    let domain = domain_of(&found.desired);
    put(Row::Actual(new_row(key, domain, now)))
}

fn is_wanted(desired: &Option<Desired>, index: u32) -> bool
    ensures { result ≡ told.is_wanted desired.now index }
{
    match desired {
        None => false,
        Some(desired) => index < desired.instances,
    }
}

fn domain_of(desired: &Option<Desired>) -> Option<Name>
    ensures { result ≡ told.domain_of desired.now }
{
    match desired {
        None => None,
        Some(desired) => Some(desired.domain),
    }
}

fn new_row(key: Key, domain: Option<Name>, now: Moment) -> Actual
    ensures { result ≡ told.new_row key domain now }
{
    Actual {
        key,
        presence: Presence::Ordinary,
        state: LrpState::Unclaimed,
        count: 0,
        since: now,
        error: false,
        domain,
    }
}

/// A move on the ORDINARY row.
pub fn move_lrp(found: &Found, mv: &LrpMove, now: Moment) -> Attempt
    ensures { result ≡ told.move_lrp found.now mv.now now }
{
    match found.ordinary {
        None => Attempt::Refuse(BoardRefusal::Unknown),
        Some(old) => moved_to(&old, &move_of(&old, mv, now)),
    }
}

/// A move that a cell makes for its container of this epoch.
pub fn move_lrp_by_cell(found: &Found, epoch: u64, mv: &LrpMove, now: Moment) -> Attempt
    ensures { result ≡ told.move_lrp_by_cell found.now epoch mv.now now }
{
    match found.ordinary {
        None => Attempt::Refuse(BoardRefusal::Unknown),
        Some(old) => if_joined(&found.cell, epoch, moved_to(&old, &move_of(&old, mv, now))),
    }
}

fn moved_to(old: &Actual, end: &MoveEnd) -> Attempt
    ensures { result ≡ told.moved_to old.now end.now }
{
    match *end {
        MoveEnd::Changed(new) => put(Row::Actual(new)),
        MoveEnd::Gone => drop_row(Row::Actual(*old)),
        MoveEnd::Same => Attempt::Keep,
        MoveEnd::Refused(why) => Attempt::Refuse(BoardRefusal::Lrp(why)),
    }
}

/// A cell that is being emptied keeps its instance in an EVACUATING row.
pub fn evacuate(found: &Found, instance: Instance, now: Moment) -> Attempt
    ensures { result ≡ told.evacuate found.now instance now }
{
    if runs_as(&found.evacuating, instance) && !runs_as(&found.ordinary, instance) {
        return Attempt::Keep;
    }
    match found.ordinary {
        None => Attempt::Refuse(BoardRefusal::Unknown),
        Some(old) if is_running_as(&old.state, instance) => {
            set_aside(Presence::Evacuating, &found.evacuating, found, &old, now)
        }
        Some(old) => Attempt::Refuse(stays_because(&old.state, instance)),
    }
}

/// The EVACUATING row of this container is dropped.
pub fn drop_evacuating(found: &Found, instance: Instance) -> Attempt
    ensures { result ≡ told.drop_evacuating found.now instance }
{
    drop_aside(&found.evacuating, instance)
}

/// An instance whose cell has gone silent is kept in a SUSPECT row.
pub fn suspect(found: &Found, instance: Instance, now: Moment) -> Attempt
    ensures { result ≡ told.suspect found.now instance now }
{
    if runs_as(&found.suspect, instance) && !runs_as(&found.ordinary, instance) {
        return Attempt::Keep;
    }
    match found.ordinary {
        None => Attempt::Refuse(BoardRefusal::Unknown),
        Some(old) if is_running_as(&old.state, instance) => {
            suspect_row(found, instance.epoch, &old, now)
        }
        Some(old) => Attempt::Refuse(stays_because(&old.state, instance)),
    }
}

/// The SUSPECT row of this container is dropped.
pub fn drop_suspect(found: &Found, instance: Instance) -> Attempt
    ensures { result ≡ told.drop_suspect found.now instance }
{
    drop_aside(&found.suspect, instance)
}

fn drop_aside(kept: &Option<Actual>, instance: Instance) -> Attempt
    ensures { result ≡ told.drop_aside kept.now instance }
{
    match *kept {
        None => Attempt::Refuse(BoardRefusal::Unknown),
        Some(old) if is_running_as(&old.state, instance) => drop_row(Row::Actual(old)),
        Some(old) => Attempt::Refuse(stays_because(&old.state, instance)),
    }
}

/// The row is kept in a SUSPECT one, but where the cell that joined with its epoch holds its lease.
fn suspect_row(found: &Found, epoch: u64, old: &Actual, now: Moment) -> Attempt
    ensures { result ≡ unless_refused
        (told.lease_refusals found.now.cell epoch now ++ told.aside_refusals found.now.suspect found.now)
        (told.set_aside Presence.Suspect old.now now) }
{
    match found.cell {
        Some(cell) if cell.epoch == epoch && cell.is_present(now) => {
            Attempt::Refuse(BoardRefusal::LeaseHolds { until: cell.until })
        }
        Some(_) | None => set_aside(Presence::Suspect, &found.suspect, found, old, now),
    }
}

fn is_running_as(state: &LrpState, instance: Instance) -> bool
    ensures { result ≡ told.is_running_as state.now instance }
{
    match *state {
        LrpState::Running { instance: held, .. } => instance == held,
        LrpState::Unclaimed | LrpState::Claimed { .. } | LrpState::Crashed => false,
    }
}

fn runs_as(row: &Option<Actual>, instance: Instance) -> bool
    ensures { result ≡ told.runs_as row.now instance }
{
    match row {
        None => false,
        Some(row) => is_running_as(&row.state, instance),
    }
}

/// The row is kept with this presence, where `kept` is the one that stands there, and the ORDINARY row
/// is placed anew.
fn set_aside(
    presence: Presence,
    kept: &Option<Actual>,
    found: &Found,
    old: &Actual,
    now: Moment,
) -> Attempt
    ensures { result ≡ unless_refused (told.aside_refusals kept.now found.now)
        (told.set_aside presence old.now now) }
{
    if kept.is_none() && found.counts.actual >= MOST_ACTUAL {
        return too_many(MOST_ACTUAL);
    }
    let aside = Actual {
        presence,
        error: false,
        ..*old
    };
    let left = Actual {
        state: LrpState::Unclaimed,
        since: now,
        error: false,
        ..*old
    };
    Attempt::Change {
        first: Edit::Put(Row::Actual(aside)),
        second: Some(Edit::Put(Row::Actual(left))),
    }
}

fn stays_because(state: &LrpState, instance: Instance) -> BoardRefusal
    ensures { result ≡ told.stays_because state.now instance }
{
    match *state {
        LrpState::Unclaimed | LrpState::Crashed => BoardRefusal::Lrp(LrpRefusal::NotRunning),
        LrpState::Claimed { instance: held, .. } | LrpState::Running { instance: held, .. } => {
            wrong_state_or_instance(instance, held, state)
        }
    }
}

fn wrong_state_or_instance(instance: Instance, held: Instance, state: &LrpState) -> BoardRefusal
    ensures { result ≡ told.wrong_state_or_instance instance held state.now }
{
    let why = if instance == held {
        LrpRefusal::WrongState {
            state: state.name(),
        }
    } else {
        LrpRefusal::WrongInstance { have: held }
    };
    BoardRefusal::Lrp(why)
}
