//! The causes of a key, each watched under its times.
ghost use Rattle.std.specs.Prelude.{◌≡◌, ◌+◌, ◌<◌, ◌≤◌, true, Some};
ghost use Rattle.std.specs.List.{Contains};
ghost use Rattle.work_causes.specs.Causes.{listed, until_of};
ghost use Rattle.work_causes.specs.declared.cause.Cause.{Cause as ACause};
ghost use Rattle.watch_lists.specs.Groups.{is_in};
ghost use Rattle.watch_lists.specs.Watched.{ends_in, IsTimedBy, KeepsAll, KeepsOthers};

use crate::leases::Leases;
use crate::tag::Tag;
use crate::timed::Timed;
use crate::watch::Watch;
use work_causes::{Cause, Causes};

/// A key gets a cause, if there is one.
fn enter<K: Tag>(watch: &mut Watch<Cause, K>, leases: &Leases, key: K, cause: Option<Cause>)
    requires { 0 < watch.old.spare }
    ensures here { (c : ACause) → cause ≡ Some c
        → is_in ⟦<Cause as PartialEq>⟧.eq K.eq watch.new.keys c key ≡ true }
    ensures others { KeepsAll ⟦<Cause as PartialEq>⟧.eq K.eq watch.old watch.new }
    ensures timed { IsTimedBy ⟦<Cause as PartialEq>⟧.eq K.eq (until_of (ends_in leases.now)) watch.old
        → IsTimedBy ⟦<Cause as PartialEq>⟧.eq K.eq (until_of (ends_in leases.now)) watch.new }
    ensures spare { watch.old.spare ≤ watch.new.spare + 1 }
{
    if let Some(cause) = cause {
        let times = leases.times(&cause);
        watch.enter(cause, key, times);
    }
}

/// A key gets these causes.
fn enter_all<K: Tag>(watch: &mut Watch<Cause, K>, leases: &Leases, key: K, causes: &Causes)
    requires { 3 ≤ watch.old.spare }
    ensures here { (c : ACause) → Contains (listed causes.now) c
        → is_in ⟦<Cause as PartialEq>⟧.eq K.eq watch.new.keys c key ≡ true }
    ensures others { KeepsAll ⟦<Cause as PartialEq>⟧.eq K.eq watch.old watch.new }
    ensures timed { IsTimedBy ⟦<Cause as PartialEq>⟧.eq K.eq (until_of (ends_in leases.now)) watch.old
        → IsTimedBy ⟦<Cause as PartialEq>⟧.eq K.eq (until_of (ends_in leases.now)) watch.new }
    ensures spare { watch.old.spare ≤ watch.new.spare + 3 }
{
    enter(watch, leases, key, causes.first);
    enter(watch, leases, key, causes.second);
    enter(watch, leases, key, causes.third);
}

/// A key loses a cause, if there is one.
fn leave<K: Tag>(watch: &mut Watch<Cause, K>, leases: &Leases, key: K, cause: Option<Cause>)
    ensures others { KeepsOthers ⟦<Cause as PartialEq>⟧.eq K.eq key watch.old watch.new }
    ensures timed { IsTimedBy ⟦<Cause as PartialEq>⟧.eq K.eq (until_of (ends_in leases.now)) watch.old
        → IsTimedBy ⟦<Cause as PartialEq>⟧.eq K.eq (until_of (ends_in leases.now)) watch.new }
    ensures spare { watch.old.spare ≤ watch.new.spare }
{
    if let Some(cause) = cause {
        let times = leases.times(&cause);
        watch.leave(cause, key, times);
    }
}

/// A key loses these causes.
fn leave_all<K: Tag>(watch: &mut Watch<Cause, K>, leases: &Leases, key: K, causes: &Causes)
    ensures others { KeepsOthers ⟦<Cause as PartialEq>⟧.eq K.eq key watch.old watch.new }
    ensures timed { IsTimedBy ⟦<Cause as PartialEq>⟧.eq K.eq (until_of (ends_in leases.now)) watch.old
        → IsTimedBy ⟦<Cause as PartialEq>⟧.eq K.eq (until_of (ends_in leases.now)) watch.new }
    ensures spare { watch.old.spare ≤ watch.new.spare }
{
    leave(watch, leases, key, causes.first);
    leave(watch, leases, key, causes.second);
    leave(watch, leases, key, causes.third);
}

/// A key gets the causes of a value, if there is one.
pub(crate) fn enter_value<K: Tag, V: Timed>(
    watch: &mut Watch<Cause, K>,
    leases: &Leases,
    key: K,
    value: &Option<V>,
)
    requires { 3 ≤ watch.old.spare }
    ensures here { (v : V) → value.now ≡ Some v → (c : ACause) → Contains (V.causes v) c
        → is_in ⟦<Cause as PartialEq>⟧.eq K.eq watch.new.keys c key ≡ true }
    ensures others { KeepsAll ⟦<Cause as PartialEq>⟧.eq K.eq watch.old watch.new }
    ensures timed { IsTimedBy ⟦<Cause as PartialEq>⟧.eq K.eq (until_of (ends_in leases.now)) watch.old
        → IsTimedBy ⟦<Cause as PartialEq>⟧.eq K.eq (until_of (ends_in leases.now)) watch.new }
    ensures spare { watch.old.spare ≤ watch.new.spare + 3 }
{
    match value {
        None => {}
        Some(value) => enter_all(watch, leases, key, &value.causes()),
    }
}

/// A key loses the causes of a value, if there is one.
pub(crate) fn leave_value<K: Tag, V: Timed>(
    watch: &mut Watch<Cause, K>,
    leases: &Leases,
    key: K,
    value: &Option<V>,
)
    ensures others { KeepsOthers ⟦<Cause as PartialEq>⟧.eq K.eq key watch.old watch.new }
    ensures timed { IsTimedBy ⟦<Cause as PartialEq>⟧.eq K.eq (until_of (ends_in leases.now)) watch.old
        → IsTimedBy ⟦<Cause as PartialEq>⟧.eq K.eq (until_of (ends_in leases.now)) watch.new }
    ensures spare { watch.old.spare ≤ watch.new.spare }
{
    match value {
        None => {}
        Some(value) => leave_all(watch, leases, key, &value.causes()),
    }
}
