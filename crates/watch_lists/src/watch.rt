//! Keys by causes, and causes by the moments from which or up to which they hold.
ghost use Rattle.std.specs.Prelude.{◌≡◌, ℕ, ◌+◌, ◌<◌, ◌≤◌, ◌&&◌, ◌||◌, false, not, Option, IsOk, OnOk};
ghost use Rattle.watch_lists.specs.Groups.{is_in, is_pair};
ghost use Rattle.watch_lists.specs.Watching.{IsNotedAt, IsSame, KeepsTimes, LosesOnly, Retimes};

use crate::calendar::Calendar;
use crate::groups::Groups;
use crate::tag::Tag;
use std::alloc::{AllocError, Global};
use std::marker::Model;

/// Keys by causes. Each cause that a key has is noted under the moment from which it holds, and under the moment
/// up to which it does. Clauses see which key has which cause, and which cause is noted where.
#[derive(Drop)]
pub struct Watch<C: Tag, K: Tag> {
    pub(crate) keys: Groups<C, K>,
    pub(crate) starts: Calendar<C>,
    pub(crate) stops: Calendar<C>,
}

impl<C: Tag, K: Tag> Model for Watch<C, K> {
    ghost use Rattle.std.specs.Prelude.{min};
    ghost use Rattle.watch_lists.specs.Watching.{Watching};

    ghost Value = { Watching C K };

    ghost view = { λ a. record {
      keys = a.keys;
      starts = a.starts.items;
      stops = a.stops.items;
      spare = min a.keys.spare (min a.starts.spare a.stops.spare);
    } };
}

/// Notes an item, if there is a moment.
pub(crate) fn note<C: Tag>(calendar: &mut Calendar<C>, moment: Option<u64>, item: C)
    requires { 0 < calendar.old.spare }
    ensures items { IsNotedAt C.eq moment item calendar.old.items calendar.new.items }
    ensures spare { calendar.old.spare ≤ calendar.new.spare + 1 }
{
    if let Some(moment) = moment {
        calendar.note(moment, item);
    }
}

/// Takes an item away, if there is a moment.
pub(crate) fn forget<C: Tag>(calendar: &mut Calendar<C>, moment: Option<u64>, item: C)
    ensures items { LosesOnly C.eq item calendar.old.items calendar.new.items }
    ensures spare { calendar.old.spare ≤ calendar.new.spare }
{
    if let Some(moment) = moment {
        calendar.forget(moment, item);
    }
}

/// When a cause holds: from a moment on, or up to one.
#[derive(Clone, Copy)]
pub struct Times {
    pub start: Option<u64>,
    pub stop: Option<u64>,
}

impl<C: Tag, K: Tag> Watch<C, K> {
    /// Nothing is watched. It takes no memory.
    pub fn new(alloc: Global) -> Self
        ensures { (c : C) (k : K) → is_in C.eq K.eq result.keys c k ≡ false }
    {
        Watch {
            keys: Groups::new(alloc),
            starts: Calendar::new(alloc),
            stops: Calendar::new(alloc),
        }
    }

    /// Makes room for `n` causes of keys more. It fails only for want of memory.
    pub fn reserve(&mut self, n: usize) -> Result<(), AllocError>
        ensures same { IsSame C.eq K.eq self.old self.new }
        ensures room { OnOk result (n ≤ self.new.spare) }
        ensures kept { self.old.spare ≤ self.new.spare }
        ensures succeeds { n ≤ self.old.spare → IsOk result }
    {
        self.keys.reserve(n)?;
        self.starts.reserve(n)?;
        self.stops.reserve(n)?;
        Ok(())
    }

    /// A key gets a cause, which holds at these times.
    pub fn enter(&mut self, cause: C, key: K, times: Times)
        requires { 0 < self.old.spare }
        ensures keys { (c : C) (k : K) → is_in C.eq K.eq self.new.keys c k
            ≡ (is_pair C.eq K.eq (cause, key) (c, k) || is_in C.eq K.eq self.old.keys c k) }
        ensures timed { KeepsTimes C.eq K.eq cause times.start times.stop self.old self.new }
        ensures spare { self.old.spare ≤ self.new.spare + 1 }
    {
        self.keys.enter(cause, key);
        note(&mut self.starts, times.start, cause);
        note(&mut self.stops, times.stop, cause);
    }

    /// A key loses a cause, which holds at these times.
    pub fn leave(&mut self, cause: C, key: K, times: Times)
        ensures keys { (c : C) (k : K) → is_in C.eq K.eq self.new.keys c k
            ≡ (not (is_pair C.eq K.eq (cause, key) (c, k)) && is_in C.eq K.eq self.old.keys c k) }
        ensures timed { KeepsTimes C.eq K.eq cause times.start times.stop self.old self.new }
        ensures spare { self.old.spare ≤ self.new.spare }
    {
        self.keys.leave(cause, key);
        if self.keys.len(&cause) == 0 {
            forget(&mut self.starts, times.start, cause);
            forget(&mut self.stops, times.stop, cause);
        }
    }

    /// A cause holds at other times from now on. If no key has it, nothing is done.
    pub fn retime(&mut self, cause: C, old: Times, new: Times)
        requires { 0 < self.old.spare }
        ensures keys { (c : C) (k : K) → is_in C.eq K.eq self.new.keys c k ≡ is_in C.eq K.eq self.old.keys c k }
        ensures timed { Retimes C.eq K.eq cause new.start new.stop self.old self.new }
        ensures spare { self.old.spare ≤ self.new.spare + 1 }
    {
        if self.keys.len(&cause) == 0 {
            return;
        }
        forget(&mut self.starts, old.start, cause);
        forget(&mut self.stops, old.stop, cause);
        note(&mut self.starts, new.start, cause);
        note(&mut self.stops, new.stop, cause);
    }
}
