//! What is noted under moments. The moments are in order.
ghost use Rattle.std.specs.Prelude.{◌≡◌, ℕ, ◌+◌, ◌<◌, ◌≤◌, ◌&&◌, ◌||◌, true, false, not, nat_eq, IsOk, OnOk};
ghost use Rattle.std.specs.List.{Contains};
ghost use Rattle.watch_lists.specs.Groups.{is_in, is_pair, item_at, len_of, IsListed};

use crate::groups::Groups;
use crate::tag::Tag;
use agendas::Agenda;
use std::alloc::{AllocError, Global};
use std::marker::Model;

/// Items under moments. Clauses see which item is noted under which moment, and for how many more there is room.
#[derive(Drop)]
pub struct Calendar<S: Tag> {
    moments: Agenda<u64>,
    items: Groups<u64, S>,
}

impl<S: Tag> Model for Calendar<S> {
    ghost use Rattle.std.specs.Prelude.{min};
    ghost use Rattle.watch_lists.specs.Groups.{Dated, IsDated};

    ghost Value = { Dated S };

    ghost view = { λ a. record {
      moments = a.moments.keys;
      items = a.items;
      spare = min a.moments.spare a.items.spare;
    } };

    ghost invariant = { λ a. IsDated S.eq a.moments.keys a.items };
}

impl<S: Tag> Calendar<S> {
    /// Nothing is noted. It takes no memory.
    pub fn new(alloc: Global) -> Self
        ensures { (m : ℕ) (s : S) → is_in nat_eq S.eq result.items m s ≡ false }
    {
        Calendar {
            moments: Agenda::new(alloc),
            items: Groups::new(alloc),
        }
    }

    /// Makes room for `n` items more. It fails only for want of memory.
    pub fn reserve(&mut self, n: usize) -> Result<(), AllocError>
        ensures items { (m : ℕ) (s : S) → is_in nat_eq S.eq self.new.items m s ≡ is_in nat_eq S.eq self.old.items m s }
        ensures room { OnOk result (n ≤ self.new.spare) }
        ensures kept { self.old.spare ≤ self.new.spare }
        ensures succeeds { n ≤ self.old.spare → IsOk result }
    {
        self.moments.reserve(n)?;
        self.items.reserve(n)?;
        Ok(())
    }

    /// Notes an item under a moment.
    pub fn note(&mut self, moment: u64, item: S)
        requires { 0 < self.old.spare }
        ensures items { (m : ℕ) (s : S) → is_in nat_eq S.eq self.new.items m s
            ≡ (is_pair nat_eq S.eq (moment, item) (m, s) || is_in nat_eq S.eq self.old.items m s) }
        ensures spare { self.old.spare ≤ self.new.spare + 1 }
    {
        self.moments.put(moment);
        self.items.enter(moment, item);
    }

    /// Takes an item from a moment, if it is noted there.
    pub fn forget(&mut self, moment: u64, item: S)
        ensures items { (m : ℕ) (s : S) → is_in nat_eq S.eq self.new.items m s
            ≡ (not (is_pair nat_eq S.eq (moment, item) (m, s)) && is_in nat_eq S.eq self.old.items m s) }
        ensures spare { self.old.spare ≤ self.new.spare }
    {
        self.items.leave(moment, item);
        if self.items.len(&moment) == 0 {
            self.moments.remove(&moment);
        }
    }

    /// The moments before this one under which something is noted, in order.
    pub fn before(&self, moment: u64) -> &[u64]
        ensures { (m : ℕ) (s : S) → is_in nat_eq S.eq self.now.items m s ≡ true → m < moment
            → Contains result.now m }
    {
        self.moments.before(&moment)
    }

    /// The moments from this one on under which something is noted, in order.
    pub fn since(&self, moment: u64) -> &[u64]
        ensures { (m : ℕ) (s : S) → is_in nat_eq S.eq self.now.items m s ≡ true → moment ≤ m
            → Contains result.now m }
    {
        self.moments.since(&moment)
    }

    /// How many items are noted under a moment.
    pub fn len(&self, moment: u64) -> usize
        ensures len { result ≡ len_of nat_eq self.now.items moment }
        ensures listed { IsListed nat_eq S.eq self.now.items moment }
    {
        self.items.len(&moment)
    }

    /// The item of a moment with this number.
    pub fn get(&self, moment: u64, number: usize) -> Option<S>
        ensures { result ≡ item_at nat_eq self.now.items moment number }
    {
        self.items.get(&moment, number)
    }
}
