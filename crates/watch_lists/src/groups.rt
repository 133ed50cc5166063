//! Items in groups. Each group numbers its items from 0 on, and a removal gives the number to the last.
ghost use Rattle.std.specs.Prelude.{◌≡◌, ℕ, ◌+◌, ◌*◌, ◌<◌, ◌≤◌, ◌^◌, ◌&&◌, ◌||◌, true, false, not, cond, None, Some, IsSome, IsOk, OnOk};
ghost use Rattle.std.specs.Option.{unwrap_or};
ghost use Rattle.indexmap.specs.IndexMap.{get, spare};
ghost use Rattle.watch_lists.specs.Groups.{is_in, is_pair, item_at, len_of, IsListed};

use crate::entries::{put, take, write};
use crate::tag::Tag;
use indexmap::IndexMap;
use std::alloc::{AllocError, Global};
use std::marker::Model;

/// Items in groups, each once in a group. Clauses see which item is in which group, and for how many more there
/// is room.
#[derive(Drop)]
pub struct Groups<C: Tag, S: Tag> {
    counts: IndexMap<C, usize>,
    items: IndexMap<(C, usize), S>,
    numbers: IndexMap<(C, S), usize>,
}

impl<C: Tag, S: Tag> Model for Groups<C, S> {
    ghost use Rattle.std.specs.Prelude.{min};
    ghost use Rattle.indexmap.specs.IndexMap.{IsUnique, spare};
    ghost use Rattle.watch_lists.specs.Groups.{Grouped, IsNumbered};

    ghost Value = { Grouped C S };

    ghost view = { λ a. record {
      counts = a.counts.entries;
      items = a.items.entries;
      numbers = a.numbers.entries;
      spare = min (spare a.items) (min (spare a.numbers) (spare a.counts));
    } };

    ghost invariant = { λ a. IsNumbered C.eq S.eq a.counts.entries a.items.entries a.numbers.entries };
}

/// Makes this the count of a group that has one. A group without items has no count.
fn lower<C: Tag>(counts: &mut IndexMap<C, usize>, group: C, count: usize)
    requires { IsSome (get C.eq counts.old group) }
    ensures counts { (c : C) → unwrap_or (get C.eq counts.new c) 0
        ≡ cond (C.eq group c) count (unwrap_or (get C.eq counts.old c) 0) }
    ensures spare { spare counts.old ≤ spare counts.new }
{
    if count == 0 {
        take(counts, group);
    } else {
        write(counts, group, count);
    }
}

impl<C: Tag, S: Tag> Groups<C, S> {
    /// No groups. It takes no memory.
    pub fn new(alloc: Global) -> Self
        ensures { (c : C) (s : S) → is_in C.eq S.eq result c s ≡ false }
    {
        Groups {
            counts: IndexMap::new(alloc),
            items: IndexMap::new(alloc),
            numbers: IndexMap::new(alloc),
        }
    }

    /// Makes room for `n` items more. It fails only for want of memory.
    pub fn reserve(&mut self, n: usize) -> Result<(), AllocError>
        ensures items { (c : C) (s : S) → is_in C.eq S.eq self.new c s ≡ is_in C.eq S.eq self.old c s }
        ensures room { OnOk result (n ≤ self.new.spare) }
        ensures kept { self.old.spare ≤ self.new.spare }
        ensures succeeds { n ≤ self.old.spare → IsOk result }
    {
        self.items.reserve(n)?;
        self.numbers.reserve(n)?;
        self.counts.reserve(n)?;
        Ok(())
    }

    /// How many items a group has. They have the numbers below it.
    pub fn len(&self, group: &C) -> usize
        ensures len { result ≡ len_of C.eq self.now group.now }
        ensures listed { IsListed C.eq S.eq self.now group.now }
        ensures small { result < 2 ^ 63 }
    {
        // No group has more items than there are.
        let _all = self.items.len();
        self.counts.get(group).copied().unwrap_or(0)
    }

    /// The item of a group with this number.
    pub fn get(&self, group: &C, number: usize) -> Option<S>
        ensures { result ≡ item_at C.eq self.now group.now number }
    {
        self.items.get(&(*group, number)).copied()
    }

    /// Puts an item into a group. If it is in it already, nothing changes.
    pub fn enter(&mut self, group: C, item: S)
        requires { 0 < self.old.spare }
        ensures items { (c : C) (s : S) → is_in C.eq S.eq self.new c s
            ≡ (is_pair C.eq S.eq (group, item) (c, s) || is_in C.eq S.eq self.old c s) }
        ensures spare { self.old.spare ≤ self.new.spare + 1 }
    {
        let number = self.len(&group);
        if self.numbers.contains_key(&(group, item)) {
            return;
        }
        put(&mut self.items, (group, number), item);
        put(&mut self.numbers, (group, item), number);
        put(&mut self.counts, group, number + 1);
    }

    /// Takes an item from a group, if it is in it. The last of the group gets its number.
    pub fn leave(&mut self, group: C, item: S)
        ensures items { (c : C) (s : S) → is_in C.eq S.eq self.new c s
            ≡ (not (is_pair C.eq S.eq (group, item) (c, s)) && is_in C.eq S.eq self.old c s) }
        ensures spare { self.old.spare ≤ self.new.spare }
    {
        let count = self.len(&group);
        let number = match self.numbers.get(&(group, item)).copied() {
            None => return,
            Some(number) => number,
        };
        let last = count - 1;
        match self.items.get(&(group, last)).copied() {
            None => unreachable!(),
            Some(moved) => {
                write(&mut self.items, (group, number), moved);
                write(&mut self.numbers, (group, moved), number);
                take(&mut self.items, (group, last));
                take(&mut self.numbers, (group, item));
                lower(&mut self.counts, group, last);
            }
        }
    }
}
