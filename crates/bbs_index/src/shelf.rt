//! A shelf is a map from each row's key to the row, and contracts see it as the table of its rows.

ghost use Rattle.std.specs.Prelude.{◌≡◌, ℕ, ◌<◌, ◌≤◌, ◌^◌, [], length, slice_get, slice_index_or, vec_capacity, Some, IfSome, IsOk, IfOk, OnOk};
ghost use Rattle.std.specs.List.Sorted.{IsSortedByKey};
ghost use Rattle.std.specs.Option.{option_map, option_copied, option_and_then};
ghost use Rattle.row_tables.specs.Table.{find_row, put_row, without_row, IsRising};
ghost use Rattle.bbs_model.specs.Store.{HasRoom, TakesRoom};
ghost use Rattle.bbs_index.specs.Shelf.{AreNumbered};

use crate::Order;
use crate::entries::{put_entry, put_entry_at, remove_entry};
use crate::sorted::{compare_at, fill_rows, order_entries, sorted_rows};
use bbs_model::Rowed;
use indexmap::IndexMap;
use std::alloc::{AllocError, Global};
use std::cmp::Ordering;
use std::marker::Model;

/// Rows of one kind, each under its own key. Every look-up, put and removal is a constant number
/// of map operations. A clause sees the table of the rows, in the order of their keys, the rows in
/// the order of their numbers, and the spare room: how many rows with new keys fit without memory.
#[derive(Drop)]
pub struct Shelf<X: Rowed> {
    map: IndexMap<X::Key, X>,
}

impl<X: Rowed> Model for Shelf<X> {
    ghost use Rattle.indexmap.specs.IndexMap.{spare, values};
    ghost use Rattle.bbs_index.specs.Shelf.{Stock, table_of, IsShelf};

    ghost Value = { Stock X };

    ghost view = { λ a. record {
      rows = table_of X.Key.cmp a.map.entries;
      numbered = values a.map;
      spare = spare a.map;
    } };

    ghost invariant = { λ a. IsShelf X.Key.cmp X.Key.eq X.key a.map.entries };
}

impl<X: Rowed> Shelf<X> {
    /// A shelf without rows. It takes no memory.
    pub fn new(alloc: Global) -> Self
        ensures empty { result.rows ≡ [] }
    {
        Shelf {
            map: IndexMap::new(alloc),
        }
    }

    /// A shelf of these rows, whose keys rise. It fails only for want of memory.
    pub fn of(alloc: Global, rows: &[X]) -> Result<Self, AllocError>
        requires { IsRising X.Key.cmp X.key rows.now }
        ensures { IfOk result (λ shelf. shelf.rows ≡ rows.now) }
    {
        let mut shelf = Shelf::new(alloc);
        shelf.reserve(rows.len())?;
        for row in rows {
            shelf.put(*row);
        }
        Ok(shelf)
    }

    /// How many rows there are.
    pub fn len(&self) -> usize
        ensures len { result ≡ length self.now.rows }
        ensures rising { IsRising X.Key.cmp X.key self.now.rows }
    {
        self.map.len()
    }

    /// How many rows with new keys can be put before the next reserve.
    pub fn spare(&self) -> usize
        ensures { result ≡ self.now.spare }
    {
        self.map.capacity() - self.map.len()
    }

    /// The row at the key.
    pub fn get(&self, key: &X::Key) -> Option<X>
        ensures row { result ≡ find_row X.Key.cmp X.key key.now self.now.rows }
        ensures rising { IsRising X.Key.cmp X.key self.now.rows }
    {
        self.map.get(key).copied()
    }

    /// The row at the key where it stands, without a copy.
    pub fn look(&self, key: &X::Key) -> Option<&X>
        ensures { option_copied result ≡ find_row X.Key.cmp X.key key.now self.now.rows }
    {
        self.map.get(key)
    }

    /// The number of the row at the key. It is the row's until a row is removed.
    pub fn find(&self, key: &X::Key) -> Option<usize>
        ensures row { option_and_then (slice_get self.now.numbered) result
            ≡ find_row X.Key.cmp X.key key.now self.now.rows }
        ensures within { IfSome result (λ number. number < length self.now.numbered) }
    {
        self.map.get_index_of(key)
    }

    /// The row of this number, where it stands. No key is looked up.
    pub fn at(&self, number: usize) -> &X
        requires { number < length self.now.numbered }
        ensures { slice_get self.now.numbered number ≡ Some result.now }
    {
        &self.map[number]
    }

    /// How the keys of the rows of two numbers compare. They are compared where they lie.
    pub fn compare(&self, first: usize, second: usize) -> Ordering
        requires first { first < length self.now.numbered }
        requires second { second < length self.now.numbered }
        ensures { (x : X) → result ≡ X.Key.cmp
            (X.key (slice_index_or self.now.numbered first x))
            (X.key (slice_index_or self.now.numbered second x)) }
    {
        let keys = self.map.keys().as_slice();
        compare_at(keys, first, second)
    }

    /// Where no row stands before one with a lower key by their numbers, that is the order of their
    /// keys. It does nothing.
    pub fn may_be_in_order(&self)
        ensures count { length self.now.numbered ≡ length self.now.rows }
        ensures order { IsSortedByKey X.key X.Key.cmp self.now.numbered → self.now.numbered ≡ self.now.rows }
    {
        let _len = self.map.len();
    }

    /// Makes room for `n` more rows with new keys. It fails only for want of memory.
    pub fn reserve(&mut self, n: usize) -> Result<(), AllocError>
        ensures rows { self.new.rows ≡ self.old.rows }
        ensures room { OnOk result (n ≤ self.new.spare) }
        ensures succeeds { n ≤ self.old.spare → IsOk result }
        ensures kept { self.old.spare ≤ self.new.spare }
    {
        self.map.reserve(n)
    }

    /// Puts the row in the place of the one at its key, if there is one. It takes no memory.
    pub fn put(&mut self, row: X)
        requires { HasRoom (find_row X.Key.cmp X.key (X.key row) self.old.rows) self.old.spare }
        ensures rows { self.new.rows ≡ put_row X.Key.cmp X.key row self.old.rows }
        ensures spare { TakesRoom (find_row X.Key.cmp X.key (X.key row) self.old.rows)
            self.old.spare self.new.spare }
    {
        put_entry(&mut self.map, row);
    }

    /// Puts the row in the place of the one of this number, which has its key. No key is looked up.
    pub fn put_at(&mut self, number: usize, row: X)
        requires { option_map X.key (slice_get self.old.numbered number) ≡ Some (X.key row) }
        ensures rows { self.new.rows ≡ put_row X.Key.cmp X.key row self.old.rows }
        ensures spare { self.old.spare ≤ self.new.spare }
    {
        put_entry_at(&mut self.map, number, row);
    }

    /// Takes the row at the key away, if there is one.
    pub fn remove(&mut self, key: &X::Key)
        ensures rows { self.new.rows ≡ without_row X.Key.cmp X.key key.now self.old.rows }
        ensures spare { self.old.spare ≤ self.new.spare }
    {
        remove_entry(&mut self.map, key);
    }

    /// Makes the order that of the rows by their keys. It has room for them, so that this never fails. It is
    /// begun with as it stands where it has no more numbers than there are rows, and with none where it has
    /// more. It takes memory for the time of the call where there is some, and works without.
    pub fn order_into(&self, order: &mut Order)
        requires few { length self.now.rows < 2 ^ 32 }
        requires room { length self.now.rows ≤ order.old.room }
        ensures rows { AreNumbered self.now.numbered order.new.numbers self.now.rows }
        ensures room { order.new.room ≡ order.old.room }
    {
        order_entries(&self.map, order);
    }

    /// Makes `rows` the rows in the order of their keys, by way of their numbers. There is room for both, so
    /// that this takes no memory.
    pub(crate) fn fill(&self, numbers: &mut Vec<usize>, rows: &mut Vec<X>)
        requires numbers { length self.now.rows ≤ vec_capacity numbers.old }
        requires rows { length self.now.rows ≤ vec_capacity rows.old }
        ensures rows { rows.new.items ≡ self.now.rows }
        ensures room { vec_capacity rows.new ≡ vec_capacity rows.old }
        ensures kept { vec_capacity numbers.new ≡ vec_capacity numbers.old }
    {
        fill_rows(&self.map, numbers, rows);
    }

    /// The rows in the order of their keys. It fails only for want of memory.
    pub fn rows(&self, alloc: Global) -> Result<Vec<X>, AllocError>
        ensures table { IfOk result (λ rows. rows.items ≡ self.now.rows) }
        ensures rising { IsRising X.Key.cmp X.key self.now.rows }
    {
        sorted_rows(alloc, &self.map)
    }
}
