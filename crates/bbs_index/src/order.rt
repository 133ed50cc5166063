//! An order of a shelf's rows by their numbers, which is begun with when they are ordered again.
ghost use Rattle.std.specs.Prelude.{◌≡◌, ◌≤◌, ◌<◌, ◌^◌, [], length, filter, nat_lt, slice_get, vec_len, vec_capacity, OnOk, IsOk};
ghost use Rattle.std.specs.List.Sorted.{IsPermutation, IsSortedByKey};
ghost use Rattle.std.specs.Option.{option_cmp};
ghost use Rattle.bbs_index.specs.Order.{AreBelow, IsOrder};

use crate::row_room::make_room;
use crate::sorted::sort_numbers;
use bbs_model::Rowed;
use std::alloc::{AllocError, Global};
use std::marker::Model;

/// The numbers of some rows in the order that these had when they were last ordered. The next order begins
/// with it: numbers that no row has any more go, and those of rows that came since are put behind it, so
/// that it costs little more than these rows do.
#[derive(Drop)]
pub struct Order {
    numbers: Vec<u32>,
}

impl Model for Order {
    ghost use Rattle.std.specs.Prelude.{vec_capacity};
    ghost use Rattle.bbs_index.specs.Order.{Ordered, IsOrder};

    ghost Value = { Ordered };

    ghost view = { λ a. record { numbers = a.numbers.items; room = vec_capacity a.numbers } };

    ghost invariant = { λ a. IsOrder a.numbers.items };
}

// Takes the numbers away that are not below the count. Those that stay keep their order.
fn keep_below(numbers: &mut Vec<u32>, count: u32)
    requires { IsOrder numbers.old.items }
    ensures items { numbers.new.items ≡ filter (λ number. nat_lt number count) numbers.old.items }
    ensures capacity { vec_capacity numbers.new ≡ vec_capacity numbers.old }
{
    if (count as usize) < numbers.len() {
        numbers.retain(|number| *number < count);
    }
}

// Puts those numbers below the count that lack behind those that are there.
fn push_lacking(numbers: &mut Vec<u32>, count: u32)
    requires order { IsOrder numbers.old.items }
    requires few { vec_len numbers.old ≤ count }
    requires room { count ≤ vec_capacity numbers.old }
    ensures order { AreBelow count numbers.new.items }
    ensures capacity { vec_capacity numbers.new ≡ vec_capacity numbers.old }
{
    for number in numbers.len() as u32..count {
        numbers.push_reserved(number);
    }
}

// The numbers of these keys in their order, begun with the order that is there.
fn order_numbers<X: Rowed>(keys: &[X::Key], numbers: &mut Vec<u32>)
    requires order { IsOrder numbers.old.items }
    requires few { length keys.now < 2 ^ 32 }
    requires room { length keys.now ≤ vec_capacity numbers.old }
    ensures order { AreBelow (length keys.now) numbers.new.items }
    ensures sorted { IsSortedByKey (slice_get keys.now) (option_cmp X.Key.cmp) numbers.new.items }
    ensures capacity { vec_capacity numbers.new ≡ vec_capacity numbers.old }
{
    let count = keys.len() as u32;
    keep_below(numbers, count);
    push_lacking(numbers, count);
    sort_numbers::<X>(keys, numbers);
}

impl Order {
    /// An order of no rows. It takes no memory.
    pub fn new(alloc: Global) -> Order
        ensures { result.numbers ≡ [] }
    {
        Order {
            numbers: Vec::new(alloc),
        }
    }

    /// Makes room for so many numbers in all. It fails only for want of memory.
    pub fn reserve(&mut self, count: usize) -> Result<(), AllocError>
        ensures numbers { self.new.numbers ≡ self.old.numbers }
        ensures room { OnOk result (count ≤ self.new.room) }
        ensures succeeds { count ≤ self.old.room → IsOk result }
        ensures kept { self.old.room ≤ self.new.room }
    {
        make_room(&mut self.numbers, count)
    }

    /// The numbers in their order.
    pub fn numbers(&self) -> &[u32]
        ensures { result.now ≡ self.now.numbers }
    {
        &self.numbers
    }

    // Makes it the order of the rows that have these keys by their numbers.
    pub(crate) fn follow<X: Rowed>(&mut self, keys: &[X::Key])
        requires few { length keys.now < 2 ^ 32 }
        requires room { length keys.now ≤ self.old.room }
        ensures order { AreBelow (length keys.now) self.new.numbers }
        ensures sorted { IsSortedByKey (slice_get keys.now) (option_cmp X.Key.cmp) self.new.numbers }
        ensures room { self.new.room ≡ self.old.room }
    {
        order_numbers::<X>(keys, &mut self.numbers);
    }
}
