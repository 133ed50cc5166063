//! The head of a checkpoint: the rows of an index in bytes, written where room was made for them.
ghost use Rattle.std.specs.Prelude.{◌≡◌, ℕ, ◌+◌, ◌*◌, ◌≤◌, ◌<◌, ◌^◌, ◌++◌, true, false, length, take, slice_index_or, vec_len, vec_capacity, OnOk, IsOk};
ghost use Rattle.std.specs.List.{flat_map, AllByRecursion};
ghost use Rattle.std.specs.Ordering.{is_lt};
ghost use Rattle.head_codec.specs.Head.{counts, head_counts, head_spelled, FitsHead};
ghost use Rattle.bbs_index.specs.Shelf.{AreNumbered};
ghost use Rattle.bbs_journal.specs.Header.{newest};
ghost use Rattle.bbs_model.specs.Valid.{IsValid};
ghost use Rattle.bbs_board.specs.Room.{row_count, places_in};

use crate::orders::Orders;
use bbs_index::{Index, Order, Shelf};
use bbs_model::RowStore;
use diego_names::OutOfMemory;
use head_codec::{Counts, HeadRow, ROW_BYTES, append_front, append_row};
use std::alloc::Global;

/// A head in bytes, and the orders of the tables' rows. Both are kept from one checkpoint to the next: the
/// bytes for their room, the orders since the next ones begin with them.
#[derive(Drop)]
pub struct Draft {
    pub(crate) bytes: Vec<u8>,
    pub(crate) orders: Orders,
}

// How many rows at the end of a table are looked at first: those that came since the last checkpoint stand there.
const LATEST: usize = 4_096;

/// Puts the front of a head behind what is written.
fn put_front(out: &mut Vec<u8>, front: Counts)
    requires { vec_len out.old + 344 ≤ vec_capacity out.old }
    ensures bytes { out.new.items ≡ out.old.items ++ counts.spelling front }
    ensures few { vec_len out.new ≤ vec_len out.old + 344 }
    ensures kept { vec_capacity out.old ≤ vec_capacity out.new }
{
    match append_front(out, front) {
        Ok(()) => {}
        Err(_) => unreachable!(),
    }
}

/// Puts a row behind what is written.
fn put_row<X: HeadRow>(out: &mut Vec<u8>, row: &X)
    requires { vec_len out.old + 344 ≤ vec_capacity out.old }
    ensures bytes { out.new.items ≡ out.old.items ++ X.format.spelling row.entry.now }
    ensures fits { X.format.Fits row.entry.now }
    ensures few { vec_len out.new ≤ vec_len out.old + 344 }
    ensures kept { vec_capacity out.old ≤ vec_capacity out.new }
{
    match append_row(out, row) {
        Ok(()) => {}
        Err(_) => unreachable!(),
    }
}

/// Puts the rows of these numbers behind what is written.
fn put_numbered<X: HeadRow>(out: &mut Vec<u8>, shelf: &Shelf<X>, numbers: &[u32])
    requires numbered { AreNumbered shelf.now.numbered numbers.now shelf.now.rows }
    requires room { vec_len out.old + 344 * length shelf.now.rows ≤ vec_capacity out.old }
    ensures bytes { out.new.items ≡ out.old.items ++ flat_map X.format.spelling shelf.entry.now.rows }
    ensures fits { AllByRecursion X.format.Fits shelf.entry.now.rows }
    ensures few { vec_len out.new ≤ vec_len out.old + 344 * length shelf.entry.now.rows }
    ensures kept { vec_capacity out.old ≤ vec_capacity out.new }
{
    for number in numbers {
        put_row(out, shelf.at(*number as usize));
    }
}

/// Whether the row of this number does not stand before the one of the number below it.
fn stands_behind<X: HeadRow>(shelf: &Shelf<X>, number: usize) -> bool
    requires { number < length shelf.now.numbered }
    ensures { (below : ℕ) (x : X) → result ≡ true → below + 1 ≡ number → is_lt (X.Key.cmp
        (X.key (slice_index_or shelf.now.numbered number x))
        (X.key (slice_index_or shelf.now.numbered below x))) ≡ false }
{
    if number == 0 {
        return true;
    }
    !shelf.compare(number, number - 1).is_lt()
}

/// Whether the rows that came last stand in the order of their keys. Where they don't, it isn't worth while to
/// write all that stand before them by their numbers.
fn ends_in_turn<X: HeadRow>(shelf: &Shelf<X>) -> bool {
    shelf.may_be_in_order();
    let len = shelf.len();
    for number in (len.saturating_sub(LATEST)..len).rev() {
        if !stands_behind(shelf, number) {
            return false;
        }
    }
    true
}

/// Puts the rows of a shelf behind what is written by their numbers, as long as that is the order of
/// their keys, and tells whether all of them were put.
fn put_in_turn<X: HeadRow>(out: &mut Vec<u8>, shelf: &Shelf<X>) -> bool
    requires room { vec_len out.old + 344 * length shelf.now.rows ≤ vec_capacity out.old }
    ensures bytes { result ≡ true
        → out.new.items ≡ out.old.items ++ flat_map X.format.spelling shelf.entry.now.rows }
    ensures fits { result ≡ true → AllByRecursion X.format.Fits shelf.entry.now.rows }
    ensures front { take (vec_len out.old) out.new.items ≡ out.old.items }
    ensures few { vec_len out.new ≤ vec_len out.old + 344 * length shelf.entry.now.rows }
    ensures kept { vec_capacity out.old ≤ vec_capacity out.new }
{
    shelf.may_be_in_order();
    for number in 0..shelf.len() {
        if !stands_behind(shelf, number) {
            return false;
        }
        put_row(out, shelf.at(number));
    }
    true
}

/// Puts the rows of a shelf behind what is written, in the order of their keys.
fn put_rows<X: HeadRow>(out: &mut Vec<u8>, order: &mut Order, shelf: &Shelf<X>)
    requires room { vec_len out.old + 344 * length shelf.now.rows ≤ vec_capacity out.old }
    requires numbers { length shelf.now.rows ≤ order.old.room }
    requires countable { length shelf.now.rows < 2 ^ 32 }
    ensures bytes { out.new.items ≡ out.old.items ++ flat_map X.format.spelling shelf.entry.now.rows }
    ensures fits { AllByRecursion X.format.Fits shelf.entry.now.rows }
    ensures few { vec_len out.new ≤ vec_len out.old + 344 * length shelf.entry.now.rows }
    ensures kept { vec_capacity out.old ≤ vec_capacity out.new }
    ensures order { order.new.room ≡ order.old.room }
{
    let written = out.len();
    if ends_in_turn(shelf) && put_in_turn(out, shelf) {
        return;
    }
    out.truncate(written);
    shelf.order_into(order);
    put_numbered(out, shelf, order.numbers());
}

fn front_of(index: &Index) -> Counts
    requires { IsValid index.now.rows }
    ensures { result ≡ head_counts index.now.rows }
{
    (
        index.next(),
        (
            (
                index.desired_shelf().len() as u32,
                index.actual_shelf().len() as u32,
            ),
            (
                index.tasks_shelf().len() as u32,
                (
                    index.cells_shelf().len() as u32,
                    index.domains_shelf().len() as u32,
                ),
            ),
        ),
    )
}

/// How many rows a board has in all its tables.
pub fn row_count(index: &Index) -> usize
    requires { IsValid index.now.rows }
    ensures count { result ≡ row_count index.now.rows }
    ensures few { result ≤ 157000 }
{
    index.desired_shelf().len()
        + index.actual_shelf().len()
        + index.tasks_shelf().len()
        + index.cells_shelf().len()
        + index.domains_shelf().len()
}

impl Draft {
    /// A draft of nothing. It takes no memory.
    pub fn new(alloc: Global) -> Draft {
        Draft {
            bytes: Vec::new(alloc),
            orders: Orders::new(alloc),
        }
    }

    /// Makes room for the head of so many rows. It fails only for want of memory.
    pub fn reserve(&mut self, rows: usize) -> Result<(), OutOfMemory>
        requires { rows < 2 ^ 40 }
        ensures room { OnOk result (rows + 1 ≤ places_in self.new) }
        ensures succeeds { rows + 1 ≤ places_in self.old → IsOk result }
        ensures kept { places_in self.old ≤ places_in self.new }
    {
        self.bytes.clear();
        self.bytes.reserve(ROW_BYTES * (rows + 1))?;
        self.orders.reserve(rows)
    }

    /// Writes the head of the rows of an index over what stands there. It never fails for want of memory.
    pub fn write(&mut self, index: &Index)
        requires valid { IsValid index.now.rows }
        requires room { row_count index.now.rows + 1 ≤ places_in self.old }
        ensures bytes { self.new.bytes.items ≡ head_spelled newest index.entry.now.rows }
        ensures fits { FitsHead newest index.entry.now.rows }
        ensures few { length self.new.bytes.items < 2 ^ 32 }
        ensures kept { places_in self.old ≤ places_in self.new }
    {
        self.bytes.clear();
        put_front(&mut self.bytes, front_of(index));
        put_rows(
            &mut self.bytes,
            &mut self.orders.desired,
            index.desired_shelf(),
        );
        put_rows(
            &mut self.bytes,
            &mut self.orders.actual,
            index.actual_shelf(),
        );
        put_rows(&mut self.bytes, &mut self.orders.tasks, index.tasks_shelf());
        put_rows(&mut self.bytes, &mut self.orders.cells, index.cells_shelf());
        put_rows(
            &mut self.bytes,
            &mut self.orders.domains,
            index.domains_shelf(),
        );
    }
}
