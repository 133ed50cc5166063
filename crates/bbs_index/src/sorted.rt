//! The order of a map's entries is made when they are read out.
ghost use Rattle.std.specs.Prelude.{◌≡◌, ◌<◌, ◌≤◌, ◌^◌, length, slice_get, vec_capacity, IfOk};
ghost use Rattle.std.specs.List.Sorted.{IsPermutation, IsSortedByKey};
ghost use Rattle.std.specs.Option.{option_cmp};
ghost use Rattle.indexmap.specs.IndexMap.{index_map_len, values};
ghost use Rattle.bbs_index.specs.Shelf.{table_of, AreNumbered, IsShelf};

use crate::Order;
use bbs_model::Rowed;
use indexmap::IndexMap;
use std::alloc::{AllocError, Global};
use std::cmp::Ordering;

// How the keys of two numbers compare. They are compared where they lie, since a sort compares often
// and a key is long.
pub(crate) fn compare_at<K: Ord>(keys: &[K], first: usize, second: usize) -> Ordering
    ensures { result ≡ option_cmp K.cmp (slice_get keys.now first) (slice_get keys.now second) }
{
    keys.get(first).cmp(&keys.get(second))
}

// Puts numbers in the order of the keys that they stand for. The stable sort keeps long runs that are in
// order, and merges what it sorted between them, so that rows in order with new ones behind them take
// little more than the new ones. It takes a buffer for the time of the call; where there is no memory
// for it, the numbers are sorted where they stand.
pub(crate) fn sort_numbers<X: Rowed>(keys: &[X::Key], numbers: &mut Vec<u32>)
    ensures permutation { IsPermutation numbers.old.items numbers.new.items }
    ensures sorted { IsSortedByKey (slice_get keys.now) (option_cmp X.Key.cmp) numbers.new.items }
    ensures capacity { vec_capacity numbers.new ≡ vec_capacity numbers.old }
{
    let by_key = |first: &u32, second: &u32| compare_at(keys, *first as usize, *second as usize);
    if numbers.sort_by(by_key).is_ok() {
        return;
    }
    numbers.sort_unstable_by(by_key);
}

// The numbers of the entries in the order of their keys, begun with the order that is there.
pub(crate) fn order_entries<X: Rowed>(map: &IndexMap<X::Key, X>, order: &mut Order)
    requires shelf { IsShelf X.Key.cmp X.Key.eq X.key map.now.entries }
    requires few { index_map_len map.now < 2 ^ 32 }
    requires room { index_map_len map.now ≤ order.old.room }
    ensures rows { AreNumbered (values map.now) order.new.numbers (table_of X.Key.cmp map.now.entries) }
    ensures room { order.new.room ≡ order.old.room }
{
    let keys = map.keys().as_slice();
    order.follow::<X>(keys);
}

// The numbers of the entries as they lie. There is room for them.
fn number_entries<X: Rowed>(map: &IndexMap<X::Key, X>, numbers: &mut Vec<usize>)
    requires { index_map_len map.now ≤ vec_capacity numbers.old }
    ensures numbers { AreNumbered (values map.now) numbers.new.items (values map.now) }
    ensures capacity { vec_capacity numbers.new ≡ vec_capacity numbers.old }
{
    numbers.clear();
    for number in 0..map.len() {
        numbers.push_reserved(number);
    }
}

// The numbers of the entries in the order of their keys. The stable sort takes memory.
fn sorted_numbers<X: Rowed>(
    alloc: Global,
    map: &IndexMap<X::Key, X>,
) -> Result<Vec<usize>, AllocError>
    requires { IsShelf X.Key.cmp X.Key.eq X.key map.now.entries }
    ensures { IfOk result (λ numbers. AreNumbered (values map.now) numbers.items
        (table_of X.Key.cmp map.now.entries)) }
{
    let mut numbers: Vec<usize> = Vec::with_capacity(alloc, map.len())?;
    number_entries(map, &mut numbers);
    let keys = map.keys().as_slice();
    numbers.sort_by(|first, second| compare_at(keys, *first, *second))?;
    Ok(numbers)
}

// The same in the room that there is, without memory.
fn fill_numbers<X: Rowed>(map: &IndexMap<X::Key, X>, numbers: &mut Vec<usize>)
    requires shelf { IsShelf X.Key.cmp X.Key.eq X.key map.now.entries }
    requires room { index_map_len map.now ≤ vec_capacity numbers.old }
    ensures numbers { AreNumbered (values map.now) numbers.new.items
        (table_of X.Key.cmp map.now.entries) }
    ensures capacity { vec_capacity numbers.new ≡ vec_capacity numbers.old }
{
    number_entries(map, numbers);
    let keys = map.keys().as_slice();
    numbers.sort_unstable_by(|first, second| compare_at(keys, *first, *second));
}

// The rows of these numbers, one by one. There is room for them.
fn fill_at<X: Rowed>(map: &IndexMap<X::Key, X>, numbers: &[usize], rows: &mut Vec<X>)
    requires numbers { AreNumbered (values map.now) numbers.now
        (table_of X.Key.cmp map.now.entries) }
    requires room { length numbers.now ≤ vec_capacity rows.old }
    ensures rows { rows.new.items ≡ table_of X.Key.cmp map.now.entries }
    ensures capacity { vec_capacity rows.new ≡ vec_capacity rows.old }
{
    rows.clear();
    for number in numbers {
        rows.push_reserved(map[*number]);
    }
}

// The rows in the order of the keys that they stand under. Numbers are sorted, since a row is long.
pub(crate) fn sorted_rows<X: Rowed>(
    alloc: Global,
    map: &IndexMap<X::Key, X>,
) -> Result<Vec<X>, AllocError>
    requires { IsShelf X.Key.cmp X.Key.eq X.key map.now.entries }
    ensures { IfOk result (λ rows. rows.items ≡ table_of X.Key.cmp map.now.entries) }
{
    let numbers = sorted_numbers(alloc, map)?;
    let mut rows = Vec::with_capacity(alloc, numbers.len())?;
    fill_at(map, numbers.as_slice(), &mut rows);
    Ok(rows)
}

// The same in the room that there is, without memory.
pub(crate) fn fill_rows<X: Rowed>(
    map: &IndexMap<X::Key, X>,
    numbers: &mut Vec<usize>,
    rows: &mut Vec<X>,
)
    requires shelf { IsShelf X.Key.cmp X.Key.eq X.key map.now.entries }
    requires numbers { index_map_len map.now ≤ vec_capacity numbers.old }
    requires rows { index_map_len map.now ≤ vec_capacity rows.old }
    ensures rows { rows.new.items ≡ table_of X.Key.cmp map.now.entries }
    ensures room { vec_capacity rows.new ≡ vec_capacity rows.old }
    ensures kept { vec_capacity numbers.new ≡ vec_capacity numbers.old }
{
    fill_numbers(map, numbers);
    fill_at(map, numbers.as_slice(), rows);
}
