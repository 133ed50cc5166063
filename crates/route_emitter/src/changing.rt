//! How entries come into a sorted table and go from it: in its place, or into a table beside it.
ghost use Rattle.std.specs.Prelude.{◌≡◌, ◌+◌, ◌≤◌, ◌<◌, ◌++◌, [], ◌∷◌, List, insert, length, vec_capacity, vec_len};
ghost use Rattle.row_tables.specs.Table.{IsRising, table};
ghost use Rattle.route_emitter.specs.Entries.{itself, route_order};
ghost use Rattle.route_emitter.specs.Near.{AreApart, IsSwitched, toggle, toggle_each};
ghost use Rattle.route_emitter.specs.declared.entry.RouteEntry.{RouteEntry as AnEntry};

use crate::entry::RouteEntry;
use crate::exchanging::exchange_each;
use crate::sorted::put_in_order;

/// Up to so many entries are changed where the table stands. Each moves all those behind it, so that
/// more of them are told in one pass into a new table.
pub(crate) const FEW: usize = 8;

// Adds the entries. There is room for them.
fn extend(entries: &mut Vec<RouteEntry>, more: &[RouteEntry])
    requires { vec_len entries.old + length more.now ≤ vec_capacity entries.old }
    ensures items { entries.new.items ≡ entries.old.items ++ more.now }
    ensures len { vec_len entries.new ≡ vec_len entries.old + length more.now }
    ensures capacity { vec_capacity entries.old ≤ vec_capacity entries.new }
{
    match entries.extend_from_slice(more) {
        Ok(()) => {}
        Err(_) => unreachable!(),
    }
}

// Puts the entry in at that place. There is room for it.
fn insert(entries: &mut Vec<RouteEntry>, at: usize, entry: RouteEntry)
    requires within { at ≤ vec_len entries.old }
    requires room { vec_len entries.old < vec_capacity entries.old }
    ensures items { entries.new.items ≡ insert entries.old.items at entry }
    ensures len { vec_len entries.new ≡ vec_len entries.old + 1 }
    ensures capacity { vec_capacity entries.old ≤ vec_capacity entries.new }
{
    match entries.insert(at, entry) {
        Ok(()) => {}
        Err(_) => unreachable!(),
    }
}

// Takes the entry out if the table has it, and else puts it in.
fn toggle(entries: &mut Vec<RouteEntry>, entry: &RouteEntry)
    requires rising { IsRising route_order itself entries.old.items }
    requires room { vec_len entries.old < vec_capacity entries.old }
    ensures items { entries.new.items ≡ toggle entry.now entries.old.items }
    ensures len { vec_len entries.new ≤ vec_len entries.old + 1 }
    ensures capacity { vec_capacity entries.old ≤ vec_capacity entries.new }
{
    match entries.binary_search(entry) {
        Ok(at) => {
            let _gone = entries.remove(at);
        }
        Err(at) => insert(entries, at, *entry),
    }
}

// The same for each of these, where the table stands.
fn toggle_each(entries: &mut Vec<RouteEntry>, changes: &[RouteEntry])
    requires rising { IsRising route_order itself entries.old.items }
    requires room { vec_len entries.old + length changes.now ≤ vec_capacity entries.old }
    ensures { entries.new.items ≡ toggle_each changes.now entries.old.items }
{
    for entry in changes {
        toggle(entries, entry);
    }
}

// Copies the entries before this one, and it too if the rest hasn't it. It gives those behind it.
fn pass<'a>(
    next: &mut Vec<RouteEntry>,
    rest: &'a [RouteEntry],
    entry: &RouteEntry,
) -> &'a [RouteEntry]
    requires rising { IsRising route_order itself rest.now }
    requires room { vec_len next.old + length rest.now < vec_capacity next.old }
    ensures passed { (later : List AnEntry) → IsRising route_order itself (entry.now ∷ later) →
        next.new.items ++ toggle_each later result.now
        ≡ next.old.items ++ toggle_each (entry.now ∷ later) rest.now }
    ensures rising { IsRising route_order itself result.now }
    ensures len { vec_len next.new + length result.now ≤ vec_len next.old + length rest.now + 1 }
    ensures capacity { vec_capacity next.old ≤ vec_capacity next.new }
{
    match rest.binary_search(entry) {
        Ok(at) => {
            let (front, _) = rest.split_at(at);
            let (_, back) = rest.split_at(at + 1);
            extend(next, front);
            back
        }
        Err(at) => {
            let (front, back) = rest.split_at(at);
            extend(next, front);
            next.push_reserved(*entry);
            back
        }
    }
}

// The table with these changes, which are sorted, in a new one.
fn merge(next: &mut Vec<RouteEntry>, entries: &[RouteEntry], changes: &[RouteEntry])
    requires rising { IsRising route_order itself entries.now }
    requires order { IsRising route_order itself changes.now }
    requires empty { next.old.items ≡ [] }
    requires room { length entries.now + length changes.now ≤ vec_capacity next.old }
    ensures { next.new.items ≡ toggle_each changes.now entries.now }
{
    let mut rest = entries;
    for entry in changes {
        rest = pass(next, rest, entry);
    }
    extend(next, rest);
}

// Moves what is changed into the new table, which takes the place of the old one.
fn replace(entries: &mut Vec<RouteEntry>, next: Vec<RouteEntry>, changes: &[RouteEntry])
    requires rising { IsRising route_order itself entries.old.items }
    requires order { IsRising route_order itself changes.now }
    requires empty { next.items ≡ [] }
    requires room { vec_len entries.old + length changes.now ≤ vec_capacity next }
    ensures { entries.new.items ≡ toggle_each changes.now entries.old.items }
{
    let mut next = next;
    merge(&mut next, entries.as_slice(), changes);
    *entries = next;
}

// What comes and what goes, sorted.
fn gather(changes: &mut Vec<RouteEntry>, register: &[RouteEntry], unregister: &[RouteEntry])
    requires empty { changes.old.items ≡ [] }
    requires room { length register.now + length unregister.now ≤ vec_capacity changes.old }
    ensures items { changes.new.items ≡ table route_order itself (register.now ++ unregister.now) }
    ensures len { vec_len changes.new ≤ length register.now + length unregister.now }
{
    extend(changes, register);
    extend(changes, unregister);
    put_in_order(changes);
}

// Takes those entries out that the table has, and puts the others in.
fn toggle_all(entries: &mut Vec<RouteEntry>, next: Vec<RouteEntry>, changes: &[RouteEntry])
    requires rising { IsRising route_order itself entries.old.items }
    requires order { IsRising route_order itself changes.now }
    requires few { vec_len entries.old + FEW ≤ vec_capacity entries.old }
    requires empty { next.items ≡ [] }
    requires many { FEW < length changes.now
        → vec_len entries.old + length changes.now ≤ vec_capacity next }
    ensures { entries.new.items ≡ toggle_each changes.now entries.old.items }
{
    if changes.len() <= FEW {
        toggle_each(entries, changes);
    } else {
        replace(entries, next, changes);
    }
}

// Brings the entries in that come, and takes those out that go. As long as one that comes fits into the place
// of one that goes, it is written there, and no other entry is moved.
pub(crate) fn change(
    entries: &mut Vec<RouteEntry>,
    next: Vec<RouteEntry>,
    changes: &mut Vec<RouteEntry>,
    register: &[RouteEntry],
    unregister: &[RouteEntry],
)
    requires rising { IsRising route_order itself entries.old.items }
    requires lists { AreApart register.now unregister.now }
    requires few { vec_len entries.old + FEW ≤ vec_capacity entries.old }
    requires changes { (changes.old.items ≡ [])
        × (length register.now + length unregister.now ≤ vec_capacity changes.old) }
    requires empty { next.items ≡ [] }
    requires many { FEW < length register.now + length unregister.now
        → vec_len entries.old + (length register.now + length unregister.now) ≤ vec_capacity next }
    ensures { IsSwitched register.now unregister.now entries.old.items entries.new.items }
{
    let done = exchange_each(entries, unregister, register);
    let (_, come) = register.split_at(done);
    let (_, gone) = unregister.split_at(done);
    gather(changes, come, gone);
    toggle_all(entries, next, changes.as_slice());
}
