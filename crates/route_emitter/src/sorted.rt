//! Sorted entries: how they are put in order, what two lists differ in, and how a change is made.
ghost use Rattle.std.specs.Prelude.{◌≡◌, ◌+◌, ◌≤◌, ◌++◌, length, vec_capacity, vec_len};
ghost use Rattle.row_tables.specs.Table.{IsKeyOrder, IsRising, table};
ghost use Rattle.route_emitter.specs.Entries.{has, itself, minus, route_order};

use crate::entry::RouteEntry;

// The items in order, each once.
pub(crate) fn put_in_order<K: Ord + Drop>(items: &mut Vec<K>)
    requires { IsKeyOrder K.cmp }
    ensures items { items.new.items ≡ table K.cmp (λ item. item) items.old.items }
    ensures len { vec_len items.new ≤ vec_len items.old }
    ensures capacity { vec_capacity items.new ≡ vec_capacity items.old }
{
    items.sort_unstable();
    items.dedup();
}

// Whether the entry is one of these.
pub(crate) fn has(entries: &[RouteEntry], entry: &RouteEntry) -> bool
    requires { IsRising route_order itself entries.now }
    ensures { result ≡ has entries.now entry.now }
{
    entries.binary_search(entry).is_ok()
}

// Adds the entries that the others haven't.
pub(crate) fn add_lacking(
    lacking: &mut Vec<RouteEntry>,
    entries: &[RouteEntry],
    others: &[RouteEntry],
)
    requires rising { IsRising route_order itself others.now }
    requires room { vec_len lacking.old + length entries.now ≤ vec_capacity lacking.old }
    ensures { lacking.new.items ≡ lacking.old.items ++ minus entries.now others.now }
{
    for entry in entries {
        if !has(others, entry) {
            lacking.push_reserved(*entry);
        }
    }
}
