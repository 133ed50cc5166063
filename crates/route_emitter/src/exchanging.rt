//! How an entry takes the place of another one in a sorted table.
ghost use Rattle.std.specs.Prelude.{◌≡◌, ◌+◌, ◌≤◌, ◌<◌, true, false, length, remove, take, drop, vec_capacity, vec_len, if◌then◌else◌};
ghost use Rattle.std.specs.List.{All};
ghost use Rattle.std.specs.declared.cmp.Ordering.TheVariants.{Less};
ghost use Rattle.row_tables.specs.Table.{IsRising, put_row};
ghost use Rattle.route_emitter.specs.Entries.{has, itself, route_order};
ghost use Rattle.route_emitter.specs.Near.{IsBetween, exchange_each, toggle};

use crate::entry::RouteEntry;

// Whether the entry is above all before that place.
fn is_behind(entries: &[RouteEntry], at: usize, entry: &RouteEntry) -> bool
    requires rising { IsRising route_order itself entries.now }
    requires within { at < length entries.now }
    ensures { result ≡ true → All (λ e. route_order e entry.now ≡ Less) (take at entries.now) }
{
    match at.checked_sub(1) {
        None => true,
        Some(before) => entries[before].cmp(entry).is_lt(),
    }
}

// Whether it is below all behind that place.
fn is_before(entries: &[RouteEntry], at: usize, entry: &RouteEntry) -> bool
    requires rising { IsRising route_order itself entries.now }
    requires within { at < length entries.now }
    ensures { result ≡ true → All (λ e. route_order entry.now e ≡ Less) (drop (at + 1) entries.now) }
{
    if at + 1 == entries.len() {
        return true;
    }
    entry.cmp(&entries[at + 1]).is_lt()
}

// Whether the entry can stand at that place in place of the one there.
fn fits(entries: &[RouteEntry], at: usize, entry: &RouteEntry) -> bool
    requires rising { IsRising route_order itself entries.now }
    requires within { at < length entries.now }
    ensures { result ≡ true → IsBetween entry.now entries.now at }
{
    is_behind(entries, at, entry) && is_before(entries, at, entry)
}

// Writes the entry at that place, if it fits there.
fn write_at(entries: &mut Vec<RouteEntry>, at: usize, entry: &RouteEntry) -> bool
    requires rising { IsRising route_order itself entries.old.items }
    requires within { at < vec_len entries.old }
    ensures items { entries.new.items ≡ (if result
        then put_row route_order itself entry.now (remove entries.old.items at)
        else entries.old.items) }
    ensures apart { result ≡ true → has (remove entries.old.items at) entry.now ≡ false }
    ensures len { vec_len entries.new ≡ vec_len entries.old }
    ensures capacity { vec_capacity entries.new ≡ vec_capacity entries.old }
{
    if !fits(entries, at, entry) {
        return false;
    }
    entries[at] = *entry;
    true
}

// Writes an entry over another one, if it fits there.
fn exchange(entries: &mut Vec<RouteEntry>, old: &RouteEntry, new: &RouteEntry) -> bool
    requires { IsRising route_order itself entries.old.items }
    ensures items { entries.new.items ≡ (if result
        then toggle new.now (toggle old.now entries.old.items) else entries.old.items) }
    ensures len { vec_len entries.new ≡ vec_len entries.old }
    ensures capacity { vec_capacity entries.new ≡ vec_capacity entries.old }
{
    match entries.binary_search(old) {
        Err(_) => false,
        Ok(at) => write_at(entries, at, new),
    }
}

// Writes each of the new entries over an old one, pair by pair, as long as they fit. It gives how many do.
pub(crate) fn exchange_each(
    entries: &mut Vec<RouteEntry>,
    old: &[RouteEntry],
    new: &[RouteEntry],
) -> usize
    requires { IsRising route_order itself entries.old.items }
    ensures within { (result ≤ length old.now) × (result ≤ length new.now) }
    ensures items { entries.new.items
        ≡ exchange_each (take result old.now) (take result new.now) entries.old.items }
    ensures len { vec_len entries.new ≡ vec_len entries.old }
    ensures capacity { vec_capacity entries.new ≡ vec_capacity entries.old }
{
    let most = old.len().min(new.len());
    for at in 0..most {
        if !exchange(entries, &old[at], &new[at]) {
            return at;
        }
    }
    most
}
