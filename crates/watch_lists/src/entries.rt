//! Entries of a map that are put, written over and taken away. Below its capacity nothing takes memory.
ghost use Rattle.std.specs.Prelude.{◌≡◌, ◌+◌, ◌<◌, ◌≤◌, cond, None, Some, IsSome};
ghost use Rattle.std.specs.Map.{lookup};
ghost use Rattle.indexmap.specs.IndexMap.{get, spare, Updates};

use indexmap::IndexMap;
use std::hash::Hash;

/// Makes this the value at the key.
pub(crate) fn put<K: Copy + Eq + Hash, V: Copy>(map: &mut IndexMap<K, V>, key: K, value: V)
    requires { 0 < spare map.old }
    ensures updates { Updates K.eq map.old map.new key (Some value) }
    ensures spare { spare map.old ≤ spare map.new + 1 }
{
    match map.insert(key, value) {
        Ok(_) => {}
        Err(_) => unreachable!(),
    }
}

/// Makes this the value at a key that is there.
pub(crate) fn write<K: Copy + Eq + Hash, V: Copy>(map: &mut IndexMap<K, V>, key: K, value: V)
    requires { IsSome (get K.eq map.old key) }
    ensures updates { Updates K.eq map.old map.new key (Some value) }
    ensures spare { spare map.old ≤ spare map.new }
{
    match map.get_mut(&key) {
        Some(place) => *place = value,
        None => unreachable!(),
    }
}

/// Takes the entry at the key away, if there is one.
pub(crate) fn take<K: Copy + Eq + Hash, V: Copy>(map: &mut IndexMap<K, V>, key: K)
    ensures updates { Updates K.eq map.old map.new key None }
    ensures spare { spare map.old ≤ spare map.new }
{
    let _ = map.swap_remove(&key);
}

/// Makes this the value at the key, or takes the entry away if there is none.
pub(crate) fn set<K: Copy + Eq + Hash, V: Copy>(map: &mut IndexMap<K, V>, key: K, value: Option<V>)
    requires { 0 < spare map.old }
    ensures updates { (q : K) → lookup (K.eq q) map.new.entries
        ≡ cond (K.eq key q) value (lookup (K.eq q) map.old.entries) }
    ensures spare { spare map.old ≤ spare map.new + 1 }
{
    match value {
        None => take(map, key),
        Some(value) => put(map, key, value),
    }
}
