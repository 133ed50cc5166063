//! Entries of a map that are put and taken away. Below its capacity nothing takes memory.
ghost use Rattle.std.specs.Prelude.{◌≡◌, ◌≤◌, None, Some, IsSome, OnOk};
ghost use Rattle.indexmap.specs.IndexMap.{get, spare, IsUnchanged, Updates};
ghost use Rattle.bbs_model.specs.Store.{HasRoom, TakesRoom};

use diego_names::OutOfMemory;
use indexmap::IndexMap;
use std::hash::Hash;

/// Makes this the value at the key. It takes one place of the spare room, and none if the key is known.
fn note<K: Copy + Eq + Hash, V: Copy>(map: &mut IndexMap<K, V>, key: K, value: V)
    requires { HasRoom (get K.eq map.old key) (spare map.old) }
    ensures updates { Updates K.eq map.old map.new key (Some value) }
    ensures spare { TakesRoom (get K.eq map.old key) (spare map.old) (spare map.new) }
{
    if let Some(place) = map.get_mut(&key) {
        *place = value;
        return;
    }
    match map.insert(key, value) {
        Ok(_) => {}
        Err(_) => unreachable!(),
    }
}

/// Takes the entry at the key away, if there is one.
fn forget<K: Copy + Eq + Hash, V: Copy>(map: &mut IndexMap<K, V>, key: &K)
    ensures updates { Updates K.eq map.old map.new key.now None }
    ensures spare { spare map.old ≤ spare map.new }
{
    let _ = map.swap_remove(key);
}

/// Makes this the value at the key, or takes the entry away if there is none. Below the capacity this takes
/// no memory.
pub(crate) fn renew<K: Copy + Eq + Hash, V: Copy>(
    map: &mut IndexMap<K, V>,
    key: K,
    value: Option<V>,
)
    requires { HasRoom (get K.eq map.old key) (spare map.old) }
    ensures updates { Updates K.eq map.old map.new key value }
    ensures spare { TakesRoom (get K.eq map.old key) (spare map.old) (spare map.new) }
{
    match value {
        None => forget(map, &key),
        Some(value) => note(map, key, value),
    }
}

/// The same at a key that may have no entry: then nothing is done.
pub(crate) fn renew_known<K: Copy + Eq + Hash, V: Copy>(
    map: &mut IndexMap<K, V>,
    key: K,
    value: Option<V>,
)
    ensures known { IsSome (get K.eq map.old key) → Updates K.eq map.old map.new key value }
    ensures unknown { get K.eq map.old key ≡ None → IsUnchanged map.old map.new }
    ensures spare { spare map.old ≤ spare map.new }
{
    if map.contains_key(&key) {
        renew(map, key, value);
    }
}

/// The same, in the memory that a new entry may want.
pub(crate) fn add<K: Copy + Eq + Hash, V: Copy>(
    map: &mut IndexMap<K, V>,
    key: K,
    value: Option<V>,
) -> Result<(), OutOfMemory>
    ensures { OnOk result (Updates K.eq map.old map.new key value) }
{
    map.reserve(1)?;
    renew(map, key, value);
    Ok(())
}
