//! Sets of keys that are looked up often.
ghost use Rattle.std.specs.Prelude.{◌≡◌, IfOk};
ghost use Rattle.std.specs.List.{list_any};
ghost use Rattle.std.specs.HashSet.{contains};

use diego_names::OutOfMemory;
use std::alloc::Global;
use std::collections::HashSet;
use std::hash::Hash;

/// The keys, each once.
pub fn key_set<K: Eq + Hash + Copy + Drop>(
    alloc: Global,
    keys: &[K],
) -> Result<HashSet<K>, OutOfMemory>
    ensures { IfOk result (λ set. (key : K)
        → contains K.eq set key ≡ list_any (λ k. K.eq k key) keys.now) }
{
    let mut set = HashSet::new(alloc);
    for key in keys {
        set.insert(*key)?;
    }
    Ok(set)
}
