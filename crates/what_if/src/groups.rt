//! Values by keys of which several may be equal.
ghost use Rattle.std.specs.Prelude.{◌≡◌, ◌++◌, ◌∷◌, [], true, cond, map, filter, unwrap_or, IfOk, OnOk};
ghost use Rattle.std.specs.HashMap.{get};

use diego_names::{List, OutOfMemory};
use std::alloc::Global;
use std::collections::HashMap;
use std::hash::Hash;

// Takes the values of the key out.
fn take_group<K: Eq + Hash + Copy + Drop, V: Copy + Drop>(
    alloc: Global,
    groups: &mut HashMap<K, List<V>>,
    key: &K,
) -> List<V>
    ensures taken { result ≡ unwrap_or (get K.eq groups.old key.now) [] }
    ensures rest { (other : K) → unwrap_or (get K.eq groups.new other) []
        ≡ cond (K.eq key.now other) [] (unwrap_or (get K.eq groups.old other) []) }
{
    groups.remove(key).unwrap_or(List::new(alloc))
}

// Puts these values in place of those of the key.
fn put_group<K: Eq + Hash + Copy + Drop, V: Copy + Drop>(
    groups: &mut HashMap<K, List<V>>,
    key: &K,
    group: List<V>,
) -> Result<(), OutOfMemory>
    ensures { OnOk result ((other : K) → unwrap_or (get K.eq groups.new other) []
        ≡ cond (K.eq key.now other) group (unwrap_or (get K.eq groups.old other) [])) }
{
    groups.insert(*key, group)?;
    Ok(())
}

// Adds a value behind those of its key.
fn add_to_group<K: Eq + Hash + Copy + Drop, V: Copy + Drop>(
    alloc: Global,
    groups: &mut HashMap<K, List<V>>,
    key: &K,
    value: &V,
) -> Result<(), OutOfMemory>
    requires { (a : K) → (b : K) → K.eq a b ≡ true → a ≡ b }
    ensures { OnOk result ((other : K) → unwrap_or (get K.eq groups.new other) []
        ≡ unwrap_or (get K.eq groups.old other) []
        ++ cond (K.eq key.now other) (value.now ∷ []) []) }
{
    let mut group = take_group(alloc, groups, key);
    group.push(*value)?;
    put_group(groups, key, group)?;
    Ok(())
}

// The values of each key, in their order. A key may be equal to no other than itself.
pub(crate) fn groups_of<K: Eq + Hash + Copy + Drop, V: Copy + Drop>(
    alloc: Global,
    pairs: &[(K, V)],
) -> Result<HashMap<K, List<V>>, OutOfMemory>
    requires { (a : K) → (b : K) → K.eq a b ≡ true → a ≡ b }
    ensures { IfOk result (λ groups. (key : K) → unwrap_or (get K.eq groups key) []
        ≡ map (λ p. p.1) (filter (λ p. K.eq p.0 key) pairs.now)) }
{
    let mut groups = HashMap::new(alloc);
    for pair in pairs {
        add_to_group(alloc, &mut groups, &pair.0, &pair.1)?;
    }
    Ok(groups)
}
