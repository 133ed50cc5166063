//! How often keys are among others.
ghost use Rattle.std.specs.Prelude.{◌≡◌, true, unwrap_or, count_by, IfOk};
ghost use Rattle.std.specs.HashMap.{get};

use diego_names::OutOfMemory;
use std::alloc::Global;
use std::collections::HashMap;
use std::hash::Hash;

/// How often the key was counted.
pub fn count_in<K: Eq + Hash + Copy + Drop>(counts: &HashMap<K, u64>, key: &K) -> u64
    ensures { result ≡ unwrap_or (get K.eq counts.now key.now) 0 }
{
    counts.get(key).copied().unwrap_or(0)
}

/// How often each key is among these. A key may be equal to no other than itself.
pub fn counts_of<K: Eq + Hash + Copy + Drop>(
    alloc: Global,
    keys: &[K],
) -> Result<HashMap<K, u64>, OutOfMemory>
    requires { (a : K) → (b : K) → K.eq a b ≡ true → a ≡ b }
    ensures { IfOk result (λ counts. (key : K)
        → unwrap_or (get K.eq counts key) 0 ≡ count_by (λ k. K.eq key k) keys.now) }
{
    let mut counts = HashMap::new(alloc);
    for key in keys {
        let so_far = count_in(&counts, key);
        counts.insert(*key, so_far + 1)?;
    }
    Ok(counts)
}
