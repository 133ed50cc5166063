//! Keys in their order, each once.
ghost use Rattle.std.specs.Prelude.{◌≡◌, map, IfOk};
ghost use Rattle.std.specs.FinMap.{IsAntisymmetric};
ghost use Rattle.row_tables.specs.Table.{table};

use diego_names::OutOfMemory;
use std::alloc::Global;
use what_if::table_of;

fn twice<K: Copy>(alloc: Global, keys: &[K]) -> Result<Vec<(K, K)>, OutOfMemory>
    ensures { IfOk result (λ rows. rows.items ≡ map (λ k. (k, k)) keys.now) }
{
    let rows = keys.iter().map(|key| (*key, *key)).collect(alloc)?;
    Ok(rows)
}

/// The keys in their order, each once. It costs the logarithm of their number for each.
pub fn keys_in_order<K: Ord + Copy + Drop>(alloc: Global, keys: &[K]) -> Result<Vec<K>, OutOfMemory>
    requires { IsAntisymmetric K.cmp }
    ensures { IfOk result (λ list. list.items ≡ table K.cmp (λ k. k) keys.now) }
{
    let rows = twice(alloc, keys)?;
    let made = table_of(alloc, &rows)?;
    Ok(made)
}
