//! Rows in the order of their keys, each key once.
ghost use Rattle.std.specs.Prelude.{◌≡◌, map, IfOk};
ghost use Rattle.std.specs.FinMap.{IsAntisymmetric};
ghost use Rattle.row_tables.specs.Table.{table};

use diego_names::OutOfMemory;
use std::alloc::Global;
use std::collections::BTreeMap;

// The rows by their keys. Of two of one key the first is kept.
fn map_of<K: Ord + Copy + Drop, X: Copy + Drop>(
    alloc: Global,
    rows: &[(K, X)],
) -> Result<BTreeMap<K, X>, OutOfMemory>
    requires { IsAntisymmetric K.cmp }
    ensures { IfOk result (λ made. made.entries ≡ table K.cmp (λ p. p.0) rows.now) }
{
    let mut made = BTreeMap::new(alloc);
    let mut left = rows.len();
    while left > 0 {
        left -= 1;
        let row = rows[left];
        made.insert(row.0, row.1)?;
    }
    Ok(made)
}

// The rows without their keys.
fn rows_of<K: Ord + Copy + Drop, X: Copy + Drop>(
    alloc: Global,
    made: &BTreeMap<K, X>,
) -> Result<Vec<X>, OutOfMemory>
    ensures { IfOk result (λ rows. rows.items ≡ map (λ p. p.1) made.now.entries) }
{
    let rows = made.values().copied().collect(alloc)?;
    Ok(rows)
}

/// The rows in the order of their keys. Of two of one key the first is kept.
pub fn table_of<K: Ord + Copy + Drop, X: Copy + Drop>(
    alloc: Global,
    rows: &[(K, X)],
) -> Result<Vec<X>, OutOfMemory>
    requires { IsAntisymmetric K.cmp }
    ensures { IfOk result (λ made. made.items ≡ map (λ p. p.1) (table K.cmp (λ p. p.0) rows.now)) }
{
    let made = map_of(alloc, rows)?;
    let list = rows_of(alloc, &made)?;
    Ok(list)
}
