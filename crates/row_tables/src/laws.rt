//! The laws that tables obey, for each type of rows and each order of keys that tells keys apart.
//! None of these functions does anything: each is there for what it ensures.
ghost use Rattle.std.specs.declared.cmp.Ordering.{Ordering};
ghost use Rattle.row_tables.specs.Table.{IsKeyOrder};
ghost use Rattle.row_tables.specs.Laws.{FindsAfterPut, FindsAfterRemoval, KeepRising, CountRows, SumRows, SameRows, FindsItsRows, SortsToTable};

/// What is found after a row was put.
pub fn finds_after_put<K, X>()
    ensures { (R : K → K → Ordering) (key : X → K) → IsKeyOrder R → FindsAfterPut R key }
{}

/// What is found after a row was removed.
pub fn finds_after_removal<K, X>()
    ensures { (R : K → K → Ordering) (key : X → K) → IsKeyOrder R → FindsAfterRemoval R key }
{}

/// What is found are the table's own rows, each at its key.
pub fn finds_its_rows<K, X>()
    ensures { (R : K → K → Ordering) (key : X → K) → IsKeyOrder R → FindsItsRows R key }
{}

/// A put and a removal leave a table.
pub fn keeps_rising<K, X>()
    ensures { (R : K → K → Ordering) (key : X → K) → IsKeyOrder R → KeepRising R key }
{}

/// How many rows a put and a removal leave.
pub fn length_after_change<K, X>()
    ensures { (R : K → K → Ordering) (key : X → K) → IsKeyOrder R → CountRows R key }
{}

/// What a put and a removal do to a sum over the rows.
pub fn sum_after_change<K, X>()
    ensures { (R : K → K → Ordering) (key : X → K) → IsKeyOrder R → SumRows R key }
{}

/// Tables that answer alike at each key are one.
pub fn same_rows<K, X>()
    ensures { (R : K → K → Ordering) (key : X → K) → IsKeyOrder R → SameRows R key }
{}

/// The same rows in rising order are their table.
pub fn sorts_to_table<K, X>()
    ensures { (R : K → K → Ordering) (key : X → K) → IsKeyOrder R → SortsToTable R key }
{}

#[cfg(test)]
mod tests {
    use super::*;

    #[test]
    fn the_laws_hold_for_rows_of_bytes_by_numbers() {
        finds_after_put::<u32, u8>();
        finds_after_removal::<u32, u8>();
        finds_its_rows::<u32, u8>();
        keeps_rising::<u32, u8>();
        length_after_change::<u32, u8>();
        sum_after_change::<u32, u8>();
        same_rows::<u32, u8>();
        sorts_to_table::<u32, u8>();
    }
}
