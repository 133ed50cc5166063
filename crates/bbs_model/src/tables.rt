//! Rows in a table by a plain scan, for rows of each kind.
ghost use Rattle.std.specs.Prelude.{◌≡◌, find};
ghost use Rattle.std.specs.Ordering.{eq_by_cmp};
ghost use Rattle.row_tables.specs.Table.{find_row};

use crate::Rowed;

/// The row at a key.
pub fn find_in<X: Rowed>(rows: &[X], key: &X::Key) -> Option<X>
    ensures { result ≡ find_row X.Key.cmp X.key key.now rows.now }
{
    first_tied(rows, key)
}

/// The first row whose key ties with this one.
fn first_tied<X: Rowed>(rows: &[X], key: &X::Key) -> Option<X>
    ensures { result ≡ find (λ x. eq_by_cmp X.Key.cmp key.now (X.key x)) rows.now }
{
    rows.iter().copied().find(|row| key.cmp(&row.key()).is_eq())
}
