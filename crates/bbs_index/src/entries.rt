//! The map under a shelf: what a put and a removal do to its entries.
ghost use Rattle.std.specs.Prelude.{◌≡◌, ◌+◌, ◌<◌, ◌≤◌, None, Some, is_some, if◌then◌else◌};
ghost use Rattle.indexmap.specs.IndexMap.{get, index_map_len, spare, with_value_at, IsUnique, Updates};
ghost use Rattle.bbs_model.specs.Store.{HasRoom, TakesRoom};

use bbs_model::Rowed;
use indexmap::IndexMap;

// Writes over the row that stands at the key, and else takes one place of the room that is spare.
pub(crate) fn put_entry<X: Rowed>(map: &mut IndexMap<X::Key, X>, row: X)
    requires { HasRoom (get X.Key.eq map.old (X.key row)) (spare map.old) }
    ensures updates { Updates X.Key.eq map.old map.new (X.key row) (Some row) }
    ensures len { index_map_len map.new ≡ index_map_len map.old
        + (if is_some (get X.Key.eq map.old (X.key row)) then 0 else 1) }
    ensures spare { TakesRoom (get X.Key.eq map.old (X.key row)) (spare map.old) (spare map.new) }
{
    let key = row.key();
    if let Some(place) = map.get_mut(&key) {
        *place = row;
        return;
    }
    match map.insert(key, row) {
        Ok(_) => {}
        Err(_) => unreachable!(),
    }
}

// Writes over the row of this number.
pub(crate) fn put_entry_at<X: Rowed>(map: &mut IndexMap<X::Key, X>, number: usize, row: X)
    requires { number < index_map_len map.old }
    ensures rows { map.new ≡ with_value_at map.old number row }
    ensures unique { IsUnique X.Key.eq map.old }
{
    let _len = map.len();
    map[number] = row;
}

// Takes the entry at the key away, if there is one.
pub(crate) fn remove_entry<X: Rowed>(map: &mut IndexMap<X::Key, X>, key: &X::Key)
    ensures updates { Updates X.Key.eq map.old map.new key.now None }
    ensures len { index_map_len map.new
        + (if is_some (get X.Key.eq map.old key.now) then 1 else 0) ≡ index_map_len map.old }
    ensures kept { spare map.old ≤ spare map.new }
{
    let _ = map.swap_remove(key);
}
