//! The desk itself.
ghost use Rattle.std.specs.Prelude.{◌≡◌};

use crate::bells::Bells;
use crate::history::History;
use crate::rule::Board;

/// A value at which many threads take turns. Share it by `&`, start it with `start` and end it with
/// `close`.
pub struct Desk<V: History> {
    pub table: Board<V>,
    pub bells: Bells,
    pub ghost sized: { (table.shared.table_id.words ≡ 2) × (table.shared.table_id.slots ≡ 1) },
}

impl<V: History> Desk<V> {
    pub(crate) fn into_board(self) -> Board<V>
        ensures { result ≡ self.table }
    {
        let Self { table, bells: _ } = self;
        table
    }
}

impl<V: History + Drop> Drop for Desk<V> {
    fn drop(self) {
        let Self { table: _, bells: _ } = self;
    }
}
