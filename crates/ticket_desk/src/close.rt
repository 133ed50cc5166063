//! How a desk ends.
ghost use Rattle.std.specs.Prelude.{◌≡◌, ◌++◌, [], ◌∷◌, map, Some};
ghost use Rattle.ticket_desk.specs.Passes.{AreAll, IsClosed};
ghost use Rattle.ticket_desk.specs.Tables.{IsDesk};
ghost use Rattle.ticket_desk.specs.Ends.{AreOf, told_of, HasAll, IsLeft};

use crate::desk::Desk;
use crate::history::History;
use crate::pass::PassOf;
use crate::plays::Gather;
use crate::rule::{Board, Place, Top};

// Joins all of these passes into the first.
fn gather<V: History>(top: &Top<V>, first: &mut Place<V>, mut rest: Vec<PassOf<V>>)
    requires board { IsDesk top.now.table_id first.old.table_id }
    requires rest { AreOf top.now.table_id rest.items }
    ensures board { first.new.table_id ≡ first.old.table_id }
    ensures joined { let m = first.old.me in
        first.new.me ≡ (record m.0 { joined = map told_of rest.items ++ m.0.joined }, m.1) }
{
    while let Some(pass) = rest.pop() {
        top.join_seat::<Gather>(first, pass.into_place());
    }
}

// Ends the board of a seat that has all numbers but its own joined to it.
fn end<V: History>(board: Board<V>, first: Place<V>) -> V
    requires board { IsDesk board.shared.table_id first.table_id }
    requires all { HasAll first.me.0 }
    ensures { IsLeft V.items V.origin V.by board.shared.key.value first.me.0 result }
{
    let mut closed = board.close_with(first);
    let found = closed.take(0);
    closed.free();
    found.unwrap()
}

// Ends a board with all passes of it, in order of number.
fn end_with_all<V: History>(board: Board<V>, mut passes: Vec<PassOf<V>>) -> V
    requires sized { (board.shared.table_id.words ≡ 2) × (board.shared.table_id.slots ≡ 1) }
    requires all { AreAll board.shared.table_id passes.items }
    ensures { IsClosed V.items V.origin V.by board.shared.key.value result passes.items }
{
    let mut first = passes.remove(0).into_place();
    gather(&board.shared, &mut first, passes);
    end(board, first)
}

impl<V: History> Desk<V> {
    /// The value, after all turns. `passes` are all that `start` gave, in order of number.
    pub fn close(self, passes: Vec<PassOf<V>>) -> V
        requires { AreAll self.table.shared.table_id passes.items }
        ensures { IsClosed V.items V.origin V.by self.table.shared.key.value result passes.items }
    {
        end_with_all(self.into_board(), passes)
    }
}
