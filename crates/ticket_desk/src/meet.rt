//! How one pass learns what another has seen, without a turn.
use crate::desk::Desk;
use crate::history::History;
use crate::pass::PassOf;
use crate::plays::{Catch, Hear, Note};

impl<V: History> Desk<V> {
    ghost use Rattle.std.specs.Prelude.{◌≡◌};
    ghost use Rattle.ticket_desk.specs.Passes.{view_of, IsSamePass};
    ghost use Rattle.ticket_desk.specs.Turns.{Met};

    /// From now on the hearer knows that the history has all that the teller has seen. It takes no
    /// ticket, waits for nobody and takes no memory.
    pub fn meet(&self, teller: &mut PassOf<V>, hearer: &mut PassOf<V>)
        requires teller { teller.old.place.table_id ≡ self.now.table.shared.table_id }
        requires hearer { hearer.old.place.table_id ≡ self.now.table.shared.table_id }
        ensures teller { IsSamePass teller.old teller.new
            × (view_of teller.new ≡ view_of teller.old) }
        ensures hearer { IsSamePass hearer.old hearer.new }
        ensures met { Met (view_of teller.old).seen (view_of hearer.old) (view_of hearer.new) }
    {
        let top = &self.table.shared;
        let note = top.split_seat::<Note>(&mut teller.place);
        let place = &mut hearer.place;
        top.join_seat::<Hear>(place, note);
        top.load::<Catch>(place, 1);
    }
}
