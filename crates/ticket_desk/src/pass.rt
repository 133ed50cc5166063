//! The right of one thread to take turns.
ghost use Rattle.std.specs.Prelude.{◌≡◌, [], Some};
ghost use Rattle.ticket_desk.specs.Rule.{IsIdle};

use crate::history::History;
use crate::view::View;
use atomic_table::Seat;

/// A pass has a number of its own and carries what its thread has seen and made. At run time it is
/// that number alone.
pub struct Pass<V, T, O> {
    pub place: Seat<Option<V>, View<T, O>>,
    pub number: u32,
    pub ghost numbered: { place.me.0.number ≡ Some number },
    pub ghost idle: { IsIdle place.me },
}

pub type PassOf<V> = Pass<V, <V as History>::Item, <V as History>::Origin>;

impl<V, T, O> Pass<V, T, O> {
    /// The number that the items of this pass carry.
    pub fn number(&self) -> u32
        ensures { result ≡ self.now.number }
    {
        self.number
    }

    pub(crate) fn into_place(self) -> Seat<Option<V>, View<T, O>>
        ensures { result ≡ self.place }
    {
        let Self { place, number: _ } = self;
        place
    }
}

impl<V, T, O> Drop for Pass<V, T, O> {
    fn drop(self) {
        let Self {
            place: _,
            number: _,
        } = self;
    }
}
