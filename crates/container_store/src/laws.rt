//! What comes of a reservation. A law does nothing: it is there for what it ensures.
ghost use Rattle.container_store.specs.Laws.{GivesUp};

/// The container that was reserved last can be given up, and its number is not given again.
pub fn a_reservation_can_be_given_up()
    ensures { GivesUp }
{}
