//! The value at which the threads take turns.
use bbs_board::Board;
use bbs_model::Item;
use bbs_shared::Origin;
use disk_trait::Disk;
use standby_board::Pair;
use std::marker::Model;
use ticket_desk::History;

/// Both boards of a pair as it was started, and the floor of its fence. No value of this type is made:
/// it stands in clauses alone.
pub struct Starts<S, T> {
    pub primary: S,
    pub standby: T,
    pub floor: u64,
}

/// A pair whose history is the log of its primary. Clauses see it as the pair.
#[derive(Drop)]
pub struct AtDesk<D: Disk, E: Disk> {
    pub(crate) pair: Pair<D, E>,
}

impl<D: Disk, E: Disk> Model for AtDesk<D, E> {
    ghost use Rattle.standby_board.specs.Pairs.{PairView};

    ghost Value = { PairView D E };

    ghost view = { λ at. at.pair };
}

impl<D: Disk, E: Disk> History for AtDesk<D, E> {
    ghost use Rattle.bbs_model.specs.Calls.{by_of};
    ghost use Rattle.pair_desk.specs.Standing.{log_of, origin_of};

    type Item = Item;

    type Origin = Origin<Starts<Board<D>, Board<E>>>;

    ghost items = { log_of };

    ghost origin = { origin_of };

    ghost by = { by_of };
}

impl<D: Disk, E: Disk> AtDesk<D, E> {
    ghost use Rattle.std.specs.Prelude.{◌≡◌};

    pub(crate) fn new(pair: Pair<D, E>) -> AtDesk<D, E>
        ensures { result ≡ pair }
    {
        AtDesk { pair }
    }

    pub(crate) fn into_pair(self) -> Pair<D, E>
        ensures { result ≡ self }
    {
        let AtDesk { pair } = self;
        pair
    }
}
