//! The pair that is shared, and the right to call it.
ghost use Rattle.std.specs.Prelude.{◌≡◌};

use crate::at_desk::{AtDesk, Starts};
use bbs_board::Board;
use bbs_model::Item;
use bbs_shared::Origin;
use disk_trait::Disk;
use ticket_desk::{Desk, Pass};

/// A pair that many threads may call, each by a pass of its own. Share it by `&`, make it with `start`
/// and end it with `close`.
pub struct SharedPair<D: Disk, E: Disk> {
    pub desk: Desk<AtDesk<D, E>>,
}

/// The right of one thread to call the pair. At run time it is a number.
pub type PairPass<D, E> = Pass<AtDesk<D, E>, Item, Origin<Starts<Board<D>, Board<E>>>>;

impl<D: Disk, E: Disk> SharedPair<D, E> {
    pub(crate) fn into_desk(self) -> Desk<AtDesk<D, E>>
        ensures { result ≡ self.desk }
    {
        let Self { desk } = self;
        desk
    }
}

impl<D: Disk + Drop, E: Disk + Drop> Drop for SharedPair<D, E> {
    fn drop(self) {
        let Self { desk: _ } = self;
    }
}
