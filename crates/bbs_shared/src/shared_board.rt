//! The board that is shared, and the right to call it.
ghost use Rattle.std.specs.Prelude.{◌≡◌};

use crate::at_desk::AtDesk;
use crate::origin::Origin;
use bbs_board::Board;
use bbs_model::Item;
use disk_trait::Disk;
use ticket_desk::{Desk, Pass};

/// A board that many threads may call, each by a pass of its own. Share it by `&`, make it with
/// `start` and end it with `close`.
pub struct SharedBoard<D: Disk> {
    pub desk: Desk<AtDesk<D>>,
    pub ghost begun: { desk.table.shared.key.value.board ≡ desk.table.shared.key.value.start },
}

/// The right of one thread to call the board. At run time it is a number.
pub type BoardPass<D> = Pass<AtDesk<D>, Item, Origin<Board<D>>>;

impl<D: Disk> SharedBoard<D> {
    pub(crate) fn into_desk(self) -> Desk<AtDesk<D>>
        ensures { result ≡ self.desk }
    {
        let Self { desk } = self;
        desk
    }
}

impl<D: Disk + Drop> Drop for SharedBoard<D> {
    fn drop(self) {
        let Self { desk: _ } = self;
    }
}
