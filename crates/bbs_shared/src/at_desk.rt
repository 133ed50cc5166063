//! The value at which the threads take turns.
use crate::origin::Origin;
use bbs_board::Board;
use bbs_model::Item;
use disk_trait::Disk;
use std::marker::Model;
use std::snapshot::Snapshot;
use ticket_desk::History;

/// A board whose history is its log, and how it was when it was first shared. It went on from there.
#[derive(Drop)]
pub struct AtDesk<D: Disk> {
    pub(crate) board: Board<D>,
    // For clauses alone: it has no bytes.
    pub(crate) start: Snapshot<Board<D>>,
}

impl<D: Disk> Model for AtDesk<D> {
    ghost use Rattle.bbs_shared.specs.Boards.{BoardStanding, HasGone};

    ghost Value = { BoardStanding D };

    ghost view = { λ at. record { board = at.board; start = at.start.value } };

    ghost invariant = { λ at. HasGone D.told at.start.value at.board };
}

impl<D: Disk> History for AtDesk<D> {
    ghost use Rattle.bbs_model.specs.Calls.{by_of};
    ghost use Rattle.bbs_shared.specs.Boards.{log_of, origin_of};

    type Item = Item;

    type Origin = Origin<Board<D>>;

    ghost items = { log_of };

    ghost origin = { origin_of };

    ghost by = { by_of };
}

impl<D: Disk> AtDesk<D> {
    ghost use Rattle.std.specs.Prelude.{◌≡◌};
    ghost use Rattle.bbs_shared.specs.Boards.{HasGone};

    pub(crate) fn new(board: Board<D>) -> AtDesk<D>
        ensures { result ≡ record { board = board; start = board } }
    {
        let start = Snapshot::of(&board);
        AtDesk { board, start }
    }

    pub(crate) fn into_board(self) -> Board<D>
        ensures board { result ≡ self.board }
        ensures gone { HasGone D.told self.start result }
    {
        let AtDesk { board, start: _ } = self;
        board
    }
}
