//! A board that another caller calls once, in the midst of what its caller does.
ghost use Rattle.bbs_model.specs.PortView.{Looks};
ghost use Rattle.board_port.specs.Went.{seen_of};

use super::boards::CALLER;
use bbs_board::Board;
use bbs_model::{CallFault, Command, Heard, Port, Reply, Rows};
use board_port::uncounted_work;
use crash_backoff::Moment;
use diego_names::{List, OutOfMemory};
use disk_trait::Disk;
use std::alloc::Global;

/// The number of the other caller.
pub const VISITOR: u32 = 8;

/// The way of the first caller to a board that the visitor calls too.
#[derive(Drop)]
pub struct BesidePort<'a, D: Disk> {
    pub board: &'a mut Board<D>,
    /// The visit comes right before the caller's call of this number from now, from 1.
    pub until: u64,
    pub visit: Command,
}

// The visitor's call. What it comes to shows in the log.
fn pay_visit<D: Disk>(board: &mut Board<D>, visit: Command) -> Result<Reply, CallFault>
    ensures { Looks (seen_of 7 board.old) (seen_of 7 board.new) }
{
    let end = board.call(VISITOR, visit);
    board.holds();
    end
}

// The same, if it is time.
fn pay_visit_if<D: Disk>(board: &mut Board<D>, is_time: bool, visit: Command)
    ensures { Looks (seen_of 7 board.old) (seen_of 7 board.new) }
{
    if is_time {
        let _end = pay_visit(board, visit);
    } else {
        board.holds();
    }
}

impl<'a, D: Disk> Port for BesidePort<'a, D> {
    ghost use Rattle.board_port.specs.Went.{seen_of};

    ghost view = { λ p. seen_of 7 p.board.now };

    ghost number = { λ _. 7 };

    ghost keeps = { λ _ _. Unit {0} };

    ghost same = { λ _. tt };

    ghost goes_on = { λ _ _ _ _ _. tt };

    fn call(&mut self, command: Command) -> Result<Reply, CallFault> {
        pay_visit_if(self.board, self.until == 1, self.visit);
        self.until = self.until.saturating_sub(1);
        let end = self.board.call(CALLER, command);
        self.board.holds();
        end
    }

    fn rows(&mut self, alloc: Global) -> Result<Rows, OutOfMemory> {
        self.board.holds();
        self.board.rows(alloc)
    }

    fn work(&mut self, alloc: Global, now: Moment) -> Result<List<Command>, OutOfMemory> {
        self.board.holds();
        uncounted_work(self.board, alloc, now)
    }

    fn events(&mut self, alloc: Global, from: u64, max: u32) -> Result<Heard, OutOfMemory> {
        self.board.holds();
        self.board.events(alloc, from, max)
    }

    fn place(&mut self) -> u64 {
        self.board.place()
    }
}
