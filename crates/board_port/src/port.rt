//! A board behind a port, with nobody between the calls.
use crate::uncounted::uncounted_work;
use bbs_board::Board;
use bbs_model::{CallFault, Command, Heard, Port, Reply, Rows};
use crash_backoff::Moment;
use diego_names::{List, OutOfMemory};
use disk_trait::Disk;
use std::alloc::Global;

/// The way of a board's one caller to it. As long as the port is there nobody else can call the
/// board, so its caller has always seen the whole log. Each call costs what the board's own costs.
#[derive(Drop)]
pub struct SolePort<'a, D: Disk> {
    pub board: &'a mut Board<D>,
    /// The caller's number, which each item that it makes has.
    pub by: u32,
}

impl<'a, D: Disk> Port for SolePort<'a, D> {
    ghost use Rattle.board_port.specs.Went.{seen_of, Went, went_same, went_on};

    ghost view = { λ p. seen_of p.by p.board.now };

    ghost number = { λ p. p.by };

    ghost keeps = { λ p q. Went D.told p.by q.by p.board.ghost_name q.board.ghost_name
        p.board.now q.board.now };

    ghost same = { λ p. went_same D.told p.by p.board.ghost_name p.board.now };

    ghost goes_on = { λ p q r. went_on D.told p.by q.by r.by p.board.ghost_name q.board.ghost_name
        r.board.ghost_name p.board.now q.board.now r.board.now };

    fn call(&mut self, command: Command) -> Result<Reply, CallFault> {
        let end = self.board.call(self.by, command);
        self.board.holds();
        end
    }

    fn rows(&mut self, alloc: Global) -> Result<Rows, OutOfMemory> {
        self.board.holds();
        self.board.rows(alloc)
    }

    fn work(&mut self, alloc: Global, now: Moment) -> Result<List<Command>, OutOfMemory> {
        self.board.holds();
        uncounted_work(self.board, alloc, now)
    }

    fn events(&mut self, alloc: Global, from: u64, max: u32) -> Result<Heard, OutOfMemory> {
        self.board.holds();
        self.board.events(alloc, from, max)
    }

    fn place(&mut self) -> u64 {
        self.board.place()
    }
}
