//! A pass of a shared board as a port: what is written over any port runs beside other callers.
ghost use Rattle.std.specs.Prelude.{◌≡◌};

use crate::shared_board::{BoardPass, SharedBoard};
use bbs_model::{CallFault, Command, Heard, Port, Reply, Rows};
use crash_backoff::Moment;
use diego_names::{List, OutOfMemory};
use disk_trait::Disk;
use std::alloc::Global;
use std::sync::Wait;

/// One caller's way to a shared board. It has the pass for as long as it is there, and the runtime,
/// since the calls of a port are passed none. Each of its calls and looks waits for a turn.
#[derive(Drop)]
pub struct SharedPort<'a, R: Wait, D: Disk> {
    pub rt: &'a R,
    pub board: &'a SharedBoard<D>,
    pub pass: BoardPass<D>,
    pub ghost tied: { pass.place.table_id ≡ board.now.desk.table.shared.table_id },
}

impl<'a, R: Wait, D: Disk> Port for SharedPort<'a, R, D> {
    ghost use Rattle.bbs_shared.specs.Passes.{seen_by, IsSame, pass_same, pass_same_then};

    ghost view = { λ p. seen_by p.pass };

    ghost number = { λ p. p.pass.number };

    ghost keeps = { λ p q. IsSame p.pass q.pass };

    ghost same = { λ p. pass_same p.pass };

    ghost goes_on = { λ p q r. pass_same_then p.pass q.pass r.pass };

    fn call(&mut self, command: Command) -> Result<Reply, CallFault> {
        self.board.call(self.rt, &mut self.pass, command)
    }

    fn rows(&mut self, alloc: Global) -> Result<Rows, OutOfMemory> {
        self.board.rows(self.rt, &mut self.pass, alloc)
    }

    fn work(&mut self, alloc: Global, now: Moment) -> Result<List<Command>, OutOfMemory> {
        self.board.work(self.rt, &mut self.pass, alloc, now)
    }

    fn events(&mut self, alloc: Global, from: u64, max: u32) -> Result<Heard, OutOfMemory> {
        self.board.events(self.rt, &mut self.pass, alloc, from, max)
    }

    fn place(&mut self) -> u64 {
        self.board.place(self.rt, &mut self.pass)
    }
}

impl<'a, R: Wait, D: Disk> SharedPort<'a, R, D> {
    ghost use Rattle.std.specs.Prelude.{◌≡◌};

    /// The pass, when the port is not needed any more.
    pub fn into_pass(self) -> BoardPass<D>
        ensures { result ≡ self.entry.pass }
    {
        let Self {
            rt: _,
            board: _,
            pass,
        } = self;
        pass
    }
}

impl<D: Disk> SharedBoard<D> {
    ghost use Rattle.std.specs.Prelude.{◌≡◌};

    /// The pass as a port.
    pub fn port<'a, R: Wait>(&'a self, rt: &'a R, pass: BoardPass<D>) -> SharedPort<'a, R, D>
        requires board { pass.place.table_id ≡ self.now.desk.table.shared.table_id }
        ensures { result.pass ≡ pass }
    {
        SharedPort {
            rt,
            board: self,
            pass,
        }
    }
}
