//! The numbers that were shown, and those with which something was written.
ghost use Rattle.std.specs.Prelude.{◌≡◌, ◌≤◌, ◌↔◌, OnOk, IsOk, IsTrue};
ghost use Rattle.bbs_board.specs.Kept.{RiseBetween};
ghost use Rattle.fenced_board.specs.Fences.{IsNewFence, after_showing, after_noting};

use diego_names::OutOfMemory;
use std::alloc::Global;
use std::marker::Model;

/// The greatest number that was shown, and the numbers that were noted, which never fall: each lies
/// between the floor and the greatest one.
#[derive(Drop)]
pub struct Fence {
    floor: u64,
    greatest: u64,
    numbers: Vec<u64>,
}

impl Model for Fence {
    ghost use Rattle.std.specs.Prelude.{◌-◌, vec_len, vec_capacity};
    ghost use Rattle.bbs_board.specs.Kept.{RiseBetween};
    ghost use Rattle.fenced_board.specs.Fences.{FenceView};

    ghost Value = { FenceView };

    ghost view = { λ f. record {
      floor = f.floor;
      greatest = f.greatest;
      numbers = f.numbers.items;
      room = vec_capacity f.numbers - vec_len f.numbers;
    } };

    ghost invariant = { λ f. RiseBetween f.floor f.numbers.items f.greatest };
}

impl Fence {
    /// A fence at which nothing was shown. It takes no memory.
    pub fn new(alloc: Global, floor: u64) -> Fence
        ensures { IsNewFence floor result }
    {
        Fence {
            floor,
            greatest: floor,
            numbers: Vec::new(alloc),
        }
    }

    /// Shows a number: whether none greater was shown before. It takes no memory.
    pub fn show(&mut self, number: u64) -> bool
        ensures taken { IsTrue result ↔ (self.old.greatest ≤ number) }
        ensures shown { self.new ≡ after_showing number self.old }
    {
        if number < self.greatest {
            return false;
        }
        self.greatest = number;
        true
    }

    /// Makes room for `n` more numbers. It fails only for want of memory.
    pub fn reserve(&mut self, n: usize) -> Result<(), OutOfMemory>
        ensures stays { self.new ≡ record self.old { room = self.new.room } }
        ensures room { OnOk result (n ≤ self.new.room) }
        ensures succeeds { n ≤ self.old.room → IsOk result }
        ensures kept { self.old.room ≤ self.new.room }
    {
        self.numbers.reserve(n)?;
        Ok(())
    }

    /// Notes that something was written with the greatest number. It takes no memory.
    pub fn note(&mut self)
        requires { 1 ≤ self.old.room }
        ensures { self.new ≡ after_noting self.old }
    {
        self.numbers.push_reserved(self.greatest);
    }

    /// The greatest number that was shown, and the floor before the first.
    pub fn greatest(&self) -> u64
        ensures { result ≡ self.now.greatest }
    {
        self.greatest
    }

    /// The numbers that were noted, oldest first. They never fall, and none is below the floor.
    pub fn numbers(&self) -> &[u64]
        ensures value { result.now ≡ self.now.numbers }
        ensures rising { RiseBetween self.now.floor self.now.numbers self.now.greatest }
    {
        &self.numbers
    }
}
