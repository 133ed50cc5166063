//! Sizes of jobs that no cell had room for. What is free only falls, so a job that asks for as much
//! has no room either.
ghost use Rattle.std.specs.Prelude.{◌≡◌, List, IsTrue};
ghost use Rattle.auctioneer.specs.Least.{NoneFits};
ghost use Rattle.auctioneer.specs.Refused.{FitsNowhere, AreRefused, size_of, asks_as_much};
ghost use Rattle.auctioneer.specs.declared.stand.Stand.{Stand as AStand};

use cell_records::Job;
use diego_names::{Name, OutOfMemory};

// So many are remembered at most.
const MOST: usize = 16;

// What a job asks for.
#[derive(Clone, Copy)]
pub(crate) struct Size {
    tag: Option<Name>,
    memory: u32,
    disk: u32,
}

impl Size {
    fn of(job: &Job) -> Size
        ensures { result ≡ size_of job.now }
    {
        Size {
            tag: job.tag,
            memory: job.memory,
            disk: job.disk,
        }
    }

    // Whether the job asks for at least as much, under the same tag.
    fn is_within(&self, job: &Job) -> bool
        ensures { result ≡ asks_as_much job.now self.now }
    {
        job.tag == self.tag && self.memory <= job.memory && self.disk <= job.disk
    }

    // Whether it is at most another.
    fn is_at_most(&self, other: &Size) -> bool {
        self.tag == other.tag && self.memory <= other.memory && self.disk <= other.disk
    }
}

// Whether the job asks for as much as one that had no room.
pub(crate) fn is_refused(refused: &[Size], job: &Job) -> bool
    ensures { IsTrue result
        → (stands : List AStand) → AreRefused stands refused.now → NoneFits job.now stands }
{
    for size in refused {
        if size.is_within(job) {
            return true;
        }
    }
    false
}

// Adds a size.
fn add(
    refused: &mut Vec<Size>,
    tag: Option<Name>,
    memory: u32,
    disk: u32,
) -> Result<(), OutOfMemory>
    ensures { (stands : List AStand) → AreRefused stands refused.old.items
        → FitsNowhere stands (record { tag = tag; memory = memory; disk = disk })
        → AreRefused stands refused.new.items }
{
    let size = Size { tag, memory, disk };
    refused.push(size)?;
    Ok(())
}

// Remembers the size of a job that has no room, in place of one that is no smaller. It is forgotten
// if there are many, or no memory.
pub(crate) fn remember(refused: &mut Vec<Size>, job: &Job)
    ensures { (stands : List AStand) → AreRefused stands refused.old.items
        → NoneFits job.now stands → AreRefused stands refused.new.items }
{
    let size = Size::of(job);
    for at in 0..refused.len() {
        if size.is_at_most(&refused[at]) {
            refused[at] = size;
            return;
        }
    }
    if refused.len() < MOST {
        let _added = add(refused, job.tag, job.memory, job.disk);
    }
}
