//! How many jobs of a size find room.
ghost use Rattle.std.specs.Prelude.{◌≡◌, ◌≤◌, ◌^◌, length};
ghost use Rattle.room_facts.specs.Rooms.{at_most, room_for, room_on};

use crate::lacking::has_tag;
use auctioneer::Stand;
use cell_records::Job;

// How many of that size what is free holds, at most so many. A size of 0 bounds nothing.
fn at_most(most: u32, free: u32, size: u32) -> u32
    ensures { result ≡ at_most most free size }
{
    if size == 0 {
        most
    } else {
        most.min(free / size)
    }
}

// How many jobs of that size and tag the cell takes.
fn room_on(size: &Job, stand: &Stand) -> u32
    ensures { result ≡ room_on size.now stand.now }
{
    if !has_tag(&size.tag, stand) {
        return 0;
    }
    let free = stand.free;
    let by_memory = at_most(free.containers, free.memory, size.memory);
    at_most(by_memory, free.disk, size.disk)
}

/// How many jobs with the memory, the disk and the tag of this one the cells take: as many as any
/// scheduler can place, and as the auction does.
pub fn room_for(size: &Job, stands: &[Stand]) -> u64
    requires { length stands.now ≤ 2 ^ 32 }
    ensures { result ≡ room_for size.now stands.now }
{
    let mut total = 0;
    for stand in stands {
        total += u64::from(room_on(size, stand));
    }
    total
}
