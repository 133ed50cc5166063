//! What no clause says: that the calls of a port over a board in memory come to something, and with which answers.
mod asking;
mod calls;
mod failing;
mod hearing;

use crate::asserts::is_end;
use crate::making::{at, begun, desire, disk_in, disk_of};
use bbs_board::Board;
use bbs_model::{CallFault, Command, Op, Port, Reply};
use diego_names::{Key, Name};
use disk_trait::{Disk, MemoryDisk};
use std::alloc::Global;
use std::process::Abort;
use std::test::Fail;

// How many device calls prepare a board and load it.
const CALLS: u64 = 12;

// The board of an empty disk in memory, of which these calls fail.
fn begin(alloc: Global, failing: &[u64]) -> Result<Board<MemoryDisk>, Fail> {
    begun(alloc, disk_of(alloc, b"", b"", failing)?)
}

fn close<D: Disk + Drop>(board: Board<D>) {
    let _disk = disk_in(board);
}

fn make(letter: u8, index: u32) -> Result<Command, Fail> {
    let process = Name::read(&[letter])?;
    let key = Key { process, index };
    Ok(at(1, Op::Make { key }))
}

// The next transition, where nothing was in doubt before.
fn done(place: u64) -> Result<Reply, CallFault> {
    Ok(Reply::Ok {
        place,
        stamp: place,
    })
}

// Desires three instances of a process for each letter. Each of them is the next transition.
fn desire_each<P: Port>(rt: &impl Abort, port: &mut P, letters: &[u8]) -> Result<(), Fail> {
    let first = port.place();
    for (number, letter) in letters.iter().enumerate() {
        let place = first.saturating_add(number as u64);
        is_end(rt, port.call(desire(*letter, 3)?), done(place));
    }
    Ok(())
}
