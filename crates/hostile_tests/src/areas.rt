//! Areas that were cut short or changed: what a load says of each. The boards are one desire in each version of the
//! format: 81 bytes in the first, whose frame has its gate at 47, and 85 in the second, with its gate at 51.
mod changed;
mod cut;
mod two;

use bbs_board::{KeptIn, LoadFault, load_from_memory};
use disk_trait::{Area, MemoryDisk};
use run_trials::disk_of;
use std::alloc::Global;
use std::process::Abort;
use std::test::Fail;

// What a load comes to: where the board is kept, or why there is none.
type Opening = Result<KeptIn, LoadFault>;

// What a table says of it.
#[derive(Clone, Copy)]
enum Told {
    NoBoard(Area),
    Damaged(Area, u64),
    // At the end of area A.
    AtEnd,
    // In area A, with its one frame and of this generation.
    Opened(u64),
}

// The same as a load says it, where area A has so many bytes.
fn as_told(told: Told, len: u64) -> Opening {
    match told {
        Told::NoBoard(area) => Err(LoadFault::NotABoard { area }),
        Told::Damaged(area, at) => Err(LoadFault::Damaged { area, at }),
        Told::AtEnd => Err(LoadFault::Damaged {
            area: Area::A,
            at: len,
        }),
        Told::Opened(generation) => Ok(KeptIn {
            area: Area::A,
            generation,
            frames: 1,
        }),
    }
}

fn opening_of(alloc: Global, disk: MemoryDisk) -> Opening {
    match load_from_memory(alloc, disk) {
        Ok(board) => Ok(board.kept_in()),
        Err((_, fault)) => Err(fault),
    }
}

fn is_opening(rt: &impl Abort, line: u64, got: Opening, wanted: Opening) {
    assert_eq!(rt; got, wanted, "at {line}");
}

// A load of these areas comes to this. The number tells the line of the table.
fn are_told(
    rt: &impl Abort,
    alloc: Global,
    line: u64,
    (a, b): (&[u8], &[u8]),
    told: Told,
) -> Result<(), Fail> {
    let disk = disk_of(alloc, a, b, &[])?;
    is_opening(
        rt,
        line,
        opening_of(alloc, disk),
        as_told(told, a.len() as u64),
    );
    Ok(())
}
