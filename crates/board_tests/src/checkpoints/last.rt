//! The last generation, in which a board would make no checkpoint: no board is loaded from it.
use crate::asserts::holds;
use crate::making::disk_of;
use bbs_board::{LoadFault, load};
use disk_trait::{Area, Disk};
use std::alloc::Global;
use std::test::Fail;

// An area of the last generation after no transition.
const FIRST: [u8; 52] = *b"\x01DIEGOBBS\x00\x02\xff\xff\xff\xff\xff\xff\xff\xff\
\x00\x00\x00\x1c\x00\x00\x00\x00\x00\x00\x00\x00\x00\x00\x00\x00\x00\x00\x00\x00\x00\x00\x00\x00\
\x00\x00\x00\x00\x00\x00\x00\x00\x00";

// The same after as many transitions as its generation asks for.
const LAST: [u8; 52] = *b"\x01DIEGOBBS\x00\x02\xff\xff\xff\xff\xff\xff\xff\xff\
\x00\x00\x00\x1c\xff\xff\xff\xff\xff\xff\xff\xfe\x00\x00\x00\x00\x00\x00\x00\x00\x00\x00\x00\x00\
\x00\x00\x00\x00\x00\x00\x00\x00\x00";

fn refusal<D: Disk + Drop>(alloc: Global, disk: D) -> Option<LoadFault> {
    match load(alloc, disk) {
        Ok(_) => None,
        Err((_, fault)) => Some(fault),
    }
}

#[test]
fn no_board_is_loaded_from_the_last_generation(rt: HostRuntime) -> Result<(), Fail> {
    let alloc = rt.alloc();
    // A generation is at most two more than the number of transitions, which has a limit of its own.
    for (area, at) in [(&FIRST, 11), (&LAST, 23)] {
        let fault = refusal(alloc, disk_of(alloc, area, b"", &[])?);
        holds(&rt, fault == Some(LoadFault::Damaged { area: Area::A, at }));
    }
    Ok(())
}
