//! Why a job has no room: the cells, counted by what they lack.
ghost use Rattle.std.specs.Prelude.{◌≡◌, ◌+◌, ◌≤◌, ◌<◌, ◌^◌, ◌&&◌, if◌then◌else◌, length, max};
ghost use Rattle.room_facts.specs.Lacks.{same_lacks};
ghost use Rattle.room_facts.specs.Reasons.{larger, most_free, reasons_of};

use crate::lacking::{Lacking, has_tag, lacks};
use auctioneer::Stand;
use cell_records::{Amounts, Job};
use diego_names::Name;

/// How many cells are of no use to a job, by why. Each cell is under one of these alone.
#[derive(Clone, Copy, Debug, PartialEq, Eq)]
pub struct Reasons {
    /// All cells.
    pub cells: u64,
    /// Those with another tag than the job's. What they have free doesn't count.
    pub other_tag: u64,
    /// Those of the job's tag with too little memory, and with enough of all else.
    pub memory: u64,
    pub disk: u64,
    pub containers: u64,
    pub memory_disk: u64,
    pub memory_containers: u64,
    pub disk_containers: u64,
    pub memory_disk_containers: u64,
}

const NO_CELL: Reasons = Reasons {
    cells: 0,
    other_tag: 0,
    memory: 0,
    disk: 0,
    containers: 0,
    memory_disk: 0,
    memory_containers: 0,
    disk_containers: 0,
    memory_disk_containers: 0,
};

fn just(memory: bool, disk: bool, containers: bool) -> Lacking
    ensures { result ≡ record { memory = memory; disk = disk; containers = containers } }
{
    Lacking {
        memory,
        disk,
        containers,
    }
}

// One more, if it is so.
fn more(count: u64, so: bool) -> u64
    requires { count < 2 ^ 63 }
    ensures value { result ≡ count + (if so then 1 else 0) }
    ensures most { result ≤ count + 1 }
{
    if so { count + 1 } else { count }
}

// One more, if the cell has the job's tag and lacks just that.
fn more_of(count: u64, own: bool, lacks: Lacking, wanted: Lacking) -> u64
    requires { count < 2 ^ 63 }
    ensures value { result ≡ count + (if own && same_lacks lacks wanted then 1 else 0) }
    ensures most { result ≤ count + 1 }
{
    more(count, own && lacks == wanted)
}

/// Why the job has no room on the cells as they stand. If it has room on some, those are among the
/// cells and under none of the reasons.
pub fn reasons_of(job: &Job, stands: &[Stand]) -> Reasons
    requires { length stands.now ≤ 2 ^ 32 }
    ensures { result ≡ reasons_of job.now stands.now }
{
    let mut so_far = NO_CELL;
    for stand in stands {
        let own = has_tag(&job.tag, stand);
        let lacks = lacks(job, stand);
        so_far = Reasons {
            cells: so_far.cells + 1,
            other_tag: more(so_far.other_tag, !own),
            memory: more_of(so_far.memory, own, lacks, just(true, false, false)),
            disk: more_of(so_far.disk, own, lacks, just(false, true, false)),
            containers: more_of(so_far.containers, own, lacks, just(false, false, true)),
            memory_disk: more_of(so_far.memory_disk, own, lacks, just(true, true, false)),
            memory_containers: more_of(
                so_far.memory_containers,
                own,
                lacks,
                just(true, false, true),
            ),
            disk_containers: more_of(so_far.disk_containers, own, lacks, just(false, true, true)),
            memory_disk_containers: more_of(
                so_far.memory_disk_containers,
                own,
                lacks,
                just(true, true, true),
            ),
        };
    }
    so_far
}

// Of each amount the larger one.
fn larger(a: Amounts, b: Amounts) -> Amounts
    ensures { result ≡ larger a b }
{
    Amounts {
        memory: a.memory.max(b.memory),
        disk: a.disk.max(b.disk),
        containers: a.containers.max(b.containers),
    }
}

/// Of each amount the most that is free on a cell with the tag, each perhaps on another cell. If no
/// cell has the tag, all are 0.
pub fn most_free(tag: &Option<Name>, stands: &[Stand]) -> Amounts
    ensures { result ≡ most_free tag.now stands.now }
{
    let mut most = Amounts {
        memory: 0,
        disk: 0,
        containers: 0,
    };
    for stand in stands {
        if has_tag(tag, stand) {
            most = larger(most, stand.free);
        }
    }
    most
}
