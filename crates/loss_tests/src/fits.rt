//! More instances of a process: what is told of where they would go was worked out by hand.
ghost use Rattle.what_if.specs.Sites.{IsSite};

use crate::dumps::{A_0, A_1, NO_A, S_0, S_1, rank, site_of};
use diego_names::Name;
use dump_lines::Demand;
use forecast_records::Fitted;
use loss_cases::fit;
use std::alloc::Global;
use std::test::Fail;
use what_if::Site;

// Placed, without room, room for so many, zones and cells that take some, the verdict.
fn counts_of(told: &Fitted) -> [u64; 6] {
    [
        told.placed,
        told.unplaced,
        told.room_for,
        told.zones.len() as u64,
        told.filled.len() as u64,
        rank(told.verdict),
    ]
}

fn fit_of(
    alloc: Global,
    site: &Site,
    process: Name,
    instances: u32,
    demand: Demand,
) -> Option<[u64; 6]>
    requires { IsSite site.now }
{
    match fit(alloc, site, 0, process, instances, demand) {
        Ok(told) => Some(counts_of(&told)),
        Err(_) => None,
    }
}

// So many instances more, on three cells without a tag and two of one.
fn more(alloc: Global, process: Name, instances: u32, demand: Demand) -> Option<[u64; 6]> {
    match site_of(alloc, &[A_0, A_1, NO_A, S_0, S_1]) {
        Some(site) => fit_of(alloc, &site, process, instances, demand),
        None => None,
    }
}

// Of 300 MB each c1 and c2 take two, c3 three, and each of i1 and i2 one.
#[test]
fn more_instances_fill_what_there_is(rt: HostRuntime) -> Result<(), Fail> {
    let process = Name::read(b"b")?;
    let (iso, gpu) = (Some(Name::read(b"iso")?), Some(Name::read(b"gpu")?));
    for (number, tag, instances, wanted) in [
        (1, None, 5, [5, 0, 7, 2, 3, 0]),
        (2, None, 8, [7, 1, 7, 2, 3, 2]),
        (3, None, 0, [0, 0, 7, 0, 0, 0]),
        (4, iso, 2, [2, 0, 2, 2, 2, 0]),
        (5, iso, 3, [2, 1, 2, 2, 2, 2]),
        (6, gpu, 1, [0, 1, 0, 0, 0, 2]),
    ] {
        let demand = Demand {
            memory: 300,
            disk: 100,
            tag,
        };
        let told = more(rt.alloc(), process, instances, demand);
        assert_eq!(rt; told, Some(wanted), "{number}");
    }
    Ok(())
}

// Want of nothing is bounded by containers alone: c1 and c2 have 9 free, and c3 has 10.
#[test]
fn instances_of_no_size_take_containers(rt: HostRuntime) -> Result<(), Fail> {
    let process = Name::read(b"a")?;
    let demand = Demand {
        memory: 0,
        disk: 0,
        tag: None,
    };
    let told = more(rt.alloc(), process, 29, demand);
    assert_eq!(rt; told, Some([28, 1, 28, 2, 3, 2]));
    Ok(())
}
