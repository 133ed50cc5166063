use super::*;
use cell_records::{Amounts, Job, JobName};
use diego_names::{Key, Name};
use std::test::Fail;

const TOTALS: Amounts = Amounts {
    memory: 4096,
    disk: 16384,
    containers: 50,
};

fn view(cell: &[u8]) -> Result<CellView, Fail> {
    Ok(CellView {
        cell: Name::read(cell)?,
        tag: None,
        totals: TOTALS,
        free: TOTALS,
        in_zone: 0,
        on_cell: 0,
    })
}

fn job(memory: u32, disk: u32, tag: Option<Name>) -> Result<Job, Fail> {
    let process = Name::read(b"web")?;
    Ok(Job {
        job: JobName::Lrp(Key { process, index: 0 }),
        memory,
        disk,
        tag,
    })
}

#[test]
fn a_cell_fits_by_its_tag_and_what_it_has_free(rt: HostRuntime) -> Result<(), Fail> {
    let gpu = Some(Name::read(b"gpu")?);
    let ssd = Some(Name::read(b"ssd")?);
    let plain = view(b"c1")?;
    let tagged = CellView { tag: gpu, ..plain };
    let no_slot = Amounts {
        containers: 0,
        ..TOTALS
    };
    let taken = CellView {
        free: no_slot,
        ..plain
    };
    for (number, job, view, want) in [
        (1, job(4096, 16384, None)?, plain, true),
        (2, job(4097, 1, None)?, plain, false),
        (3, job(1, 16385, None)?, plain, false),
        (4, job(1, 1, None)?, taken, false),
        (5, job(1, 1, gpu)?, plain, false),
        (6, job(1, 1, None)?, tagged, false),
        (7, job(1, 1, ssd)?, tagged, false),
        (8, job(1, 1, gpu)?, tagged, true),
    ] {
        assert_eq!(rt; fits(&job, &view), want, "{number}");
    }
    Ok(())
}

#[test]
fn the_load_is_in_thousandths_and_0_of_nothing(rt: HostRuntime) -> Result<(), Fail> {
    let empty = view(b"c1")?;
    let none = Amounts {
        memory: 0,
        disk: 0,
        containers: 0,
    };
    let left = |memory, disk, containers| Amounts {
        memory,
        disk,
        containers,
    };
    for (totals, free, want) in [
        (TOTALS, TOTALS, 0),
        (TOTALS, left(4096 - 512, 16384 - 1024, 49), 125 + 62 + 20),
        (TOTALS, left(4096 - 256, 16384 - 1024, 49), 62 + 62 + 20),
        (TOTALS, left(4096 - 128, 16384 - 512, 49), 31 + 31 + 20),
        (TOTALS, none, 3000),
        (none, none, 0),
    ] {
        let seen = CellView {
            totals,
            free,
            ..empty
        };
        assert!(rt; free.memory <= totals.memory);
        assert!(rt; free.disk <= totals.disk);
        assert!(rt; free.containers <= totals.containers);
        assert_eq!(rt; score(&seen).load, want);
    }
    Ok(())
}

#[test]
fn the_zone_goes_before_the_cell_the_load_and_the_name(rt: HostRuntime) -> Result<(), Fail> {
    scores_are_ordered();
    better_is_total();
    let score = |in_zone, on_cell, load, cell| Score {
        in_zone,
        on_cell,
        load,
        cell,
    };
    let c1 = Name::read(b"c1")?;
    let c2 = Name::read(b"c2")?;
    let rising = [
        score(0, 0, 9, c2),
        score(1, 0, 7, c2),
        score(1, 1, 5, c2),
        score(1, 1, 6, c1),
        score(1, 1, 6, c2),
    ];
    for pair in rising.windows(2) {
        assert!(rt; better(&pair[0], &pair[1]));
        assert!(rt; !better(&pair[1], &pair[0]));
    }
    Ok(())
}
