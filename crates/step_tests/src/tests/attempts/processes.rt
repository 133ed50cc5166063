use super::*;

fn desired(instances: u32) -> Result<Desired, NameFault> {
    let process = web()?;
    Ok(Desired {
        process,
        domain: apps()?,
        instances,
        memory: 64,
        disk: 128,
        tag: None,
        route: None,
        port: 8080,
    })
}

// A board with so many processes, which want so many instances together.
fn processes(desired: u32, wanted: u32) -> Found {
    let counts = Counts {
        desired,
        wanted,
        ..NO_ROWS.counts
    };
    Found { counts, ..NO_ROWS }
}

// A board with this process, on which all want so many instances together.
fn desired_at(row: Desired, wanted: u32) -> Found {
    Found {
        desired: Some(row),
        ..processes(1, wanted)
    }
}

fn update(row: &Desired) -> Op {
    Op::Update {
        process: row.process,
        instances: row.instances,
        route: row.route,
        port: row.port,
    }
}

#[test]
fn a_process_is_desired_up_to_three_limits(rt: HostRuntime) -> Result<(), Fail> {
    let row = desired(1000)?;
    let most = Op::Desire { desired: row };
    let above = Op::Desire {
        desired: desired(1001)?,
    };
    let known = Found {
        desired: Some(row),
        ..processes(5000, 50_000)
    };
    each_comes_to(
        &rt,
        &[
            (known, above, refuse(BoardRefusal::Exists)),
            (processes(5000, 50_000), above, too_many(5000)),
            (processes(4999, 50_000), above, too_many(1000)),
            (processes(4999, 49_001), most, too_many(50_000)),
            (processes(4999, 49_000), most, put(Row::Desired(row))),
        ],
    );
    Ok(())
}

#[test]
fn a_process_that_asks_for_the_same_passes_no_limit(rt: HostRuntime) -> Result<(), Fail> {
    let row = desired(5)?;
    let above = update(&desired(1001)?);
    let port = Desired { port: 80, ..row };
    let route = Desired {
        route: Some(web()?),
        ..row
    };
    let fewer = desired(4)?;
    each_comes_to(
        &rt,
        &[
            (processes(1, 5), above, refuse(BoardRefusal::Unknown)),
            (desired_at(row, 50_001), update(&row), Attempt::Keep),
            (desired_at(row, 50_001), update(&port), too_many(50_000)),
            (desired_at(row, 50_000), above, too_many(1000)),
            (
                desired_at(row, 50_000),
                update(&desired(6)?),
                too_many(50_000),
            ),
            (
                desired_at(row, 50_000),
                update(&port),
                put(Row::Desired(port)),
            ),
            (
                desired_at(row, 50_000),
                update(&route),
                put(Row::Desired(route)),
            ),
            (
                desired_at(row, 50_000),
                update(&fewer),
                put(Row::Desired(fewer)),
            ),
        ],
    );
    Ok(())
}

#[test]
fn only_a_desired_process_is_dropped(rt: HostRuntime) -> Result<(), Fail> {
    let row = desired(5)?;
    let op = Op::Undesire { process: web()? };
    let unknown = refuse(BoardRefusal::Unknown);
    each_comes_to(&rt, &[(processes(0, 0), op, unknown)]);
    each_comes_to(&rt, &[(desired_at(row, 5), op, dropped(&row))]);
    Ok(())
}

fn dropped(row: &Desired) -> Attempt {
    drop_row(Row::Desired(*row))
}

fn make(index: u32) -> Result<Op, NameFault> {
    let process = web()?;
    let key = Key { process, index };
    Ok(Op::Make { key })
}

// A board that wants so many instances, and has so many actual rows.
fn wanted(instances: u32, actual: u32) -> Result<Found, NameFault> {
    let counts = Counts {
        actual,
        ..NO_ROWS.counts
    };
    Ok(Found {
        desired: Some(desired(instances)?),
        counts,
        ..NO_ROWS
    })
}

// The row that is made of an instance, in the domain of its process.
fn made() -> Result<Actual, NameFault> {
    Ok(Actual {
        since: NOW,
        ..lrps::unclaimed()?
    })
}

fn with_row(found: Found) -> Result<Found, NameFault> {
    Ok(Found {
        ordinary: Some(made()?),
        ..found
    })
}

#[test]
fn an_instance_is_made_where_it_is_wanted(rt: HostRuntime) -> Result<(), Fail> {
    let not_wanted = refuse(BoardRefusal::NotWanted);
    let new = put(Row::Actual(made()?));
    each_comes_to(
        &rt,
        &[
            (with_row(NO_ROWS)?, make(2)?, not_wanted),
            (with_row(wanted(3, 100_000)?)?, make(3)?, not_wanted),
            (
                with_row(wanted(3, 100_000)?)?,
                make(2)?,
                refuse(BoardRefusal::Exists),
            ),
            (wanted(3, 100_000)?, make(2)?, too_many(100_000)),
            (wanted(3, 99_999)?, make(2)?, new),
        ],
    );
    Ok(())
}
