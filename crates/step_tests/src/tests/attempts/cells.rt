use super::*;

fn with(row: &CellRow) -> Found {
    Found {
        cell: Some(*row),
        ..NO_ROWS
    }
}

fn full(cell: Option<CellRow>, cells: u32) -> Found {
    let counts = Counts {
        cells,
        ..NO_ROWS.counts
    };
    Found {
        cell,
        counts,
        ..NO_ROWS
    }
}

fn join(row: &CellRow, ttl: u32) -> Op {
    Op::Join {
        cell: row.cell,
        zone: row.zone,
        tag: row.tag,
        totals: row.totals,
        ttl,
    }
}

fn renew(row: &CellRow, epoch: u64, ttl: u32) -> Op {
    let cell = row.cell;
    Op::Renew { cell, epoch, ttl }
}

fn drain(row: &CellRow, epoch: u64) -> Op {
    let cell = row.cell;
    Op::Drain { cell, epoch }
}

#[test]
fn a_cell_joins_anew_on_a_board_full_of_cells(rt: HostRuntime) -> Result<(), Fail> {
    let row = cell(17)?;
    let op = join(&row, 100);
    let old = CellRow {
        evacuating: true,
        until: 7,
        ..cell(3)?
    };
    let longest = CellRow {
        until: 4_294_967_695,
        ..row
    };
    each_comes_to(
        &rt,
        &[
            (full(None, 1000), op, too_many(1000)),
            (full(None, 999), op, put(Row::Cell(row))),
            (full(Some(old), 1000), op, put(Row::Cell(row))),
            (
                full(None, 0),
                join(&row, 4_294_967_295),
                put(Row::Cell(longest)),
            ),
        ],
    );
    Ok(())
}

#[test]
fn a_cell_renews_its_lease_by_its_own_epoch(rt: HostRuntime) -> Result<(), Fail> {
    let row = cell(9)?;
    let unknown = refuse(BoardRefusal::UnknownCell);
    let stale = refuse(BoardRefusal::StaleEpoch { now: 9 });
    let longer = CellRow { until: 501, ..row };
    // A cell that is being emptied stays so.
    let leaving = put(Row::Cell(drained(&longer)));
    each_comes_to(
        &rt,
        &[
            (NO_ROWS, renew(&row, 9, 100), unknown),
            (with(&row), renew(&row, 3, 100), stale),
            (with(&row), renew(&row, 9, 100), Attempt::Keep),
            (with(&row), renew(&row, 9, 101), put(Row::Cell(longer))),
            (with(&drained(&row)), renew(&row, 9, 101), leaving),
            (with(&drained(&row)), renew(&row, 9, 100), Attempt::Keep),
        ],
    );
    Ok(())
}

fn drained(row: &CellRow) -> CellRow {
    CellRow {
        evacuating: true,
        ..*row
    }
}

#[test]
fn a_cell_drains_by_its_own_epoch(rt: HostRuntime) -> Result<(), Fail> {
    let row = cell(9)?;
    let unknown = refuse(BoardRefusal::UnknownCell);
    let stale = refuse(BoardRefusal::StaleEpoch { now: 9 });
    let change = put(Row::Cell(drained(&row)));
    each_comes_to(
        &rt,
        &[
            (NO_ROWS, drain(&row, 9), unknown),
            (with(&drained(&row)), drain(&row, 3), stale),
            (with(&drained(&row)), drain(&row, 9), Attempt::Keep),
            (with(&row), drain(&row, 9), change),
        ],
    );
    Ok(())
}

#[test]
fn a_cell_vanishes_in_the_second_at_which_its_lease_ends(rt: HostRuntime) -> Result<(), Fail> {
    let ended = CellRow {
        until: 400,
        ..cell(3)?
    };
    let holds = CellRow {
        until: 401,
        ..ended
    };
    let op = Op::Vanish { cell: ended.cell };
    let until = refuse(BoardRefusal::LeaseHolds { until: 401 });
    each_comes_to(
        &rt,
        &[
            (NO_ROWS, op, refuse(BoardRefusal::UnknownCell)),
            (with(&holds), op, until),
            (with(&ended), op, drop_row(Row::Cell(ended))),
        ],
    );
    Ok(())
}
