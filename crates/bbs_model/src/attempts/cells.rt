//! What is asked of cells.
ghost use Rattle.std.specs.Prelude.{◌≡◌};
ghost use Rattle.bbs_model.specs.Cells as told;

use super::{drop_row, if_joined, put, too_many};
use crate::{Attempt, BoardRefusal, Found, MOST_CELLS, Row};
use cell_records::{Amounts, CellRow};
use crash_backoff::Moment;
use diego_names::Name;

/// A cell joins, in the place of the one of its name. Its epoch is the board's next transition.
pub fn join(
    found: &Found,
    cell: Name,
    zone: Name,
    tag: Option<Name>,
    totals: Amounts,
    ttl: u32,
    now: Moment,
) -> Attempt
    ensures { result ≡ told.join found.now cell zone tag totals ttl now }
{
    if found.cell.is_none() && found.counts.cells >= MOST_CELLS {
        return too_many(MOST_CELLS);
    }
    put(Row::Cell(CellRow {
        cell,
        zone,
        tag,
        totals,
        epoch: found.next,
        until: u64::from(now.0) + u64::from(ttl),
        evacuating: false,
    }))
}

/// The cell's lease ends `ttl` seconds from now.
pub fn renew(found: &Found, epoch: u64, ttl: u32, now: Moment) -> Attempt
    ensures { result ≡ told.renew found.now epoch ttl now }
{
    let until = u64::from(now.0) + u64::from(ttl);
    match found.cell {
        None => Attempt::Refuse(BoardRefusal::UnknownCell),
        Some(old) if old.until == until => if_joined(&found.cell, epoch, Attempt::Keep),
        Some(old) => if_joined(&found.cell, epoch, put(Row::Cell(CellRow { until, ..old }))),
    }
}

/// The cell is to be emptied.
pub fn drain(found: &Found, epoch: u64) -> Attempt
    ensures { result ≡ told.drain found.now epoch }
{
    match found.cell {
        None => Attempt::Refuse(BoardRefusal::UnknownCell),
        Some(old) if old.evacuating => if_joined(&found.cell, epoch, Attempt::Keep),
        Some(old) => {
            let new = CellRow {
                evacuating: true,
                ..old
            };
            if_joined(&found.cell, epoch, put(Row::Cell(new)))
        }
    }
}

/// The cell is dropped, once its lease has ended.
pub fn vanish(found: &Found, now: Moment) -> Attempt
    ensures { result ≡ told.vanish found.now.cell now }
{
    match found.cell {
        None => Attempt::Refuse(BoardRefusal::UnknownCell),
        Some(old) if old.is_present(now) => {
            Attempt::Refuse(BoardRefusal::LeaseHolds { until: old.until })
        }
        Some(old) => drop_row(Row::Cell(old)),
    }
}
