//! What a stop may show of a board: its rows after a front of the log that has all that was acknowledged, or these and
//! one doubt that follows them. The rows are those of the plain step, and not of the board's own code.
ghost use Rattle.bbs_model.specs.Valid.{IsValid};

use bbs_laws::first_board_is_valid;
use bbs_model::{Command, Item, Rows};
use diego_names::{List, OutOfMemory};
use plain_step::{copy_of, run};
use std::alloc::Global;

/// A board at the beginning of its life.
pub fn no_rows(alloc: Global) -> Rows
    ensures { IsValid result }
{
    first_board_is_valid();
    Rows {
        desired: List::new(alloc),
        actual: List::new(alloc),
        tasks: List::new(alloc),
        cells: List::new(alloc),
        domains: List::new(alloc),
        next: 0,
    }
}

fn are_equal(rows: &Rows, others: &Rows) -> bool {
    rows.desired.items() == others.desired.items()
        && rows.actual.items() == others.actual.items()
        && rows.tasks.items() == others.tasks.items()
        && rows.cells.items() == others.cells.items()
        && rows.domains.items() == others.domains.items()
        && rows.next == others.next
}

/// How many items each stop from this clock on shows: those up to the last one that was acknowledged by then.
pub fn acknowledged(log: &[Item], marks: &[u64], clock: u64) -> usize {
    let mut count = 0usize;
    for (place, (item, mark)) in log.iter().zip(marks.iter()).enumerate() {
        if matches!(item, Item::Done(..)) && *mark <= clock {
            count = place.saturating_add(1);
        }
    }
    count
}

// Whether the rows are found once this command is done, too.
fn leads_to(
    alloc: Global,
    rows: &Rows,
    command: &Command,
    found: &Rows,
) -> Result<bool, OutOfMemory>
    requires { IsValid rows.now }
{
    let mut more = copy_of(alloc, rows)?;
    let _verdict = run(alloc, &mut more, command)?;
    Ok(are_equal(&more, found))
}

// Whether the rows are found before this item, or with it if it is a doubt. One that is done is done to them.
fn shows_before(
    alloc: Global,
    rows: &mut Rows,
    item: &Item,
    found: &Rows,
) -> Result<bool, OutOfMemory>
    requires { IsValid rows.old }
    ensures { IsValid rows.new }
{
    match item {
        Item::Done(_, command) => {
            let is_shown = are_equal(rows, found);
            let _verdict = run(alloc, rows, command)?;
            Ok(is_shown)
        }
        Item::Doubt(_, command) => leads_to(alloc, rows, command, found),
    }
}

// The same of each front of what follows that has at least so many items.
fn is_reached_from(
    alloc: Global,
    rows: &mut Rows,
    log: &[Item],
    least: usize,
    found: &Rows,
) -> Result<bool, OutOfMemory>
    requires { IsValid rows.old }
{
    match log {
        [] => Ok(are_equal(rows, found)),
        [item, later @ ..] => {
            let is_shown = shows_before(alloc, rows, item, found)?;
            if is_shown && least == 0 {
                return Ok(true);
            }
            is_reached_from(alloc, rows, later, least.saturating_sub(1), found)
        }
    }
}

/// Whether a stop may show these rows, where the log began at the base and at least so many of its items are shown.
pub fn is_reached(
    alloc: Global,
    base: &Rows,
    log: &[Item],
    least: usize,
    found: &Rows,
) -> Result<bool, OutOfMemory>
    requires { IsValid base.now }
{
    let mut rows = copy_of(alloc, base)?;
    is_reached_from(alloc, &mut rows, log, least, found)
}
