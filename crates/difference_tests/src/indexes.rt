//! A board in an index, with its differences.
ghost use Rattle.std.specs.Prelude.{◌≡◌, ◌<◌, ◌≤◌, true};
ghost use Rattle.bbs_model.specs.Step.{IsLegal};
ghost use Rattle.bbs_model.specs.Tables.{no_rows};
ghost use Rattle.bbs_model.specs.Valid.{IsValid};
ghost use Rattle.differences.specs.Standing.{StandsFor};

use crate::readings::Readings;
use bbs_index::Index;
use bbs_laws::first_board_is_valid;
use bbs_model::{Command, RowStore, Rows, Verdict};
use bbs_transitions::{apply, decide};
use convergence::{Steps, work_of};
use crash_backoff::Moment;
use diego_names::List;
use differences::Differences;
use event_laws::events_tell_all;
use std::alloc::Global;
use std::marker::Brand;
use std::sync::ledger::{Blank, Ledger};

pub(crate) fn first_rows(alloc: Global) -> Rows
    ensures { IsValid result }
{
    first_board_is_valid();
    Rows {
        desired: List::new(alloc),
        actual: List::new(alloc),
        tasks: List::new(alloc),
        cells: List::new(alloc),
        domains: List::new(alloc),
        next: 0,
    }
}

// Does a legal command, and follows it.
fn do_legal(index: &mut Index, differences: &mut Differences, command: &Command)
    requires valid { IsValid index.old.rows }
    requires legal { IsLegal index.old.rows command.now }
    requires room { 2 ≤ index.old.spare }
    requires stands { StandsFor differences.old index.old.rows }
    requires spare { 0 < differences.old.spare }
    ensures valid { IsValid index.new.rows }
    ensures stands { StandsFor differences.new index.new.rows }
{
    events_tell_all();
    let events = apply(index, command);
    differences.follow(index, &events.first, events.second.as_ref());
}

// Makes room for one transition more; not so where memory ran out.
fn make_room(index: &Index, differences: &mut Differences) -> bool
    requires { StandsFor differences.old index.now.rows }
    ensures stands { StandsFor differences.new index.now.rows }
    ensures spare { result ≡ true → 0 < differences.new.spare }
{
    match differences.reserve(1) {
        Err(_) => false,
        Ok(()) => true,
    }
}

// Does a command where it is legal, and tells what it came to; nothing where memory ran out.
pub(crate) fn go(
    index: &mut Index,
    differences: &mut Differences,
    command: &Command,
) -> Option<Verdict>
    requires valid { IsValid index.old.rows }
    requires stands { StandsFor differences.old index.old.rows }
    ensures valid { IsValid index.new.rows }
    ensures stands { StandsFor differences.new index.new.rows }
{
    if index.reserve(2).is_err() || !make_room(index, differences) {
        return None;
    }
    let verdict = decide(index, command);
    if verdict == Verdict::Ok {
        do_legal(index, differences, command);
    }
    Some(verdict)
}

// How many commands are listed at a moment, and how many readings that took; none where they aren't those
// that are worked out of all rows.
fn listed_with<L: Ledger>(
    blank: Blank,
    alloc: Global,
    index: &Index,
    differences: &Differences,
    now: Moment,
) -> Option<(usize, u32)>
    requires name { blank.name ≡ L.name }
    requires parts { (blank.parts ≡ L.parts) × (0 < blank.parts) }
    requires valid { IsValid index.now.rows }
    requires stands { StandsFor differences.now index.now.rows }
{
    let mut steps = Steps::<L>::new(blank);
    let mut readings = Readings {
        index,
        steps: &mut steps,
        count: 0,
    };
    let list = differences.list(alloc, &mut readings, now).ok()?;
    let rows = index.rows(alloc).ok()?;
    let work = work_of(alloc, &rows, now).ok()?;
    if list.items() == work.items() {
        Some((list.items().len(), readings.count))
    } else {
        None
    }
}

// The same with a counter that is made for the call.
pub(crate) fn listed_by(
    alloc: Global,
    index: &Index,
    differences: &Differences,
    now: Moment,
) -> Option<(usize, u32)>
    requires valid { IsValid index.now.rows }
    requires stands { StandsFor differences.now index.now.rows }
{
    listed_with::<Brand>(Blank::new(1), alloc, index, differences, now)
}
