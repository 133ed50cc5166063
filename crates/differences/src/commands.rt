//! The commands of what is due, with one reading for each place and each task.
ghost use Rattle.std.specs.Prelude.{◌≡◌, ◌+◌, ◌≤◌, ◌++◌, [], map, length, option_to_list, OnOk, IfOk, IsOk};
ghost use Rattle.std.specs.List.{filter_map};
ghost use Rattle.std.specs.Option.{option_map};
ghost use Rattle.bbs_model.specs.Work.{at, drop_row_of, drop_suspect_of};
ghost use Rattle.differences.specs.Commands as told;
ghost use Rattle.differences.specs.Due.{subjects_in};
ghost use Rattle.differences.specs.Noted.{ends_by, is_counted, noted_of};

use crate::counted::CountedRows;
use crate::due::Due;
use crate::following::is_below;
use crate::kept::{Kept, Leases};
use bbs_model::{Command, Op};
use crash_backoff::Moment;
use diego_names::{Key, List, Name, OutOfMemory};
use lrp_records::{Actual, LrpState, Presence};
use std::alloc::Global;
use task_records::{Task, TaskState};
use work_causes::going;

fn mended(wanted: bool, key: Key, state: &LrpState) -> Option<Op>
    ensures { result ≡ told.mended wanted key state.now }
{
    match *state {
        LrpState::Unclaimed => None,
        LrpState::Running { instance, .. } if wanted => Some(Op::Suspect { key, instance }),
        LrpState::Claimed { instance, .. } | LrpState::Running { instance, .. } => {
            Some(Op::Unclaim { key, instance })
        }
        LrpState::Crashed => Some(Op::Restart { key }),
    }
}

fn goes(leases: &Leases, now: Moment, wanted: bool, row: &Actual) -> bool
    ensures { result ≡ told.goes_by (ends_by leases.now.cells.entries leases.now.domains.entries)
        now wanted row.now }
{
    !wanted && leases.holds(now, &going(&row.domain))
}

fn ordinary_command(
    leases: &Leases,
    now: Moment,
    wanted: bool,
    key: Key,
    row: &Option<Actual>,
) -> Option<Op>
    ensures { result ≡ told.ordinary_command
        (ends_by leases.now.cells.entries leases.now.domains.entries) now wanted key row.now }
{
    match row {
        None => Some(Op::Make { key }),
        Some(row) if goes(leases, now, wanted, row) => Some(Op::Remove {
            key,
            instance: row.state.holder(),
        }),
        Some(row) => mended(wanted, key, &row.state),
    }
}

fn drop_evacuating(key: Key, row: &Actual) -> Option<Op>
    ensures { result ≡ drop_row_of key row.now.state }
{
    match row.state.holder() {
        None => None,
        Some(instance) => Some(Op::DropEvacuating { key, instance }),
    }
}

fn drop_suspect(key: Key, row: &Actual) -> Option<Op>
    ensures { result ≡ drop_suspect_of key row.now.state }
{
    match row.state.holder() {
        None => None,
        Some(instance) => Some(Op::DropSuspect { key, instance }),
    }
}

fn place_command(
    leases: &Leases,
    now: Moment,
    wanted: bool,
    place: &(Key, Presence),
    row: &Option<Actual>,
) -> Option<Op>
    ensures { result ≡ told.place_command
        (ends_by leases.now.cells.entries leases.now.domains.entries) now wanted
        place.now.0 place.now.1 row.now }
{
    let (key, presence) = *place;
    match presence {
        Presence::Ordinary => ordinary_command(leases, now, wanted, key, row),
        Presence::Evacuating => match row {
            None => None,
            Some(row) => drop_evacuating(key, row),
        },
        Presence::Suspect => match row {
            None => None,
            Some(row) => drop_suspect(key, row),
        },
    }
}

fn task_command(name: Name, row: &Option<Task>) -> Option<Op>
    ensures { result ≡ told.task_command name row.now }
{
    match row {
        None => None,
        Some(row) => match row.state {
            TaskState::Pending | TaskState::Running { .. } => Some(Op::CancelTask { name }),
            TaskState::Completed { .. } => Some(Op::ExpireTask { name }),
            TaskState::Resolving { .. } => Some(Op::KickTask { name }),
        },
    }
}

/// The command at a moment, if one is asked.
fn command_at(now: Moment, asked: Option<Op>) -> Option<Command>
    ensures { result ≡ option_map (at now) asked }
{
    match asked {
        None => None,
        Some(op) => Some(Command { now, op }),
    }
}

/// Adds an item at the end, if there is one.
fn add<X: Copy>(items: &mut List<X>, item: Option<X>) -> Result<(), OutOfMemory>
    ensures { OnOk result (items.new ≡ items.old ++ option_to_list item) }
{
    match item {
        None => Ok(()),
        Some(item) => items.push(item),
    }
}

fn vanish(cell: &Name) -> Option<Op>
    ensures { result ≡ told.vanish cell.now }
{
    Some(Op::Vanish { cell: *cell })
}

fn forget(domain: &Name) -> Option<Op>
    ensures { result ≡ told.forget domain.now }
{
    Some(Op::Forget { domain: *domain })
}

fn add_vanish(list: &mut List<Command>, now: Moment, cells: &[Name]) -> Result<(), OutOfMemory>
    ensures list { OnOk result (list.new ≡ list.old
        ++ map (at now) (filter_map told.vanish cells.entry.now)) }
    ensures free { cells.entry.now ≡ [] → IsOk result }
{
    for cell in cells {
        add(list, command_at(now, vanish(cell)))?;
    }
    Ok(())
}

fn add_forget(list: &mut List<Command>, now: Moment, domains: &[Name]) -> Result<(), OutOfMemory>
    ensures list { OnOk result (list.new ≡ list.old
        ++ map (at now) (filter_map told.forget domains.entry.now)) }
    ensures free { domains.entry.now ≡ [] → IsOk result }
{
    for domain in domains {
        add(list, command_at(now, forget(domain)))?;
    }
    Ok(())
}

fn add_tasks<C: CountedRows>(
    list: &mut List<Command>,
    rows: &mut C,
    now: Moment,
    names: &[Name],
) -> Result<(), OutOfMemory>
    ensures list { OnOk result (list.new ≡ list.old ++ map (at now) (filter_map
        (told.command_of_task (C.rows rows.old)) names.entry.now)) }
    ensures free { names.entry.now ≡ [] → IsOk result }
    ensures keeps { C.keeps rows.old rows.new }
    ensures rows { C.rows rows.new ≡ C.rows rows.old }
    ensures steps { C.steps rows.new ≤ C.steps rows.old + length names.entry.now }
{
    for name in names {
        let row = rows.task(name);
        add(list, command_at(now, task_command(*name, &row)))?;
    }
    Ok(())
}

impl Kept {
    fn is_wanted(&self, key: &Key) -> bool
        ensures { result ≡ is_counted self.now.wanted key.now }
    {
        is_below(self.wanted.get(&key.process).copied(), key.index)
    }

    fn op_at<C: CountedRows>(
        &self,
        rows: &mut C,
        now: Moment,
        place: &(Key, Presence),
    ) -> Option<Op>
        ensures command { result ≡ told.command_at_place (noted_of self.now) (C.rows rows.old)
            now place.now }
        ensures keeps { C.keeps rows.old rows.new }
        ensures rows { C.rows rows.new ≡ C.rows rows.old }
        ensures step { C.steps rows.new ≡ C.steps rows.old + 1 }
    {
        let row = rows.actual(&place.0, place.1);
        place_command(&self.leases, now, self.is_wanted(&place.0), place, &row)
    }

    fn add_places<C: CountedRows>(
        &self,
        list: &mut List<Command>,
        rows: &mut C,
        now: Moment,
        places: &[(Key, Presence)],
    ) -> Result<(), OutOfMemory>
        ensures list { OnOk result (list.new ≡ list.old ++ map (at now) (filter_map
            (told.command_at_place (noted_of self.now) (C.rows rows.old) now) places.entry.now)) }
        ensures free { places.entry.now ≡ [] → IsOk result }
        ensures keeps { C.keeps rows.old rows.new }
        ensures rows { C.rows rows.new ≡ C.rows rows.old }
        ensures steps { C.steps rows.new ≤ C.steps rows.old + length places.entry.now }
    {
        for place in places {
            let asked = self.op_at(rows, now, place);
            add(list, command_at(now, asked))?;
        }
        Ok(())
    }

    /// The commands of what is due.
    pub(crate) fn commands<C: CountedRows>(
        &self,
        alloc: Global,
        rows: &mut C,
        now: Moment,
        due: &Due,
    ) -> Result<List<Command>, OutOfMemory>
        ensures list { IfOk result (λ list. list ≡ told.commands_of (noted_of self.now)
            (C.rows rows.old) now due.now) }
        ensures free { subjects_in due.now ≡ [] → IsOk result }
        ensures keeps { C.keeps rows.old rows.new }
        ensures rows { C.rows rows.new ≡ C.rows rows.old }
        ensures steps { C.steps rows.new ≤ C.steps rows.old + length (subjects_in due.now) }
    {
        let mut list = List::new(alloc);
        add_vanish(&mut list, now, due.cells())?;
        add_forget(&mut list, now, due.domains())?;
        self.add_places(&mut list, rows, now, due.places())?;
        add_tasks(&mut list, rows, now, due.tasks())?;
        Ok(list)
    }
}
