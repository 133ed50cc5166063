//! Each cell that is present is asked what it keeps.
ghost use Rattle.std.specs.Prelude.{◌≡◌, ◌++◌, [], IfOk, OnOk};
ghost use Rattle.std.specs.List.{filter_map};
ghost use Rattle.std.specs.Option.{option_to_list};
ghost use Rattle.cell_rep.specs.Laws.{HasStore};
ghost use Rattle.cell_rep.specs.Reps.{answer_of};
ghost use Rattle.converge_round.specs.Askings as told;
ghost use Rattle.converge_round.specs.Each.{Each};
ghost use Rattle.converge_round.specs.Reps.{names_of, IsRepIndex};
ghost use Rattle.converge_round.specs.Sendings.{wire_at};

use crate::adding::add;
use crate::rep_index::RepIndex;
use crate::sending::reaches;
use bbs_model::Rows;
use cell_records::{Answer, CellRow};
use cell_rep::{CallKind, CellRep, Wire};
use crash_backoff::Moment;
use diego_names::{List, Name, OutOfMemory};
use std::alloc::Global;

fn present_at(row: &CellRow, now: Moment) -> Option<CellRow>
    ensures { result ≡ told.present_at now row.now }
{
    if row.is_present(now) {
        Some(*row)
    } else {
        None
    }
}

fn add_present(
    present: &mut List<CellRow>,
    rows: &[CellRow],
    now: Moment,
) -> Result<(), OutOfMemory>
    ensures { OnOk result (present.new ≡ present.old
        ++ filter_map (told.present_at now) rows.entry.now) }
{
    for row in rows {
        add(present, present_at(row, now))?;
    }
    Ok(())
}

/// The cells whose lease holds, in the order of their names.
pub(crate) fn present_cells(
    alloc: Global,
    rows: &Rows,
    now: Moment,
) -> Result<List<CellRow>, OutOfMemory>
    ensures { IfOk result (λ cells. cells ≡ told.present rows.now now) }
{
    let mut present = List::new(alloc);
    add_present(&mut present, rows.cells.items(), now)?;
    Ok(present)
}

/// What a rep answers, if it has joined under that epoch.
fn answer_under(alloc: Global, rep: &CellRep, epoch: u64) -> Result<Option<Answer>, OutOfMemory>
    ensures answer { IfOk result (λ answer. answer ≡ told.answer_under epoch (answer_of rep.now)) }
    ensures store { HasStore rep.now.joined }
{
    rep.holds();
    match rep.answer(alloc)? {
        None => Ok(None),
        Some(answer) if answer.epoch == epoch => Ok(Some(answer)),
        Some(_) => Ok(None),
    }
}

/// What the rep of that name answers, if it has joined under that epoch.
pub(crate) fn answer_of_cell(
    alloc: Global,
    cells: &[CellRep],
    index: &RepIndex,
    cell: &Name,
    epoch: u64,
) -> Result<Option<Answer>, OutOfMemory>
    requires { IsRepIndex (names_of cells.now) index.now }
    ensures { IfOk result (told.Hears cells.now cell.now epoch) }
{
    match index.find(cell) {
        None => Ok(None),
        Some(at) => answer_under(alloc, &cells[at], epoch),
    }
}

/// One cell is asked. Where the question is lost, or its rep has no answer, nothing is heard.
fn ask<W: Wire>(
    alloc: Global,
    cells: &[CellRep],
    index: &RepIndex,
    wire: &mut W,
    row: &CellRow,
) -> Result<Option<Answer>, OutOfMemory>
    requires { IsRepIndex (names_of cells.now) index.now }
    ensures { IfOk result (λ answer. told.IsAsked cells.now row.now answer
        (wire_at (W.ends wire.old) (W.losses wire.old))
        (wire_at (W.ends wire.new) (W.losses wire.new))) }
{
    if reaches(wire, row.cell, CallKind::Ask) {
        answer_of_cell(alloc, cells, index, &row.cell, row.epoch)
    } else {
        Ok(None)
    }
}

/// What was heard counts as one answer more.
pub(crate) fn add_answer(got: &mut List<Answer>, answer: Option<Answer>) -> Result<(), OutOfMemory>
    ensures { OnOk result (got.new ≡ got.old ++ option_to_list answer) }
{
    match answer {
        None => Ok(()),
        Some(answer) => got.push(answer),
    }
}

/// One cell more is asked.
fn ask_next<W: Wire>(
    alloc: Global,
    cells: &[CellRep],
    index: &RepIndex,
    wire: &mut W,
    row: &CellRow,
    got: &mut List<Answer>,
) -> Result<(), OutOfMemory>
    requires { IsRepIndex (names_of cells.now) index.now }
    ensures { OnOk result (told.AsksOne cells.entry.now row.entry.now
        (told.questions (wire_at (W.ends wire.old) (W.losses wire.old)) got.old)
        (told.questions (wire_at (W.ends wire.new) (W.losses wire.new)) got.new)) }
{
    match ask(alloc, cells, index, wire, row) {
        Err(want) => Err(want),
        Ok(answer) => add_answer(got, answer),
    }
}

/// Each of these cells is asked, in order.
pub(crate) fn ask_each<W: Wire>(
    alloc: Global,
    cells: &[CellRep],
    index: &RepIndex,
    wire: &mut W,
    present: &[CellRow],
) -> Result<List<Answer>, OutOfMemory>
    requires { IsRepIndex (names_of cells.now) index.now }
    ensures { IfOk result (λ got. Each (told.AsksOne cells.now) present.now
        (told.questions (wire_at (W.ends wire.old) (W.losses wire.old)) [])
        (told.questions (wire_at (W.ends wire.new) (W.losses wire.new)) got)) }
{
    let mut got = List::new(alloc);
    for row in present {
        ask_next(alloc, cells, index, wire, row, &mut got)?;
    }
    Ok(got)
}
