//! The losses that are asked for, each tried alone.
ghost use Rattle.std.specs.Prelude.{◌≡◌, ◌++◌, filter, map, IfOk, OnOk};
ghost use Rattle.loss_cases.specs.Cases.{
  alone_case,
  case_of,
  each_cell,
  each_pair,
  each_zone,
  goes_alone,
  losses_of,
};
ghost use Rattle.loss_cases.specs.Questions.{IsQuestion};
ghost use Rattle.what_if.specs.Sites.{IsSite};

use crate::cases::{Question, case_of, question_about};
use crate::cells::{TaggedCell, by_name, tagged_cells};
use crate::losses::{Loss, cell_loss, each_cell, each_zone, pairs_in};
use diego_names::OutOfMemory;
use dump_lines::Each;
use forecast_records::Case;
use std::alloc::Global;
use what_if::Site;

// Tries each of the losses.
fn try_each(
    alloc: Global,
    question: &Question,
    losses: &[Loss],
    cases: &mut Vec<Case>,
) -> Result<(), OutOfMemory>
    requires { IsQuestion question.now }
    ensures { OnOk result (cases.new.items
        ≡ cases.old.items ++ map (case_of question.now.base.site.now) losses.now) }
{
    for loss in losses {
        let case = case_of(alloc, question, loss)?;
        cases.push(case)?;
    }
    Ok(())
}

// Tries each of the cells alone, and tells which of them can go.
fn try_alone(
    alloc: Global,
    question: &Question,
    cells: &[TaggedCell],
    cases: &mut Vec<Case>,
) -> Result<Vec<TaggedCell>, OutOfMemory>
    requires { IsQuestion question.now }
    ensures able { IfOk result (λ able. able.items
        ≡ filter (goes_alone question.now.base.site.now) cells.now) }
    ensures cases { OnOk result (cases.new.items
        ≡ cases.old.items ++ map (alone_case question.now.base.site.now) cells.now) }
{
    let mut able = Vec::new(alloc);
    for cell in cells {
        let loss = cell_loss(alloc, cell.cell)?;
        let case = case_of(alloc, question, &loss)?;
        let can_go = case.unplaced == 0;
        cases.push(case)?;
        if can_go {
            able.push(*cell)?;
        }
    }
    Ok(able)
}

// Tries each cell that told its state alone, then each two of one tag of which either can go alone.
fn try_pairs(alloc: Global, question: &Question, cases: &mut Vec<Case>) -> Result<(), OutOfMemory>
    requires { IsQuestion question.now }
    ensures { OnOk result (cases.new.items
        ≡ cases.old.items
        ++ map (case_of question.now.base.site.now) (each_pair question.now.base.site.now)) }
{
    let told = tagged_cells(alloc, question.base.site)?;
    let cells = by_name(told);
    let able = try_alone(alloc, question, cells.as_slice(), cases)?;
    let pairs = pairs_in(alloc, able.as_slice())?;
    try_each(alloc, question, pairs.as_slice(), cases)?;
    Ok(())
}

// Tries each zone.
fn try_zones(alloc: Global, question: &Question, cases: &mut Vec<Case>) -> Result<(), OutOfMemory>
    requires { IsQuestion question.now }
    ensures { OnOk result (cases.new.items
        ≡ cases.old.items
        ++ map (case_of question.now.base.site.now) (each_zone question.now.base.site.now)) }
{
    let losses = each_zone(alloc, question.base.site)?;
    try_each(alloc, question, losses.as_slice(), cases)?;
    Ok(())
}

// Tries each cell.
fn try_cells(alloc: Global, question: &Question, cases: &mut Vec<Case>) -> Result<(), OutOfMemory>
    requires { IsQuestion question.now }
    ensures { OnOk result (cases.new.items
        ≡ cases.old.items
        ++ map (case_of question.now.base.site.now) (each_cell question.now.base.site.now)) }
{
    let losses = each_cell(alloc, question.base.site)?;
    try_each(alloc, question, losses.as_slice(), cases)?;
    Ok(())
}

// Tries those that are asked for.
fn try_asked(
    alloc: Global,
    question: &Question,
    of: Each,
    cases: &mut Vec<Case>,
) -> Result<(), OutOfMemory>
    requires { IsQuestion question.now }
    ensures { OnOk result (cases.new.items ≡ cases.old.items
        ++ map (case_of question.now.base.site.now) (losses_of question.now.base.site.now of)) }
{
    match of {
        Each::Zone => try_zones(alloc, question, cases),
        Each::Cell => try_cells(alloc, question, cases),
        Each::Pair => try_pairs(alloc, question, cases),
    }
}

// Tries all that are asked for.
pub(crate) fn try_losses(
    alloc: Global,
    site: &Site,
    of: Each,
    cases: &mut Vec<Case>,
) -> Result<(), OutOfMemory>
    requires { IsSite site.now }
    ensures { OnOk result (cases.new.items
        ≡ cases.old.items ++ map (case_of site.now) (losses_of site.now of)) }
{
    let question = question_about(alloc, site)?;
    try_asked(alloc, &question, of, cases)?;
    Ok(())
}
