//! The answer to a question.
ghost use Rattle.std.specs.Prelude.{◌≡◌, map, IfOk};
ghost use Rattle.headroom_answers.specs.Findings.{cells_lost, finding_of, found_of};
ghost use Rattle.site_answers.specs.Losses.{lost_of};
ghost use Rattle.what_if.specs.Sites.{IsSite};

use crate::losses::cells_lost;
use cell_drains::drain;
use diego_names::{List, Name, OutOfMemory};
use dump_lines::{Demand, Question};
use dump_reader::Asked;
use forecast_records::{Finding, Found, Lost};
use loss_cases::{fit, lose_each, lose_in_turn};
use site_answers::{lose, show};
use std::alloc::Global;
use what_if::Site;

// What happens where all these go at once.
fn lost(
    alloc: Global,
    site: &Site,
    cells: &List<Name>,
    zones: &List<Name>,
) -> Result<Lost, OutOfMemory>
    requires { IsSite site.now }
    ensures { IfOk result (λ done. done
        ≡ lost_of site.now (cells_lost site.now cells.now zones.now)) }
{
    let gone = cells_lost(alloc, site, cells.items(), zones.items())?;
    let done = lose(alloc, site, &gone)?;
    Ok(done)
}

// The answer to a question, where the proxy beside an instance takes so much memory.
fn finding_of(
    alloc: Global,
    site: &Site,
    proxy: u32,
    question: &Question,
) -> Result<Finding, OutOfMemory>
    requires { IsSite site.now }
    ensures { IfOk result (λ finding. finding ≡ finding_of site.now proxy question.now) }
{
    match question {
        Question::Show => Ok(Finding::Show(show(alloc, site)?)),
        Question::Lose { cells, zones } => Ok(Finding::Lose(lost(alloc, site, cells, zones)?)),
        Question::LoseEach { of } => Ok(Finding::LoseEach(lose_each(alloc, site, *of)?)),
        Question::LoseInTurn { order, at_least } => Ok(Finding::LoseInTurn(lose_in_turn(
            alloc, site, order, *at_least,
        )?)),
        Question::Drain { at_a_time, cells } => {
            Ok(Finding::Drain(drain(alloc, site, cells, *at_a_time)?))
        }
        Question::Fit {
            process,
            instances,
            demand,
        } => Ok(Finding::Fit(fit(alloc, site, proxy, *process, *instances, *demand)?)),
    }
}

// The answer to the question of a line.
fn found_of(alloc: Global, site: &Site, proxy: u32, asked: &Asked) -> Result<Found, OutOfMemory>
    requires { IsSite site.now }
    ensures { IfOk result (λ found. found ≡ found_of site.now proxy asked.now) }
{
    let finding = finding_of(alloc, site, proxy, &asked.question)?;
    Ok(Found {
        line: asked.line,
        finding,
    })
}

/// The answers to the questions, in their order.
pub(crate) fn all_found(
    alloc: Global,
    site: &Site,
    proxy: u32,
    questions: &[Asked],
) -> Result<List<Found>, OutOfMemory>
    requires { IsSite site.now }
    ensures { IfOk result (λ list. list ≡ map (found_of site.now proxy) questions.now) }
{
    let mut list = List::new(alloc);
    for asked in questions {
        list.push(found_of(alloc, site, proxy, asked)?)?;
    }
    Ok(list)
}
