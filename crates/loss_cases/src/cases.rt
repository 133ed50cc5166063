//! What one loss does.
ghost use Rattle.std.specs.Prelude.{◌≡◌, length, IfOk};
ghost use Rattle.loss_cases.specs.Cases.{case_from, case_of};
ghost use Rattle.loss_cases.specs.Questions.{IsQuestion};
ghost use Rattle.what_if.specs.Sites.{IsSite};

use crate::left::{displaced_left_in, tags_left_in, waiting_left_in};
use crate::losses::Loss;
use diego_names::{List, Name, OutOfMemory};
use forecast_records::Case;
use site_answers::{Processes, dark_with, processes_in};
use std::alloc::Global;
use what_if::{Baseline, Plan, Site, baseline_of, plan_with, taken_by};

// A loss with its plan, and the processes of two instances or more that go dark.
fn case_from(alloc: Global, loss: &Loss, plan: &Plan, dark: &[Name]) -> Result<Case, OutOfMemory>
    ensures { IfOk result (λ case. case ≡ case_from loss.now plan.now (length dark.now)) }
{
    let without = plan.without_room.items();
    let lost = Vec::from_slice(alloc, loss.names.items())?;
    let tags = tags_left_in(alloc, without)?;
    Ok(Case {
        lost: List::from(lost),
        cells: loss.cells.len() as u64,
        displaced: plan.displaced,
        unplaced: displaced_left_in(without),
        waiting_unplaced: waiting_left_in(without),
        dark_of_many: dark.len() as u64,
        tags: List::from(tags),
        verdict: plan.verdict,
    })
}

// A site as it is looked up for one loss after another.
#[derive(Drop)]
pub(crate) struct Question<'a> {
    pub(crate) base: Baseline<'a>,
    pub(crate) processes: Processes,
}

// What is looked up of the site once for all losses.
pub(crate) fn question_about(alloc: Global, site: &Site) -> Result<Question<'_>, OutOfMemory>
    requires { IsSite site.now }
    ensures site { IfOk result (λ question. question.base.site.now ≡ site.now) }
    ensures sound { IfOk result IsQuestion }
{
    let base = baseline_of(alloc, site)?;
    let processes = processes_in(alloc, base.site, &base.before)?;
    Ok(Question { base, processes })
}

// What the loss does, with nothing else lost.
pub(crate) fn case_of(alloc: Global, question: &Question, loss: &Loss) -> Result<Case, OutOfMemory>
    requires { IsQuestion question.now }
    ensures { IfOk result (λ case. case ≡ case_of question.now.base.site.now loss.now) }
{
    let lost = loss.cells.items();
    let base = &question.base;
    let taken = taken_by(alloc, base, lost)?;
    let plan = plan_with(alloc, base, lost, &taken)?;
    let dark = dark_with(alloc, base, &question.processes, lost, &taken)?;
    let case = case_from(alloc, loss, &plan, dark.as_slice())?;
    Ok(case)
}
