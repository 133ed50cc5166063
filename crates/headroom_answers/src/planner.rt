//! The planner: all that is asked of a dump is answered by plans of its site.
ghost use Rattle.std.specs.Prelude.{◌≡◌, IfOk};
ghost use Rattle.headroom_answers.specs.Texts.{text_in, text_of, verdict_of};

use crate::told::{Told, tell};
use diego_names::OutOfMemory;
use dump_reader::{Dump, LineCounts};
use headroom_engine::{Asked, Planned, Planner};
use headroom_print::{lines, worst};
use headroom_tables::table;
use std::alloc::Global;

/// Answers by what a site comes to where cells are lost.
pub struct SitePlanner;

// What is told, in the form that is asked for.
#[tactic(auto, unfolding(crate::specs::Texts::text_in))]
fn text_in(
    alloc: Global,
    asked: Asked,
    counts: &LineCounts,
    told: &Told,
) -> Result<Vec<u8>, OutOfMemory>
    ensures { IfOk result (λ text. text.items ≡ text_in asked counts.now told.now) }
{
    match asked {
        Asked::Lines => lines(alloc, counts, &told.notes, told.found.items()),
        Asked::Table => table(alloc, counts, &told.notes, told.found.items()),
    }
}

impl Planner for SitePlanner {
    ghost text = { text_of };

    ghost verdict = { verdict_of };

    fn plan(alloc: Global, asked: Asked, dump: &Dump) -> Result<Planned, OutOfMemory> {
        let told = tell(alloc, dump)?;
        let verdict = worst(told.found.items());
        let text = text_in(alloc, asked, &dump.counts, &told)?;
        Ok(Planned { text, verdict })
    }
}
