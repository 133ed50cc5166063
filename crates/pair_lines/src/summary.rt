//! The last line of a pair's run.
ghost use Rattle.std.specs.Prelude.{◌≡◌, IfOk, OnOk};
ghost use Rattle.line_writing.specs.Writing.{AddsValue};
ghost use Rattle.pair_lines.specs.Answers.{summary_data, summary_line};

use json::Writer;
use line_writing::{begin, end, line_begun, line_ended, put_number};
use std::alloc::{AllocError, Global};

/// The counts of a run.
#[derive(Clone, Copy, Debug, PartialEq, Eq)]
pub struct PairSummary {
    /// Transitions of this run that were answered as acknowledged, whether the client heard it or not.
    pub acknowledged: u64,
    /// Transitions of this run that a board in charge failed to store.
    pub doubts: u64,
    /// Transitions in the life of the board in charge.
    pub next: u64,
    /// Phases that ran.
    pub phases: u64,
    /// The phase before which the standby took over, counted from 1, or 0.
    pub takeover: u64,
}

/// The counts of a run, which end its text.
pub fn summary_text(alloc: Global, summary: PairSummary) -> Result<Vec<u8>, AllocError>
    ensures { IfOk result (λ text. text.items ≡ summary_line summary) }
{
    let mut text = line_begun(alloc)?;
    put_summary(&mut text, summary)?;
    line_ended(text)
}

fn put_summary(text: &mut Writer, summary: PairSummary) -> Result<(), AllocError>
    ensures { OnOk result (AddsValue text.old text.new (summary_data summary)) }
{
    begin(text)?;
    put_number(text, "acknowledged", summary.acknowledged)?;
    put_number(text, "doubts", summary.doubts)?;
    put_number(text, "next", summary.next)?;
    put_number(text, "phases", summary.phases)?;
    put_number(text, "takeover", summary.takeover)?;
    end(text)
}
