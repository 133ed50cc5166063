//! What is kept of the phases that were told.
ghost use Rattle.std.specs.Prelude.{◌≡◌, ◌+◌, ◌++◌, ◌<◌, ◌^◌, [], OnOk, OnErr};
ghost use Rattle.std.specs.Option.{option_to_list};
ghost use Rattle.scenario_player.specs.Kept.{nothing_kept};

use convergence::Report;
use diego_names::{List, OutOfMemory};
use scenario_lines::Answered;
use std::alloc::Global;
use std::marker::Model;

/// What is kept of the phases that were told.
#[derive(Drop)]
pub(crate) struct Kept {
    answers: Vec<Answered>,
    reports: Vec<Report>,
    phases: u64,
}

impl Model for Kept {
    ghost use Rattle.scenario_player.specs.Kept.{KeptSoFar as Lists};

    ghost Value = { Lists };

    ghost view = { λ k. record { answers = k.answers.items; reports = k.reports.items; phases = k.phases } };
}

impl Kept {
    pub(crate) fn new(alloc: Global) -> Kept
        ensures { result ≡ nothing_kept }
    {
        Kept {
            answers: Vec::new(alloc),
            reports: Vec::new(alloc),
            phases: 0,
        }
    }

    /// One phase more, with its answers by line. Where memory runs out nothing is added.
    pub(crate) fn add(
        &mut self,
        answers: List<Answered>,
        report: Option<Report>,
    ) -> Result<(), OutOfMemory>
        requires { self.old.phases + 1 < 2 ^ 64 }
        ensures added { OnOk result (self.new ≡ record {
          answers = self.old.answers ++ answers;
          reports = self.old.reports ++ option_to_list report;
          phases = self.old.phases + 1;
        }) }
        ensures stays { OnErr result (self.new ≡ self.old) }
    {
        self.reports.reserve(1)?;
        self.answers.extend_from_slice(answers.items())?;
        if let Some(report) = report {
            self.reports.push_reserved(report);
        }
        self.phases += 1;
        Ok(())
    }

    pub(crate) fn phases(&self) -> u64
        ensures { result ≡ self.now.phases }
    {
        self.phases
    }

    /// The answers and the reports.
    pub(crate) fn into_lists(self) -> (Vec<Answered>, Vec<Report>)
        ensures { (result.0.items ≡ self.answers) × (result.1.items ≡ self.reports) }
    {
        let Kept {
            answers,
            reports,
            phases: _,
        } = self;
        (answers, reports)
    }
}
