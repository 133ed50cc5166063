//! What answers the questions of a dump.
ghost use Rattle.std.specs.Prelude.{◌≡◌, List, ℕ, IfOk};
ghost use Rattle.dump_reader.specs.Facts.{IsDump};
ghost use Rattle.dump_reader.specs.declared.dump.Dump.{Dump as ADump};
ghost use Rattle.forecast_records.specs.declared.verdict.Verdict.{Verdict as AVerdict};
ghost use Rattle.headroom_engine.specs.declared.words.Asked.{Asked as AnAsked};

use crate::words::Asked;
use diego_names::OutOfMemory;
use dump_reader::Dump;
use forecast_records::Verdict;
use std::alloc::Global;

/// The text of all answers, and their worst verdict.
#[derive(Debug, Drop)]
pub struct Planned {
    pub text: Vec<u8>,
    pub verdict: Verdict,
}

/// Answers all that is asked of a dump.
pub trait Planner {
    /// The text of the answers.
    ghost text: { AnAsked → ADump → List ℕ };

    /// Their worst verdict.
    ghost verdict: { ADump → AVerdict };

    /// Both of them, or want of memory.
    fn plan(alloc: Global, asked: Asked, dump: &Dump) -> Result<Planned, OutOfMemory>
        requires { IsDump dump.now }
        ensures text { IfOk result (λ planned. planned.text.items ≡ text asked dump.now) }
        ensures verdict { IfOk result (λ planned. planned.verdict ≡ verdict dump.now) };
}
