//! The words that stand in printed lines and in tables.
ghost use Rattle.std.specs.Prelude.{◌≡◌, IfOk, string_bytes};
ghost use Rattle.headroom_print.specs.Words.{counts_of, each_word, job_text, lacking, order_word, verdict_word};

use cell_records::JobName;
use dump_lines::Each;
use forecast_records::{TurnWord, Verdict};
use room_facts::Reasons;
use std::alloc::{AllocError, Global};

/// The word of a verdict.
pub fn verdict_word(verdict: Verdict) -> &'static str
    ensures { result.now ≡ verdict_word verdict }
{
    match verdict {
        Verdict::Room => "room",
        Verdict::Unplaced => "unplaced",
        Verdict::Short => "short",
    }
}

/// The word of what goes alone.
pub fn each_word(of: Each) -> &'static str
    ensures { result.now ≡ each_word of }
{
    match of {
        Each::Zone => "zone",
        Each::Cell => "cell",
        Each::Pair => "pair",
    }
}

/// The word of an order in which cells go.
pub fn order_word(order: TurnWord) -> &'static str
    ensures { result.now ≡ order_word order }
{
    match order {
        TurnWord::Fullest => "fullest",
        TurnWord::Name => "name",
        TurnWord::Given => "given",
    }
}

/// The process, a slash, and the index of an instance, or the name of a task.
pub(crate) fn job_text(alloc: Global, job: &JobName) -> Result<String, AllocError>
    ensures { IfOk result (λ text. string_bytes text ≡ job_text job.now) }
{
    match job {
        JobName::Lrp(key) => {
            let process = key.process;
            let index = key.index;
            format!(in alloc; "{process}/{index}")
        }
        JobName::Task(name) => name.to_string(alloc),
    }
}

/// Some amounts, and how many cells lack just these.
#[derive(Clone, Copy)]
pub struct LackCount(pub &'static str, pub u64);

/// How many cells lack just these amounts, by the words of the amounts in byte order. Some may be 0.
pub fn lacking(reasons: &Reasons) -> [LackCount; 7]
    ensures { counts_of result ≡ lacking reasons.now }
{
    [
        LackCount("containers", reasons.containers),
        LackCount("disk", reasons.disk),
        LackCount("disk+containers", reasons.disk_containers),
        LackCount("memory", reasons.memory),
        LackCount("memory+containers", reasons.memory_containers),
        LackCount("memory+disk", reasons.memory_disk),
        LackCount("memory+disk+containers", reasons.memory_disk_containers),
    ]
}
