//! Whether an auction may run on jobs and cells.
ghost use Rattle.std.specs.Prelude.{IsTrue, ◌↔◌};
ghost use Rattle.auctioneer.specs.Asked.{IsSoundAnswer, AreJobs, AreAnswers};

use cell_records::{Amounts, Answer, Job};

/// Whether no two jobs have one name. It compares each two of them.
pub fn are_jobs(jobs: &[Job]) -> bool
    ensures { IsTrue result ↔ AreJobs jobs.now }
{
    for i in 0..jobs.len() {
        for j in 0..i {
            if jobs[j].job == jobs[i].job {
                return false;
            }
        }
    }
    true
}

// Whether the sums of an answer are sound.
fn is_sound(answer: &Answer) -> bool
    ensures { IsTrue result ↔ IsSoundAnswer answer.now }
{
    let Amounts {
        memory,
        disk,
        containers,
    } = answer.totals;
    answer.free.memory <= memory
        && answer.free.disk <= disk
        && answer.free.containers <= containers
        && answer.containers.len() <= containers as usize
}

/// Whether there are at most 1,000 answers, no two of one cell, each with sums that are within its
/// totals. It compares each two of them.
pub fn are_cells(cells: &[Answer]) -> bool
    ensures { IsTrue result ↔ AreAnswers cells.now }
{
    if cells.len() > 1000 {
        return false;
    }
    for i in 0..cells.len() {
        if !is_sound(&cells[i]) {
            return false;
        }
        for j in 0..i {
            if cells[j].cell == cells[i].cell {
                return false;
            }
        }
    }
    true
}
