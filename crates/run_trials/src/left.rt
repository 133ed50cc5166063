//! What a run leaves, but for its source.
ghost use Rattle.std.specs.Prelude.{◌≡◌};

use bbs_model::Item;
use byte_ports::MemorySink;
use convergence::Report;
use disk_trait::MemoryDisk;
use program_ends::TopEnd;
use scenario_lines::Answered;

/// What the program left.
#[derive(Drop)]
pub struct Left<K = MemorySink> {
    pub status: u8,
    pub sink: K,
    pub disk: MemoryDisk,
    pub log: Vec<Item>,
    pub marks: Vec<u64>,
    pub answers: Vec<Answered>,
    pub reports: Vec<Report>,
}

/// The end of the program without its source.
pub fn left_of<S: Drop, K>(end: TopEnd<S, K, MemoryDisk>) -> Left<K>
    ensures status { result.status ≡ end.status }
    ensures ports { (result.sink ≡ end.sink) × (result.disk ≡ end.disk) }
    ensures log { (result.log ≡ end.log) × (result.marks ≡ end.marks) }
    ensures told { (result.answers ≡ end.answers) × (result.reports ≡ end.reports) }
{
    let TopEnd {
        status,
        source: _,
        sink,
        disk,
        log,
        marks,
        answers,
        reports,
        locks: _,
    } = end;
    Left {
        status,
        sink,
        disk,
        log,
        marks,
        answers,
        reports,
    }
}
