use bbs_model::{BoardRefusal, Command};
use cell_records::{Answer, JobName};
use diego_names::{Instance, List, Name};
use std::snapshot::Snapshot;

/// What a round tells of itself. It stands here, below the round, since printing needs it too.
#[derive(Drop)]
pub struct Report {
    /// The line of the scenario that asked for the round, from 1.
    pub line: u32,
    /// The length of the board's log when the round began.
    pub start: u64,
    /// The length of the board's log when the round ended.
    pub end: u64,
    /// How many cells were present when the round first read the rows; each of them was asked.
    pub asked: u32,
    /// Present cells that gave no answer, lost stops and starts, and claims whose call or reply was
    /// lost.
    pub lost: u64,
    /// The commands that the board refused, each with its cause, whether the cause was heard or not.
    pub refused: List<(Command, BoardRefusal)>,
    /// The jobs that no cell had room for, in auction order.
    pub unplaced: List<JobName>,
    /// How many items others did in the meantime.
    pub foreign: u64,
    /// How many transitions the round did.
    pub own: u64,
    /// The containers that were stopped, each with its cell.
    pub stopped: List<(Name, Instance)>,
    /// What the cells' reps answer after the round, of those that answer. Only clauses read it, so it has no bytes:
    /// a report takes no more memory where cells hold more containers.
    pub stores: Snapshot<List<Answer>>,
}
