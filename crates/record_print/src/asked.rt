//! What an answer is about.
use bbs_model::Op;
use cell_records::JobName;

/// What the line of a cell says that it does.
#[derive(Clone, Copy, Debug, PartialEq, Eq)]
pub enum ActWord {
    Join,
    Renew,
    Claim,
    Run,
    Up,
    Crash,
    Finish,
    Settle,
    Evacuate,
    Die,
}

/// What an answer is about.
#[derive(Clone, Copy, Debug, PartialEq, Eq)]
pub enum Asked {
    /// The command that was made.
    Command(Op),
    /// A cell's line that made no command, with the job that it names. One that names no job is about
    /// its cell.
    Word(ActWord, Option<JobName>),
}
