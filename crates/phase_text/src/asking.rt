//! What an answer is about.
ghost use Rattle.std.specs.Prelude.{◌≡◌};
ghost use Rattle.phase_text.specs.Asking.{act_job, asked_by, word_of};

use cell_records::JobName;
use cell_rep::CellAct;
use record_print::{ActWord, Asked};
use scenario_lines::Act;

/// What a line asks by itself, which is told where it made no command.
pub fn asked_by(act: &Act) -> Asked
    ensures { result ≡ asked_by act.now }
{
    match act {
        Act::Client(op) => Asked::Command(*op),
        Act::Cell(act) => Asked::Word(word_of(act), job_in(act)),
        Act::Evacuate => Asked::Word(ActWord::Evacuate, None),
    }
}

fn word_of(act: &CellAct) -> ActWord
    ensures { result ≡ word_of act.now }
{
    match act {
        CellAct::Join { .. } => ActWord::Join,
        CellAct::Renew { .. } => ActWord::Renew,
        CellAct::Claim { .. } => ActWord::Claim,
        CellAct::Run { .. } => ActWord::Run,
        CellAct::Up { .. } => ActWord::Up,
        CellAct::Crash { .. } => ActWord::Crash,
        CellAct::Finish { .. } => ActWord::Finish,
        CellAct::Settle => ActWord::Settle,
        CellAct::Die => ActWord::Die,
    }
}

fn job_in(act: &CellAct) -> Option<JobName>
    ensures { result ≡ act_job act.now }
{
    match *act {
        CellAct::Claim { job, .. } => Some(job),
        CellAct::Run { key, .. } | CellAct::Crash { key } => Some(JobName::Lrp(key)),
        CellAct::Up { job } => job,
        CellAct::Finish { name, .. } => Some(JobName::Task(name)),
        CellAct::Join { .. } | CellAct::Renew { .. } | CellAct::Settle | CellAct::Die => None,
    }
}
