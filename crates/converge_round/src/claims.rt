//! What came of the starts on a cell.
ghost use Rattle.std.specs.Prelude.{◌≡◌};
ghost use Rattle.converge_round.specs.Starts as told;

use bbs_model::CallFault;
use cell_records::Job;
use cell_rep::{CallEnd, Called};
use diego_names::Name;

/// A job for a cell.
#[derive(Clone, Copy, Debug, PartialEq, Eq)]
pub struct Start {
    pub cell: Name,
    pub job: Job,
}

/// How the start of a job ended.
#[derive(Clone, Copy, Debug, PartialEq, Eq)]
pub enum StartEnd {
    /// It did not reach the cell's rep.
    Lost,
    /// The rep claimed the job, or has a reason why it made no call.
    Made(Called),
}

/// A start, and what came of it.
#[derive(Clone, Copy, Debug, PartialEq, Eq)]
pub struct Claimed {
    pub start: Start,
    pub end: StartEnd,
}

impl StartEnd {
    /// The fault that its call ended with, heard or not.
    pub fn fault(&self) -> Option<CallFault>
        ensures { result ≡ told.fault_in self.now }
    {
        match self {
            StartEnd::Lost => None,
            StartEnd::Made(called) => fault_of(&called.end),
        }
    }
}

/// The fault that a call ended with, heard or not.
fn fault_of(end: &CallEnd) -> Option<CallFault>
    ensures { result ≡ told.fault_of end.now }
{
    match end {
        CallEnd::Fault(fault) => Some(*fault),
        CallEnd::ReplyLost(Err(fault)) => Some(*fault),
        CallEnd::Got(_) | CallEnd::ReplyLost(Ok(_)) | CallEnd::CallLost => None,
        CallEnd::Local(_) | CallEnd::Idle => None,
    }
}
