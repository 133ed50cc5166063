use bbs_model::Command;
use cell_rep::CallEnd;

/// One call of a scenario, and how it ended.
#[derive(Clone, Copy, Debug, PartialEq, Eq)]
pub struct Answered {
    /// The caller's number.
    pub actor: u32,
    /// The line of the scenario, from 1.
    pub line: u32,
    /// None where the line made no call.
    pub command: Option<Command>,
    /// How the call ended.
    pub end: CallEnd,
}
