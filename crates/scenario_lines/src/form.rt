//! The forms of lines.

/// The form of a line, which says what members it has.
#[derive(Clone, Copy, Debug, PartialEq, Eq)]
pub enum Form {
    /// A phase begins.
    At,
    /// A round is run.
    Round,
    /// A client acts.
    Client(ClientOp),
    /// A cell acts.
    Cell(CellOp),
}

/// What a client does.
#[derive(Clone, Copy, Debug, PartialEq, Eq)]
pub enum ClientOp {
    Desire,
    Update,
    Undesire,
    Restart,
    Task,
    Cancel,
    Resolve,
    Delete,
    Fresh,
}

/// What a cell does. A claim and an up have a form for each kind of job.
#[derive(Clone, Copy, Debug, PartialEq, Eq)]
pub enum CellOp {
    Join,
    Renew,
    ClaimInstance,
    ClaimTask,
    Run,
    UpAll,
    UpInstance,
    UpTask,
    Crash,
    Finish,
    Settle,
    Evacuate,
    Die,
}
