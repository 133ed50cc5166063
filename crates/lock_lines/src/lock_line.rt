use locket::LockCommand;

/// A line of a script of lock commands. Lines count from 1.
#[derive(Clone, Copy, Debug, PartialEq, Eq)]
pub struct LockLine {
    pub line: u32,
    pub command: LockCommand,
}
