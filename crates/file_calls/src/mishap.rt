// What goes wrong with a system in memory.

/// How a call of the system goes wrong.
#[derive(Clone, Copy, Debug, PartialEq, Eq)]
pub enum MishapKind {
    /// A read gives, or a write takes, one byte.
    Short,
    /// A signal came first.
    Interrupted,
    /// An error.
    Refused,
    /// A length is one byte less than it was, the first byte of a read is another, and a write is
    /// said to have been made and wasn't.
    Lie,
}

/// These calls go wrong, by their numbers from 1. A system that lies for ever from call 7 on has
/// `Mishap { from: 7, to: u64::MAX, kind: MishapKind::Lie }`.
#[derive(Clone, Copy, Debug)]
pub struct Mishap {
    pub from: u64,
    pub to: u64,
    pub kind: MishapKind,
}
