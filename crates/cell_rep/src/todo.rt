use crate::call_end::RepRefusal;
use bbs_model::Command;

/// What a rep does next.
#[derive(Clone, Copy, Debug, PartialEq, Eq)]
pub enum Todo {
    Call(Command),
    /// Nothing is to be called.
    Idle,
    /// The rep refuses.
    Local(RepRefusal),
}
