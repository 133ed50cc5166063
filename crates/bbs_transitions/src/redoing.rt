//! The step of a command that a board has taken before: all that is told is whether it was legal.
ghost use Rattle.std.specs.Prelude.{◌≡◌, ◌+◌, ◌≤◌, true, false};
ghost use Rattle.bbs_model.specs.Runs.{if_legal, state_after};
ghost use Rattle.bbs_model.specs.Step.{verdict_of};
ghost use Rattle.bbs_model.specs.Valid.{IsValid};

use crate::{Stepped, step_in};
use bbs_model::{Command, RowStore};

/// Does what a command says where it is legal, and tells whether it is. It takes no memory: room for
/// two rows was reserved.
pub fn redo<T: RowStore>(store: &mut T, command: &Command) -> bool
    requires valid { IsValid (T.state store.old) }
    requires room { 2 ≤ T.spare store.old }
    ensures legal { result ≡ if_legal (verdict_of (T.state store.old) command.entry.now) true false }
    ensures state { T.state store.new ≡ state_after (T.state store.old) command.entry.now }
    ensures valid { IsValid (T.state store.new) }
    ensures spare { T.spare store.old ≤ T.spare store.new + 2 }
{
    match step_in(store, command) {
        Stepped::Done(_) => true,
        Stepped::Same | Stepped::Refused(_) => false,
    }
}
