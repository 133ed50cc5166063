//! What a locket puts into its log.
ghost use Rattle.std.specs.Prelude.{◌≡◌};

use crate::bytes::put_lock_command;
use crate::command::LockCommand;
use payload_log::{Entry, Payload};

/// A command that was done, or that is in doubt since the disk failed.
pub type LockItem = Entry<LockCommand>;

impl Payload for LockCommand {
    ghost use Rattle.locket.specs.Bytes.{lock_spelled};

    ghost spelling = { lock_spelled };

    fn put(&self, out: &mut [u8; 512]) -> usize {
        put_lock_command(out, self)
    }
}
