// What bytes are taken from.
ghost use Rattle.std.specs.Prelude.{ℕ, List, Option, is_err};
ghost use Rattle.std.specs.Io.{ReadsAtMost};
ghost use Rattle.std.specs.Io.KnownBytes.{ReadConsumes};
ghost use Rattle.byte_ports.specs.Cause.{HasCause};

use crate::Failed;

/// Gives bytes in their order, each once.
pub trait Source {
    /// The bytes left, where the source tells them.
    ghost left: { Self → Option (List ℕ) };

    /// How often it has failed.
    ghost faults: { Self → ℕ };

    /// Moves the first bytes left to the front of the room, and answers how many. With room there
    /// is at least 1 while bytes are left, so 0 means the end. After `Failed` the bytes left are
    /// what they were, but the room may hold anything.
    fn take(&mut self, room: &mut [u8]) -> Result<usize, Failed>
        ensures bound { ReadsAtMost result room.new }
        ensures bytes { ReadConsumes (left self.old) (left self.new) result room.new }
        ensures cause { HasCause (is_err result) (faults self.old) (faults self.new) };
}
