// What bytes are put into.
ghost use Rattle.std.specs.Prelude.{ℕ, List, Option, is_err};
ghost use Rattle.std.specs.Io.{WritesAtMost};
ghost use Rattle.std.specs.Io.KnownBytes.{WriteAppends};
ghost use Rattle.byte_ports.specs.Cause.{HasCause};
ghost use Rattle.byte_ports.specs.Content.{TakesSome};

use crate::Failed;

/// Holds the bytes that were put into it, in their order.
pub trait Sink {
    /// The bytes held, where the sink tells them.
    ghost held: { Self → Option (List ℕ) };

    /// How often it has failed.
    ghost faults: { Self → ℕ };

    /// Appends the first bytes of the piece, and answers how many: at least 1, unless the piece is
    /// empty. After `Failed` the bytes held are what they were.
    fn put(&mut self, piece: &[u8]) -> Result<usize, Failed>
        ensures bound { WritesAtMost result piece.now }
        ensures some { TakesSome result piece.now }
        ensures bytes { WriteAppends (held self.old) (held self.new) result piece.now }
        ensures cause { HasCause (is_err result) (faults self.old) (faults self.new) };
}
