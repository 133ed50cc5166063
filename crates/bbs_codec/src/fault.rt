ghost use Rattle.std.specs.Prelude.{◌≡◌};

use thiserror::Error;
use wire_fields::FieldFault;

/// Why bytes are no command: the first fault from the left.
#[derive(Clone, Copy, Debug, PartialEq, Eq, Error)]
pub enum CodecFault {
    /// The bytes end before the kind, or inside a field, at their length.
    #[error("the bytes end at {at}, inside a field")]
    Short { at: usize },
    /// No kind of command has the number at this place.
    #[error("no kind of command at {at}")]
    BadKind { at: usize },
    /// A field is not in its range. The place is its first byte.
    #[error("a bad field at {at}")]
    BadField { at: usize },
    /// Bytes are left over from this place on.
    #[error("bytes are left over at {at}")]
    Trailing { at: usize },
}

impl From<FieldFault> for CodecFault {
    ghost use Rattle.bbs_codec.specs.Command.{fault_of};

    ghost from_gives = { λ fault e. e ≡ fault_of fault };

    fn from(fault: FieldFault) -> CodecFault {
        match fault {
            FieldFault::Short { at } => CodecFault::Short { at },
            FieldFault::BadField { at } => CodecFault::BadField { at },
        }
    }
}
