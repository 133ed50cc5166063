//! Why bytes were not read as a head.

use bbs_codec::CodecFault;
use diego_names::OutOfMemory as NoMemory;
use thiserror::Error;

/// Why bytes are no head, or were not read.
#[derive(Clone, Copy, Debug, PartialEq, Eq, Error)]
pub enum HeadFault {
    /// The first fault from the left: a bad field at the front for the number of transitions and
    /// the counts, one at the first byte of the first row that is none or may not stand there, or
    /// bytes that are left over.
    #[error("{0}")]
    Codec(CodecFault),
    /// There was no memory for the rows. It says nothing of the bytes.
    #[error("out of memory")]
    OutOfMemory,
}

impl From<NoMemory> for HeadFault {
    ghost use Rattle.std.specs.Prelude.{◌≡◌};
    ghost use Rattle.head_codec.specs.declared.fault.HeadFault.TheVariants.{OutOfMemory};

    ghost from_gives = { λ _ e. e ≡ OutOfMemory };

    fn from(_: NoMemory) -> HeadFault {
        HeadFault::OutOfMemory
    }
}

impl From<CodecFault> for HeadFault {
    ghost use Rattle.std.specs.Prelude.{◌≡◌};
    ghost use Rattle.head_codec.specs.declared.fault.HeadFault.TheVariants.{Codec};

    ghost from_gives = { λ fault e. e ≡ Codec fault };

    fn from(fault: CodecFault) -> HeadFault {
        HeadFault::Codec(fault)
    }
}
