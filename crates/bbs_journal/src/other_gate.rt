//! The header gate of the area that doesn't hold the frames.
ghost use Rattle.std.specs.Prelude.{◌≡◌, ◌<◌, ◌^◌};
ghost use Rattle.bbs_journal.specs.Switching.{size_written};

/// What is known of the header gate of the other area.
#[derive(Clone, Copy, Debug, PartialEq, Eq)]
pub enum OtherGate {
    /// It is 0, and a stop leaves it so.
    Shut,
    /// It may be any byte, or missing. Where it is open, a header of an older generation follows.
    Loose,
    /// It is 0, and a stop leaves it so. The next header follows, with a head of so many bytes, and a
    /// closed gate. Where the header gate waits to be mended it may be open.
    Written { size: u32 },
}

/// The size of the head that stands written behind it, 0 where none does.
pub(crate) fn size_written(gate: OtherGate) -> u32
    ensures value { result ≡ size_written gate }
    ensures small { result < 2 ^ 32 }
{
    match gate {
        OtherGate::Shut => 0,
        OtherGate::Loose => 0,
        OtherGate::Written { size } => size,
    }
}
