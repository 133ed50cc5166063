//! What a failed call has left to be mended.
ghost use Rattle.std.specs.Prelude.{◌≡◌};
ghost use Rattle.bbs_journal.specs.View.{is_waiting};

/// The gate that may be open and must not be: it has to be closed before the next append or switch.
#[derive(Clone, Copy, Debug, PartialEq, Eq)]
pub enum Waiting {
    /// None.
    Nothing,
    /// The gate behind the last frame.
    Frame,
    /// The header gate of the other area.
    Header,
}

/// Whether there is one.
pub(crate) fn is_waiting(waiting: Waiting) -> bool
    ensures { result ≡ is_waiting waiting }
{
    match waiting {
        Waiting::Nothing => false,
        Waiting::Frame => true,
        Waiting::Header => true,
    }
}
