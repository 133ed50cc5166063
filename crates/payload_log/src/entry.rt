//! What became of a payload that was put into a log.
ghost use Rattle.std.specs.Prelude.{◌≡◌};
ghost use Rattle.payload_log.specs.Entries.{entry_of};

/// A payload that was put, or whose put failed.
#[derive(Clone, Copy, Debug, PartialEq, Eq)]
pub enum Entry<X> {
    /// It is acknowledged: each later stop leaves it.
    Done(X),
    /// The disk failed while it was put. It isn't acknowledged, and may show after a stop until the
    /// next one is.
    Doubt(X),
}

/// The entry of a payload, by whether it was put.
pub(crate) fn entry_of<X: Copy>(done: bool, payload: &X) -> Entry<X>
    ensures { result ≡ entry_of done payload.entry.now }
{
    if done {
        return Entry::Done(*payload);
    }
    Entry::Doubt(*payload)
}
