//! What the desk asks of a value that many threads take turns at.

/// A value with a history that only grows. All three members are for clauses alone, so nothing of
/// them is stored.
pub trait History {
    ghost use Rattle.std.specs.Prelude.{List, ℕ};

    /// One entry of the history.
    type Item;

    /// What a value was made from, and no job changes.
    type Origin;

    /// The history, oldest item first.
    ghost items: { Self → List Self.Item };

    ghost origin: { Self → Self.Origin };

    /// The number of the pass that made an item.
    ghost by: { Self.Item → ℕ };
}
