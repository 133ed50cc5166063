//! A vector that grows.
ghost use Rattle.std.specs.Prelude.{◌≡◌, [], ◌∷◌, ◌++◌, OnOk, OnErr};

use diego_names::OutOfMemory;

/// Adds an item at the end. Where memory runs out the items stay. There is room before the item is moved, so
/// that no call has to have room to hand it back.
pub(crate) fn add<X: Copy>(items: &mut Vec<X>, item: X) -> Result<(), OutOfMemory>
    ensures ok { OnOk result (items.new.items ≡ items.old.items ++ item ∷ []) }
    ensures err { OnErr result (items.new.items ≡ items.old.items) }
{
    items.reserve(1)?;
    items.push_reserved(item);
    Ok(())
}
