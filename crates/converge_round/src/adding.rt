//! Lists that are made item by item.
ghost use Rattle.std.specs.Prelude.{◌≡◌, [], ◌∷◌, ◌++◌, OnOk};
ghost use Rattle.std.specs.Option.{option_to_list};

use diego_names::{List, OutOfMemory};

/// Adds an item at the end, if there is one.
pub(crate) fn add<X: Copy>(items: &mut List<X>, item: Option<X>) -> Result<(), OutOfMemory>
    ensures { OnOk result (items.new ≡ items.old ++ option_to_list item) }
{
    match item {
        None => Ok(()),
        Some(item) => items.push(item),
    }
}

/// Adds this item at the end.
pub(crate) fn add_one<X: Copy>(items: &mut List<X>, item: &X) -> Result<(), OutOfMemory>
    ensures { OnOk result (items.new ≡ items.old ++ item.now ∷ []) }
{
    items.push(*item)
}
