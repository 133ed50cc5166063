//! What is printed of entries that left the table, or came into it.
ghost use Rattle.std.specs.Prelude.{◌≡◌, ◌++◌, IfOk, OnOk, true, false};
ghost use Rattle.route_emitter.specs.Lines.{lines};

use diego_names::OutOfMemory;
use route_emitter::{RouteChange, RouteEntry, route_text};
use std::alloc::Global;

/// Adds the line of each entry, in their order.
fn add_lines(
    text: &mut Vec<u8>,
    alloc: Global,
    entries: &[RouteEntry],
    register: bool,
) -> Result<(), OutOfMemory>
    ensures { OnOk result (text.new.items ≡ text.old.items ++ lines register entries.now) }
{
    for entry in entries {
        text.extend_from_slice(&route_text(alloc, entry, register)?)?;
    }
    Ok(())
}

/// The text of a change: each entry that left the table, and then each that came into it.
pub(crate) fn change_text(alloc: Global, change: &RouteChange) -> Result<Vec<u8>, OutOfMemory>
    ensures { IfOk result (λ text. text.items ≡
        lines false change.now.unregister ++ lines true change.now.register) }
{
    let mut text = Vec::new(alloc);
    add_lines(&mut text, alloc, change.unregister.items(), false)?;
    add_lines(&mut text, alloc, change.register.items(), true)?;
    Ok(text)
}
