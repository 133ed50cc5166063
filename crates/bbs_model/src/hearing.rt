//! What is heard of a log, where it is kept what each of its items told.
ghost use Rattle.std.specs.Prelude.{◌≡◌, ◌+◌, ◌-◌, ◌≤◌, ◌∷◌, ◌++◌, min, length, take, drop, IfOk, OnOk};
ghost use Rattle.std.specs.List.{flat_map};
ghost use Rattle.std.specs.Option.{option_to_list};
ghost use Rattle.bbs_model.specs.Told.{each_event};

use crate::{Event, Events, Heard};
use diego_names::{List, OutOfMemory};
use std::alloc::Global;

/// What is heard of the items from the place `from` on, of `max` items at most. `told` has what each
/// item told, a doubt nothing.
pub fn hear(
    alloc: Global,
    told: &[Option<Events>],
    from: u64,
    max: u32,
) -> Result<Heard, OutOfMemory>
    requires { from ≤ length told.now }
    ensures events { IfOk result (λ heard.
        heard.events ≡ flat_map each_event (take max (drop from told.now))) }
    ensures upto { IfOk result (λ heard. heard.upto ≡ from + min max (length told.now - from)) }
{
    let rest = &told[from as usize..];
    let some = &rest[..rest.len().min(max as usize)];
    let upto = from + some.len() as u64;
    let events = each_of(alloc, some)?;
    Ok(Heard { events, upto })
}

/// The events of these items, in order.
fn each_of(alloc: Global, told: &[Option<Events>]) -> Result<List<Event>, OutOfMemory>
    ensures { IfOk result (λ events. events ≡ flat_map each_event told.now) }
{
    let mut events = List::new(alloc);
    for one in told {
        if let Some(one) = one {
            add(&mut events, one.first, one.second)?;
        }
    }
    Ok(events)
}

/// Adds one item or two at the end. Where memory runs out, only the first of two may be there.
fn add<X: Copy>(items: &mut List<X>, first: X, second: Option<X>) -> Result<(), OutOfMemory>
    ensures { OnOk result (items.new ≡ items.old ++ first ∷ option_to_list second) }
{
    items.push(first)?;
    match second {
        None => Ok(()),
        Some(second) => items.push(second),
    }
}
