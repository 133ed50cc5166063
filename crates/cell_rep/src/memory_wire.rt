ghost use Rattle.std.specs.Prelude.{◌≡◌, ◌+◌, ◌==◌, find, Some};
ghost use Rattle.cell_rep.specs.Wires.{end_listed};
ghost use Rattle.cell_rep.specs.NewWire.{IsNewWire};

use crate::wire::{Delivery, Wire, WireCall};

/// A wire in memory. It numbers its deliveries from 1, and gives those that are listed the end that
/// is listed; the first entry of a number counts.
#[derive(Debug, Drop)]
pub struct MemoryWire {
    listed: Vec<(u64, Delivery)>,
    made: u64,
    losses: u64,
}

impl MemoryWire {
    pub fn new(lost: Vec<(u64, Delivery)>) -> MemoryWire
        ensures { IsNewWire lost.items result }
    {
        MemoryWire {
            listed: lost,
            made: 0,
            losses: 0,
        }
    }
}

// The first entry of a number.
fn entry_of(listed: &[(u64, Delivery)], number: u64) -> Option<(u64, Delivery)>
    ensures { result ≡ find (λ e. e.0 == number) listed.now }
{
    listed.iter().copied().find(|entry| entry.0 == number)
}

// The end of the delivery with that number.
fn end_listed(listed: &[(u64, Delivery)], number: u64) -> Delivery
    ensures { result ≡ end_listed listed.now number }
{
    match entry_of(listed, number) {
        None => Delivery::Through,
        Some(entry) => entry.1,
    }
}

impl Wire for MemoryWire {
    ghost losses = { λ w. w.losses };

    ghost ends = { λ w. Some (λ call n. end_listed w.listed.items (w.made + 1 + n)) };

    fn deliver(&mut self, _call: WireCall) -> Delivery {
        let Some(number) = self.made.checked_add(1) else {
            return Delivery::Through;
        };
        self.made = number;
        let end = end_listed(&self.listed, number);
        if end != Delivery::Through {
            self.losses = self.losses.saturating_add(1);
        }
        end
    }
}
