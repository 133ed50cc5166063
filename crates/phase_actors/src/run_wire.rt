//! The wire of one run of a line.
ghost use Rattle.std.specs.Prelude.{◌≡◌};
ghost use Rattle.phase_actors.specs.Marks.{delivery_under, IsRunWire};

use cell_rep::{Delivery, Wire, WireCall};
use scenario_lines::Loss;

/// The wire of one run: its first delivery is lost as the line's mark says, or its reply is, and
/// each later one gets through.
#[derive(Debug, Drop)]
pub(crate) struct RunWire {
    next: Delivery,
    losses: u64,
}

fn delivery_under(mark: Option<Loss>) -> Delivery
    ensures { result ≡ delivery_under mark }
{
    match mark {
        None => Delivery::Through,
        Some(Loss::Call) => Delivery::CallLost,
        Some(Loss::Reply) => Delivery::ReplyLost,
    }
}

impl RunWire {
    /// A wire for a run with that mark.
    pub(crate) fn new(mark: Option<Loss>) -> RunWire
        ensures { IsRunWire mark result }
    {
        RunWire {
            next: delivery_under(mark),
            losses: 0,
        }
    }
}

impl Wire for RunWire {
    ghost use Rattle.std.specs.Prelude.{Some};
    ghost use Rattle.phase_actors.specs.Marks.{ends_from};

    ghost losses = { λ w. w.losses };

    ghost ends = { λ w. Some (ends_from w.next) };

    fn deliver(&mut self, _call: WireCall) -> Delivery {
        let end = self.next;
        self.next = Delivery::Through;
        if end != Delivery::Through {
            self.losses = self.losses.saturating_add(1);
        }
        end
    }
}
