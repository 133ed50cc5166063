//! The wire of a round.
ghost use Rattle.std.specs.Prelude.{◌≡◌};
ghost use Rattle.phase_runs.specs.RoundMarks.{end_if, end_to};

use crate::lost_names::LostNames;
use cell_rep::{CallKind, Delivery, Wire, WireCall};
use diego_names::Name;
use scenario_lines::RoundLine;
use std::alloc::Global;

/// The wire of a round, which loses what the round's line says, by cell and kind of call.
#[derive(Drop)]
pub(crate) struct RoundWire<'a> {
    line: &'a RoundLine,
    asks: LostNames<'a>,
    stops: LostNames<'a>,
    starts: LostNames<'a>,
    replies: LostNames<'a>,
    losses: u64,
    ghost asks_are: { asks.list.now ≡ line.now.lose_ask },
    ghost stops_are: { stops.list.now ≡ line.now.lose_stop },
    ghost starts_are: { starts.list.now ≡ line.now.lose_start },
    ghost replies_are: { replies.list.now ≡ line.now.lose_reply },
}

fn end_if(lost: bool, end: Delivery) -> Delivery
    ensures { result ≡ end_if lost end }
{
    if lost { end } else { Delivery::Through }
}

impl<'a> RoundWire<'a> {
    /// A wire of that line, which has lost nothing. It hashes the line's names where there is memory.
    pub(crate) fn new(alloc: Global, line: &'a RoundLine) -> RoundWire<'a>
        ensures line { result.line.now ≡ line.now }
        ensures losses { result.losses ≡ 0 }
    {
        RoundWire {
            line,
            asks: LostNames::of(alloc, &line.lose_ask),
            stops: LostNames::of(alloc, &line.lose_stop),
            starts: LostNames::of(alloc, &line.lose_start),
            replies: LostNames::of(alloc, &line.lose_reply),
            losses: 0,
        }
    }

    // What becomes of a call of that kind to a cell.
    fn end_to(&self, cell: &Name, kind: CallKind) -> Delivery
        ensures { result ≡ end_to self.now.line.now cell.now kind }
    {
        match kind {
            CallKind::Ask => end_if(self.asks.has(cell), Delivery::CallLost),
            CallKind::Stop => end_if(self.stops.has(cell), Delivery::CallLost),
            CallKind::Start => end_if(self.starts.has(cell), Delivery::CallLost),
            CallKind::Board => end_if(self.replies.has(cell), Delivery::ReplyLost),
        }
    }
}

impl<'a> Wire for RoundWire<'a> {
    ghost use Rattle.std.specs.Prelude.{Some};
    ghost use Rattle.phase_runs.specs.RoundMarks.{round_ends};

    ghost losses = { λ w. w.losses };

    ghost ends = { λ w. Some (round_ends w.line.now) };

    fn deliver(&mut self, call: WireCall) -> Delivery {
        let end = self.end_to(&call.actor, call.kind);
        if end != Delivery::Through {
            self.losses = self.losses.saturating_add(1);
        }
        end
    }
}
