//! Ways between actors, on which a call or its reply may be lost.
ghost use Rattle.std.specs.Prelude.{ℕ, Option};
ghost use Rattle.byte_ports.specs.Cause.{HasCause};
ghost use Rattle.cell_rep.specs.Wires.{is_delivery_lost, Delivers};
ghost use Rattle.cell_rep.specs.declared.wire.WireCall.{WireCall as ACall};
ghost use Rattle.cell_rep.specs.declared.wire.Delivery.{Delivery as AnEnd};

use diego_names::Name;

/// What a call over a wire is for.
#[derive(Clone, Copy, Debug, PartialEq, Eq)]
pub enum CallKind {
    /// A round asks a rep what it has.
    Ask,
    /// A round gives a rep's container up.
    Stop,
    /// A round starts a job on a rep.
    Start,
    /// An actor calls the board.
    Board,
}

/// A call over a wire, by the actor at its end that isn't the board or the round.
#[derive(Clone, Copy, Debug, PartialEq, Eq)]
pub struct WireCall {
    pub actor: Name,
    pub kind: CallKind,
}

/// What became of a call over a wire.
#[derive(Clone, Copy, Debug, PartialEq, Eq)]
pub enum Delivery {
    Through,
    /// It did not reach its end.
    CallLost,
    /// It was done, and the answer did not come back.
    ReplyLost,
}

/// A wire decides of each call what becomes of it, and counts those that are lost.
pub trait Wire {
    // How many calls or replies it has lost.
    ghost losses: { Self → ℕ };

    // Where it tells them, the end of the delivery number n from now, counted from 0, if it is of
    // this call.
    ghost ends: { Self → Option (ACall → ℕ → AnEnd) };

    /// One call goes over the wire.
    fn deliver(&mut self, call: WireCall) -> Delivery
        ensures cause { HasCause (is_delivery_lost result) (losses self.old) (losses self.new) }
        ensures ends { Delivers (ends self.old) (ends self.new) call result };
}
