//! What a round sends to a cell's rep.
ghost use Rattle.converge_round.specs.Sendings.{IsSent, wire_at};

use cell_rep::{CallKind, Delivery, Wire, WireCall};
use diego_names::Name;

/// One delivery to a rep, and whether it got through.
pub fn reaches<W: Wire>(wire: &mut W, actor: Name, kind: CallKind) -> bool
    ensures { IsSent actor kind result (wire_at (W.ends wire.old) (W.losses wire.old))
        (wire_at (W.ends wire.new) (W.losses wire.new)) }
{
    match wire.deliver(WireCall { actor, kind }) {
        Delivery::Through => true,
        Delivery::CallLost => false,
        Delivery::ReplyLost => false,
    }
}
