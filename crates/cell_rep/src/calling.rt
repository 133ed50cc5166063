//! One call of the board over a wire.
ghost use Rattle.std.specs.Prelude.{◌≡◌};
ghost use Rattle.byte_ports.specs.Cause.{HasCause};
ghost use Rattle.cell_rep.specs.Deliveries.{is_call_lost, IsDelivered, IsEndOf, end_now, EndFits, moved};

use crate::call_end::CallEnd;
use crate::wire::{CallKind, Delivery, Wire, WireCall};
use bbs_model::{CallFault, Command, Port, Reply};
use diego_names::Name;

fn end_of(answer: Result<Reply, CallFault>) -> CallEnd
    ensures { IsEndOf answer result }
{
    match answer {
        Ok(reply) => CallEnd::Got(reply),
        Err(fault) => CallEnd::Fault(fault),
    }
}

/// An actor calls the board over a wire.
pub fn called<P: Port, W: Wire>(
    port: &mut P,
    wire: &mut W,
    actor: Name,
    command: Command,
) -> CallEnd
    ensures keeps { P.keeps port.old port.new }
    ensures number { P.number port.new ≡ P.number port.old }
    ensures heard { IsDelivered (P.number port.old) (P.view port.old) command result
        (P.view port.new) }
    ensures end { EndFits (end_now (W.ends wire.old) actor) result }
    ensures later { W.ends wire.new ≡ moved (W.ends wire.old) }
    ensures cause { HasCause (is_call_lost result) (W.losses wire.old) (W.losses wire.new) }
{
    let call = WireCall {
        actor,
        kind: CallKind::Board,
    };
    match wire.deliver(call) {
        Delivery::CallLost => CallEnd::CallLost,
        Delivery::Through => end_of(port.call(command)),
        Delivery::ReplyLost => CallEnd::ReplyLost(port.call(command)),
    }
}
