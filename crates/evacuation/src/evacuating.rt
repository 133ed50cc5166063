ghost use Rattle.std.specs.Prelude.{◌≡◌, ◌⊎◌, OnOk, OnErr};
ghost use Rattle.cell_rep.specs.Follows.{stage};
ghost use Rattle.evacuation.specs.Evacuation.{is_agreed, is_drained, Evacuates, StopsBetween};

use bbs_model::{Port, Reply};
use cell_rep::{CallEnd, Called, CellAct, CellRep, Wire, add_answer};
use crash_backoff::Moment;
use diego_names::OutOfMemory;
use std::alloc::Global;

fn is_agreed(end: &CallEnd) -> bool
    ensures { result ≡ is_agreed end.now }
{
    matches!(
        end,
        CallEnd::Got(Reply::Ok { .. }) | CallEnd::Got(Reply::Same { .. })
    )
}

/// Empties a cell: it tells the board so, and, where the board agrees, gives each of its containers
/// back or has it placed anew. Where memory runs out nothing was done, or the first of the two.
pub fn evacuate<P: Port, W: Wire>(
    rep: &mut CellRep,
    alloc: Global,
    port: &mut P,
    wire: &mut W,
    now: Moment,
    out: &mut Vec<Called>,
) -> Result<(), OutOfMemory>
    ensures keeps { P.keeps port.old port.new }
    ensures number { P.number port.new ≡ P.number port.old }
    ensures evacuated { OnOk result (Evacuates (P.number port.old) now
        (stage rep.old (P.view port.old) (W.ends wire.old) (W.losses wire.old) out.old.items)
        (stage rep.new (P.view port.new) (W.ends wire.new) (W.losses wire.new) out.new.items)) }
    ensures starved { OnErr result
        (((rep.new ≡ rep.old) × (out.new.items ≡ out.old.items)
        × (port.new ≡ port.old) × (wire.new ≡ wire.old))
        ⊎ StopsBetween (P.number port.old) now
        (stage rep.old (P.view port.old) (W.ends wire.old) (W.losses wire.old) out.old.items)
        (stage rep.new (P.view port.new) (W.ends wire.new) (W.losses wire.new) out.new.items)) }
    ensures cell { rep.new.cell ≡ rep.old.cell }
{
    out.reserve(1)?;
    let answer = rep.drain(alloc, port, wire, now);
    add_answer(out, &answer);
    if !is_agreed(&answer.end) {
        return Ok(());
    }
    match rep.act(alloc, &CellAct::Settle, port, wire, now, out) {
        Ok(()) => Ok(()),
        Err(want) => Err(want),
    }
}

/// Whether nothing stands on the cell, whether it is being emptied or not.
pub fn drained(rep: &CellRep) -> bool
    ensures { result ≡ is_drained rep.now }
{
    rep.is_empty()
}
