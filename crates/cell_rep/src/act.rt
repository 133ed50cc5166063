//! The acts of a cell, each with its memory first: where it runs out, nothing was done.
ghost use Rattle.std.specs.Prelude.{◌≡◌, OnOk, OnErr};
ghost use Rattle.cell_rep.specs.Follows.{stage, Acts};
ghost use Rattle.cell_rep.specs.Kinds.{IsOfOne, IsOfEach};

use crate::call_end::Called;
use crate::cell_act::CellAct;
use crate::each::EachAct;
use crate::rep::CellRep;
use crate::todo::Todo;
use crate::wire::Wire;
use bbs_model::Port;
use crash_backoff::Moment;
use diego_names::OutOfMemory;
use std::alloc::Global;

impl CellRep {
    fn act_once<P: Port, W: Wire>(
        &mut self,
        alloc: Global,
        act: &CellAct,
        port: &mut P,
        wire: &mut W,
        now: Moment,
        out: &mut Vec<Called>,
    ) -> Result<(), OutOfMemory>
        requires { IsOfOne act.now }
        ensures keeps { P.keeps port.old port.new }
        ensures number { P.number port.new ≡ P.number port.old }
        ensures acted { OnOk result (Acts (P.number port.old) act.entry.now now
            (stage self.old (P.view port.old) (W.ends wire.old) (W.losses wire.old) out.old.items)
            (stage self.new (P.view port.new) (W.ends wire.new) (W.losses wire.new) out.new.items)) }
        ensures starved { OnErr result ((self.new ≡ self.old) × (out.new.items ≡ out.old.items)
            × (port.new ≡ port.old) × (wire.new ≡ wire.old)) }
        ensures cell { self.new.cell ≡ self.old.cell }
    {
        out.reserve(1)?;
        match self.begin(act, now) {
            Err(want) => Err(want),
            Ok(todo) => {
                self.perform(alloc, &todo, port, wire, out);
                Ok(())
            }
        }
    }

    fn act_each<P: Port, W: Wire>(
        &mut self,
        alloc: Global,
        act: &CellAct,
        port: &mut P,
        wire: &mut W,
        now: Moment,
        out: &mut Vec<Called>,
    ) -> Result<(), OutOfMemory>
        requires { IsOfEach act.now }
        ensures keeps { P.keeps port.old port.new }
        ensures number { P.number port.new ≡ P.number port.old }
        ensures acted { OnOk result (Acts (P.number port.old) act.entry.now now
            (stage self.old (P.view port.old) (W.ends wire.old) (W.losses wire.old) out.old.items)
            (stage self.new (P.view port.new) (W.ends wire.new) (W.losses wire.new) out.new.items)) }
        ensures starved { OnErr result ((self.new ≡ self.old) × (out.new.items ≡ out.old.items)
            × (port.new ≡ port.old) × (wire.new ≡ wire.old)) }
        ensures cell { self.new.cell ≡ self.old.cell }
    {
        let containers = match self.asked_of(alloc, act) {
            Err(want) => return Err(want),
            Ok(containers) => containers,
        };
        out.reserve(containers.items().len() + 1)?;
        let asked = EachAct {
            act: *act,
            moment: now,
            draining: self.is_draining(),
        };
        let refusal = self.refusal_of(act, containers.items());
        self.begin_each(act);
        match refusal {
            Some(why) => self.perform(alloc, &Todo::Local(why), port, wire, out),
            None => self.perform_each(alloc, &asked, containers.items(), port, wire, out),
        }
        Ok(())
    }

    /// Does an act: to its containers at once, and then its calls, whose answers come behind those
    /// in `out`. Where memory runs out before that, nothing was done. It goes on after a call that
    /// had no answer.
    pub fn act<P: Port, W: Wire>(
        &mut self,
        alloc: Global,
        act: &CellAct,
        port: &mut P,
        wire: &mut W,
        now: Moment,
        out: &mut Vec<Called>,
    ) -> Result<(), OutOfMemory>
        ensures keeps { P.keeps port.old port.new }
        ensures number { P.number port.new ≡ P.number port.old }
        ensures acted { OnOk result (Acts (P.number port.old) act.entry.now now
            (stage self.old (P.view port.old) (W.ends wire.old) (W.losses wire.old) out.old.items)
            (stage self.new (P.view port.new) (W.ends wire.new) (W.losses wire.new) out.new.items)) }
        ensures starved { OnErr result ((self.new ≡ self.old) × (out.new.items ≡ out.old.items)
            × (port.new ≡ port.old) × (wire.new ≡ wire.old)) }
        ensures cell { self.new.cell ≡ self.old.cell }
    {
        match act {
            CellAct::Up { .. } | CellAct::Settle => {
                self.act_each(alloc, act, port, wire, now, out)
            }
            _ => self.act_once(alloc, act, port, wire, now, out),
        }
    }
}
