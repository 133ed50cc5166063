//! What the end of a call does to the cell that made it.
ghost use Rattle.std.specs.Prelude.{◌≡◌};
ghost use Rattle.cell_rep.specs.Acts.{not_joined};
ghost use Rattle.cell_rep.specs.Ends.{without, draining, after_ok, after_same, after_refusal, left};

use crate::call_end::CallEnd;
use crate::joined::Joined;
use crate::rep::CellRep;
use bbs_model::{Op, Reply};
use container_store::Store;
use diego_names::Instance;
use std::alloc::Global;

impl CellRep {
    fn drop_container(&mut self, instance: &Instance)
        ensures left { self.new ≡ without self.old instance.now }
        ensures cell { self.new.cell ≡ self.old.cell }
    {
        let _ = self.stop(instance);
    }

    fn be_drained(&mut self)
        ensures left { self.new ≡ draining self.old }
        ensures cell { self.new.cell ≡ self.old.cell }
    {
        if let Some(joined) = &mut self.joined {
            joined.draining = true;
        }
    }

    fn end_ok(&mut self, alloc: Global, op: &Op, stamp: u64)
        ensures left { self.new ≡ after_ok op.now stamp self.old }
        ensures cell { self.new.cell ≡ self.old.cell }
    {
        match op {
            Op::Crash { instance, .. }
            | Op::Unclaim { instance, .. }
            | Op::CompleteTask { instance, .. } => self.drop_container(instance),
            Op::Join {
                zone,
                tag,
                totals,
                ..
            } => {
                self.joined = Some(Joined {
                    zone: *zone,
                    tag: *tag,
                    draining: false,
                    store: Store::new(alloc, *totals, stamp),
                });
            }
            Op::Drain { .. } => self.be_drained(),
            _ => {}
        }
    }

    fn end_same(&mut self, op: &Op)
        ensures left { self.new ≡ after_same op.now self.old }
        ensures cell { self.new.cell ≡ self.old.cell }
    {
        if let Op::Drain { .. } = op {
            self.be_drained();
        }
    }

    fn end_refused(&mut self, op: &Op)
        ensures left { self.new ≡ after_refusal op.now self.old }
        ensures cell { self.new.cell ≡ self.old.cell }
    {
        match op {
            Op::Claim { instance, .. }
            | Op::Start { instance, .. }
            | Op::StartTask { instance, .. }
            | Op::Evacuate { instance, .. }
            | Op::Crash { instance, .. }
            | Op::Unclaim { instance, .. }
            | Op::CompleteTask { instance, .. } => self.drop_container(instance),
            Op::Join { .. } => self.joined = None,
            _ => {}
        }
    }

    /// The cell learns of the end of its call: of a reply that it hears, and else of nothing.
    pub(crate) fn learn(&mut self, alloc: Global, op: &Op, end: &CallEnd)
        ensures left { self.new ≡ left op.now end.now self.old }
        ensures cell { self.new.cell ≡ self.old.cell }
    {
        match end {
            CallEnd::Got(Reply::Ok { stamp, .. }) => self.end_ok(alloc, op, *stamp),
            CallEnd::Got(Reply::Same { .. }) => self.end_same(op),
            CallEnd::Got(Reply::Refused { .. }) => self.end_refused(op),
            _ => {}
        }
    }
}
