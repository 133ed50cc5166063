//! An act's calls for each of some containers.
ghost use Rattle.std.specs.Prelude.{◌≡◌, ◌+◌, ◌<◌, ◌≤◌, ◌&&◌, vec_len, vec_capacity, length};
ghost use Rattle.std.specs.List.{filter_map};
ghost use Rattle.std.specs.Option.{option_to_list, is_none};
ghost use Rattle.cell_rep.specs.Acts.{each_todo, or_idle};
ghost use Rattle.cell_rep.specs.Follows.{stage, Performs};

use crate::begin_each::each_todo;
use crate::call_end::Called;
use crate::cell_act::CellAct;
use crate::rep::CellRep;
use crate::todo::Todo;
use crate::wire::Wire;
use bbs_model::Port;
use cell_records::Container;
use crash_backoff::Moment;
use std::alloc::Global;

/// Such an act, at a moment.
#[derive(Clone, Copy)]
pub(crate) struct EachAct {
    pub act: CellAct,
    pub moment: Moment,
    pub draining: bool,
}

impl CellRep {
    // The call for one container, if there is one. It tells whether nothing was called so far.
    fn perform_for<P: Port, W: Wire>(
        &mut self,
        alloc: Global,
        asked: &EachAct,
        container: &Container,
        idle: bool,
        port: &mut P,
        wire: &mut W,
        out: &mut Vec<Called>,
    ) -> bool
        requires { vec_len out.old < vec_capacity out.old }
        ensures keeps { P.keeps port.old port.new }
        ensures number { P.number port.new ≡ P.number port.old }
        ensures performs { Performs (P.number port.old) self.old.cell (option_to_list (each_todo
            asked.now.act asked.now.moment self.old.cell asked.now.draining container.now))
            (stage self.old (P.view port.old) (W.ends wire.old) (W.losses wire.old) out.old.items)
            (stage self.new (P.view port.new) (W.ends wire.new) (W.losses wire.new) out.new.items) }
        ensures idle { result ≡ (idle && is_none (each_todo
            asked.now.act asked.now.moment self.old.cell asked.now.draining container.now)) }
        ensures room { (vec_capacity out.new ≡ vec_capacity out.old)
            × (vec_len out.new ≤ vec_len out.old + 1) }
        ensures cell { self.new.cell ≡ self.old.cell }
    {
        match each_todo(
            &asked.act,
            asked.moment,
            self.cell,
            asked.draining,
            container,
        ) {
            None => idle,
            Some(todo) => {
                self.perform(alloc, &todo, port, wire, out);
                false
            }
        }
    }

    /// The calls for some containers, in order. There is room for their answers, and one more.
    pub(crate) fn perform_each<P: Port, W: Wire>(
        &mut self,
        alloc: Global,
        asked: &EachAct,
        containers: &[Container],
        port: &mut P,
        wire: &mut W,
        out: &mut Vec<Called>,
    )
        requires { vec_len out.old + length containers.now < vec_capacity out.old }
        ensures keeps { P.keeps port.old port.new }
        ensures number { P.number port.new ≡ P.number port.old }
        ensures performs { Performs (P.number port.old) self.old.cell
            (or_idle (filter_map (each_todo asked.now.act asked.now.moment self.old.cell
            asked.now.draining) containers.now))
            (stage self.old (P.view port.old) (W.ends wire.old) (W.losses wire.old) out.old.items)
            (stage self.new (P.view port.new) (W.ends wire.new) (W.losses wire.new) out.new.items) }
        ensures cell { self.new.cell ≡ self.old.cell }
    {
        let mut idle = true;
        for container in containers {
            idle = self.perform_for(alloc, asked, container, idle, port, wire, out);
        }
        if !idle {
            return;
        }
        self.perform(alloc, &Todo::Idle, port, wire, out);
    }
}
