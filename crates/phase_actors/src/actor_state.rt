//! The actors of a scenario, and one run of what a line says.
ghost use Rattle.std.specs.Prelude.{◌≡◌, [], OnOk, OnErr};
ghost use Rattle.cell_rep.specs.Follows.{Acts};
ghost use Rattle.evacuation.specs.Evacuation.{Evacuates, StopsBetween};
ghost use Rattle.phase_actors.specs.Runs.{HasActed, HasAsked, HasRun, IsActOf, IsCutEmptying, IsCutRun, IsOneActor};

use crate::run_wire::RunWire;
use bbs_model::{Command, Port};
use cell_rep::{Called, CellAct, CellRep, add_answer, called};
use crash_backoff::Moment;
use diego_names::{Name, OutOfMemory};
use evacuation::evacuate;
use scenario_lines::{Act, Loss};
use std::alloc::Global;

/// An actor of a scenario, as it is between two lines.
#[derive(Debug, Drop)]
pub enum ActorState {
    /// A client, which keeps nothing but its name.
    Client(Name),
    /// A cell, with its rep.
    Cell(CellRep),
}

fn ask<P: Port>(
    name: Name,
    command: &Command,
    mark: Option<Loss>,
    port: &mut P,
    out: &mut Vec<Called>,
) -> Result<(), OutOfMemory>
    requires { out.old.items ≡ [] }
    ensures keeps { P.keeps port.old port.new }
    ensures number { P.number port.new ≡ P.number port.old }
    ensures asked { OnOk result (HasAsked (P.number port.old) command.entry.now mark
        (P.view port.old) (P.view port.new) out.new.items) }
    ensures starved { OnErr result ((out.new.items ≡ []) × (port.new ≡ port.old)) }
{
    out.reserve(1)?;
    let mut wire = RunWire::new(mark);
    let end = called(port, &mut wire, name, *command);
    add_answer(
        out,
        &Called {
            command: Some(*command),
            end,
        },
    );
    Ok(())
}

fn act_once<P: Port>(
    rep: &mut CellRep,
    alloc: Global,
    act: &CellAct,
    mark: Option<Loss>,
    port: &mut P,
    now: Moment,
    out: &mut Vec<Called>,
) -> Result<(), OutOfMemory>
    requires { out.old.items ≡ [] }
    ensures keeps { P.keeps port.old port.new }
    ensures number { P.number port.new ≡ P.number port.old }
    ensures acted { OnOk result (HasActed (Acts (P.number port.old) act.now now) mark
        rep.old rep.new (P.view port.old) (P.view port.new) out.new.items) }
    ensures starved { OnErr result
        ((rep.new ≡ rep.old) × (out.new.items ≡ []) × (port.new ≡ port.old)) }
    ensures cell { rep.new.cell ≡ rep.old.cell }
{
    let mut wire = RunWire::new(mark);
    rep.act(alloc, act, port, &mut wire, now, out)
}

fn empty<P: Port>(
    rep: &mut CellRep,
    alloc: Global,
    mark: Option<Loss>,
    port: &mut P,
    now: Moment,
    out: &mut Vec<Called>,
) -> Result<(), OutOfMemory>
    requires { out.old.items ≡ [] }
    ensures keeps { P.keeps port.old port.new }
    ensures number { P.number port.new ≡ P.number port.old }
    ensures emptied { OnOk result (HasActed (Evacuates (P.number port.old) now) mark
        rep.old rep.new (P.view port.old) (P.view port.new) out.new.items) }
    ensures starved { OnErr result (IsCutEmptying (P.number port.old) now mark
        rep.old rep.new (P.view port.old) (P.view port.new) out.new.items) }
    ensures cell { rep.new.cell ≡ rep.old.cell }
{
    let mut wire = RunWire::new(mark);
    evacuate(rep, alloc, port, &mut wire, now, out)
}

impl ActorState {
    /// One run of an act, over a wire that is to lose what the mark says. `out` has its calls
    /// afterwards, and nothing else. Where memory runs out nothing was done, or the drain of an
    /// evacuation. A call that wants memory is an answer, and does not end the run.
    pub fn run<P: Port>(
        &mut self,
        alloc: Global,
        act: &Act,
        mark: Option<Loss>,
        port: &mut P,
        now: Moment,
        out: &mut Vec<Called>,
    ) -> Result<(), OutOfMemory>
        requires { IsActOf act.now self.old }
        ensures keeps { P.keeps port.old port.new }
        ensures number { P.number port.new ≡ P.number port.old }
        ensures ran { OnOk result (HasRun (P.number port.old) now act.entry.now mark
            self.old self.new (P.view port.old) (P.view port.new) out.new.items) }
        ensures cut { OnErr result (IsCutRun (P.number port.old) now act.entry.now mark
            self.old self.new (P.view port.old) (P.view port.new) out.new.items) }
        ensures one { IsOneActor self.old self.new }
    {
        out.clear();
        match self {
            ActorState::Client(name) => match act {
                Act::Client(op) => ask(*name, &Command { now, op: *op }, mark, port, out),
                _ => unreachable!(),
            },
            ActorState::Cell(rep) => match act {
                Act::Cell(act) => act_once(rep, alloc, act, mark, port, now, out),
                Act::Evacuate => empty(rep, alloc, mark, port, now, out),
                Act::Client(_) => unreachable!(),
            },
        }
    }
}
