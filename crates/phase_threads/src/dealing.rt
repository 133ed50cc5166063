//! How the passes of a shared board are dealt to the actors.
ghost use Rattle.std.specs.Prelude.{◌≡◌, ◌+◌, ◌≤◌, [], length, vec_capacity};
ghost use Rattle.phase_threads.specs.Sharing.{AreOwn, AtEach, IsSet};

use crate::acting::Acting;
use bbs_shared::{BoardPass, SharedBoard, SharedPort};
use byte_ports::Gate;
use cell_rep::CellRep;
use disk_trait::Disk;
use phase_actors::{ActorState, GatedPort};
use std::alloc::Global;
use std::mem;
use std::sync::Wait;

/// The way of an actor or of the round to the shared board: by its pass, and past the gate.
pub(crate) type Way<'a, R, D, G> = GatedPort<'a, SharedPort<'a, R, D>, G>;

/// The way to the board by that pass.
pub(crate) fn way_by<'a, R: Wait, D: Disk, G: Gate>(
    rt: &'a R,
    shared: &'a SharedBoard<D>,
    gate: &'a G,
    pass: BoardPass<D>,
) -> Way<'a, R, D, G>
    requires { pass.place.table_id ≡ shared.now.desk.table.shared.table_id }
    ensures { result.port.pass ≡ pass }
{
    let actor = pass.number();
    GatedPort {
        port: shared.port(rt, pass),
        gate,
        actor,
    }
}

// Takes an actor out. One that has done nothing stands for it meanwhile.
fn take_actor(actor: &mut ActorState) -> ActorState
    ensures { result ≡ actor.old }
{
    let away = match actor {
        ActorState::Client(name) => ActorState::Client(*name),
        ActorState::Cell(rep) => ActorState::Cell(CellRep::new(rep.cell())),
    };
    mem::replace(actor, away)
}

fn set_out<'a, R: Wait, D: Disk, G: Gate>(
    rt: &'a R,
    alloc: Global,
    shared: &'a SharedBoard<D>,
    gate: &'a G,
    actor: &mut ActorState,
    pass: BoardPass<D>,
) -> Acting<Way<'a, R, D, G>>
    requires board { pass.place.table_id ≡ shared.now.desk.table.shared.table_id }
    ensures by { result.by ≡ pass.number }
    ensures pass { result.port.port.pass ≡ pass }
    ensures actor { (result.actor ≡ actor.old) × (result.part.items ≡ []) }
{
    Acting {
        by: pass.number(),
        port: way_by(rt, shared, gate, pass),
        actor: take_actor(actor),
        part: Vec::new(alloc),
        starved: false,
    }
}

/// Gives each actor the pass of its number, which is one more than its place. The actors are taken
/// out of their list until they are put back.
pub(crate) fn deal<'a, R: Wait, D: Disk, G: Gate>(
    rt: &'a R,
    alloc: Global,
    shared: &'a SharedBoard<D>,
    gate: &'a G,
    actors: &mut [ActorState],
    passes: Vec<BoardPass<D>>,
    mut all: Vec<Acting<Way<'a, R, D, G>>>,
) -> Vec<Acting<Way<'a, R, D, G>>>
    requires room { (all.items ≡ []) × (length actors.old ≤ vec_capacity all) }
    requires passes { AreOwn shared.now.desk.table.shared.key.value.start
        shared.now.desk.table.shared.table_id (length actors.old) passes.items }
    ensures { AtEach (IsSet (λ p. p.port.pass) shared.now.desk.table.shared.key.value.start
        shared.now.desk.table.shared.table_id (length actors.old + 1)) actors.old result.items }
{
    let mut passes = passes.into_iter();
    for index in 0..actors.len() {
        let Some(pass) = passes.next() else {
            unreachable!()
        };
        let acting = set_out(rt, alloc, shared, gate, &mut actors[index], pass);
        all.push_reserved(acting);
    }
    all
}
