//! What the actors bring back: themselves, their passes and their answers.
ghost use Rattle.std.specs.Prelude.{◌≡◌, ◌+◌, ◌++◌, ◌≤◌, ◌<◌, ◌∷◌, [], length, map, vec_len, vec_capacity};
ghost use Rattle.std.specs.List.{list_any};

use crate::acting::Acting;
use crate::dealing::Way;
use bbs_shared::BoardPass;
use byte_ports::Gate;
use diego_names::List;
use disk_trait::Disk;
use phase_actors::{ActorState, GatedPort};
use scenario_lines::Answered;
use std::sync::Wait;

pub(crate) fn is_any_starved<P>(all: &[Acting<P>]) -> bool
    ensures { result ≡ list_any (λ x. x.starved) all.now }
{
    all.iter().any(|acting| acting.starved)
}

fn gather_one<'a, R: Wait, D: Disk, G: Gate>(
    acting: Acting<Way<'a, R, D, G>>,
    slot: &mut ActorState,
    passes: &mut Vec<BoardPass<D>>,
    parts: &mut Vec<List<Answered>>,
)
    requires room { (vec_len passes.old < vec_capacity passes.old)
        × (vec_len parts.old < vec_capacity parts.old) }
    ensures actor { slot.new ≡ acting.entry.actor }
    ensures passes { passes.new.items ≡ passes.old.items ++ acting.entry.port.port.pass ∷ [] }
    ensures parts { parts.new.items ≡ parts.old.items ++ acting.entry.part.items ∷ [] }
    ensures more_passes { (vec_capacity passes.new ≡ vec_capacity passes.old)
        × (vec_len passes.new ≡ vec_len passes.old + 1) }
    ensures more_parts { (vec_capacity parts.new ≡ vec_capacity parts.old)
        × (vec_len parts.new ≡ vec_len parts.old + 1) }
{
    let Acting {
        by: _,
        port,
        actor,
        part,
        starved: _,
    } = acting;
    let GatedPort {
        port,
        gate: _,
        actor: _,
    } = port;
    *slot = actor;
    passes.push_reserved(port.into_pass());
    parts.push_reserved(List::from(part));
}

/// Puts the actors back into their list, their passes behind the others and their answers into
/// `parts`, all in the order of the actors.
pub(crate) fn gather<'a, R: Wait, D: Disk, G: Gate>(
    all: Vec<Acting<Way<'a, R, D, G>>>,
    actors: &mut [ActorState],
    passes: &mut Vec<BoardPass<D>>,
    parts: &mut Vec<List<Answered>>,
)
    requires count { length all.items ≡ length actors.old }
    requires room { (vec_len passes.old + length actors.old ≤ vec_capacity passes.old)
        × (vec_len parts.old + length actors.old ≤ vec_capacity parts.old) }
    ensures actors { actors.new ≡ map (λ x. x.actor) all.entry.items }
    ensures passes { passes.new.items
        ≡ passes.old.items ++ map (λ x. x.port.port.pass) all.entry.items }
    ensures parts { parts.new.items ≡ parts.old.items ++ map (λ x. x.part.items) all.entry.items }
{
    let mut all = all.into_iter();
    for index in 0..actors.len() {
        let Some(acting) = all.next() else {
            unreachable!()
        };
        gather_one(acting, &mut actors[index], passes, parts);
    }
}
