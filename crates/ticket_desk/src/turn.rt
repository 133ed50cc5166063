//! A turn.
use crate::desk::Desk;
use crate::history::History;
use crate::pass::PassOf;
use crate::rule::{Place, Top};
use crate::tickets::{await_turn, draw, hand_on};
use std::sync::Wait;

impl<V: History> Desk<V> {
    ghost use Rattle.std.specs.Prelude.{◌≡◌};
    ghost use Rattle.ticket_desk.specs.Passes.{view_of, IsSamePass};
    ghost use Rattle.ticket_desk.specs.Turns.{JobKeeps, Turned};

    /// Waits until all who drew a ticket before have had their turn, and runs the job on the value.
    /// The job has the value for itself, so that it may take its time: threads that wait sleep.
    pub fn turn<R: Wait, X, J: FnOnce(&mut V) -> X>(
        &self,
        rt: &R,
        pass: &mut PassOf<V>,
        job: J,
    ) -> X
        requires desk { pass.old.place.table_id ≡ self.now.table.shared.table_id }
        requires job { JobKeeps V.items V.origin J.FnOnce job V.by pass.old.number
            (view_of pass.old) }
        ensures same { IsSamePass pass.old pass.new }
        ensures turn { Turned V.items V.origin J.FnOnce job V.by pass.old.number
            (view_of pass.old) (view_of pass.new) result }
    {
        let top = &self.table.shared;
        let number = pass.number;
        let place = &mut pass.place;
        let ticket = draw(top, place, number);
        await_turn(rt, top, &self.bells, place, number, ticket);
        let Some(mut value) = top.exchange(place, 0, None) else {
            unreachable!()
        };
        let answer = job(&mut value);
        match top.exchange(place, 0, Some(value)) {
            None => {}
            Some(_) => unreachable!(),
        }
        hand_on(top, &self.bells, place, number, ticket);
        answer
    }
}
