//! What stays of a cell, whatever comes. A law does nothing: it is there for what it ensures.
ghost use Rattle.cell_rep.specs.Laws.{HasStore, KeepCells, RepsAnswer, StartsStand};

use crate::rep::CellRep;

/// A stop and the start of a job leave all of a cell but its containers, also where a call is lost.
pub fn stops_and_starts_keep_the_cell()
    ensures { KeepCells }
{}

/// The container of a start is there, behind the others, unless its refusal was heard; its number
/// is not given again. Where the board was not called, the cell is as it was.
pub fn a_start_stands_unless_its_refusal_is_heard()
    ensures { StartsStand }
{}

/// An answer has the name of the rep's cell; the numbers of its containers strictly rise; and no
/// more is free than there is.
pub fn reps_answer()
    ensures { RepsAnswer }
{}

impl CellRep {
    /// The store of a cell that has joined is one: so the numbers of its containers differ, and
    /// what is free is within the totals.
    pub fn holds(&self)
        ensures { HasStore self.now.joined }
    {
        if let Some(joined) = &self.joined {
            joined.store.holds();
        }
    }
}
