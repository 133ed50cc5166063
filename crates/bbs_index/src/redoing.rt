//! Moves that were made before, as a board makes them again when it is loaded: the row is found once,
//! and changed where it stands.
ghost use Rattle.std.specs.Prelude.{◌≡◌, ◌≤◌};
ghost use Rattle.bbs_index.specs.Redone.{IsRedone, has_joined, row_moved, row_moved_by};

use crate::Index;
use bbs_model::{MOST_TRANSITIONS, RowStore};
use crash_backoff::Moment;
use diego_names::{Key, Name};
use lrp_records::{LrpMove, MoveEnd, Presence, move_of};

impl Index {
    /// Makes a move on the ORDINARY row of an instance, as one transition, and tells whether it was
    /// one: a move that is refused, or asks for what is, changes nothing. It takes no memory and no
    /// room.
    pub fn redo_move(&mut self, key: &Key, mv: &LrpMove, now: Moment) -> bool
        ensures redone { IsRedone (row_moved self.old.rows key.entry.now mv.entry.now now) result
            self.old.rows self.new.rows }
        ensures spare { self.old.spare ≤ self.new.spare }
    {
        if self.next >= MOST_TRANSITIONS {
            return false;
        }
        let Some(number) = self.actual.find(&(*key, Presence::Ordinary)) else {
            return false;
        };
        let old = self.actual.at(number);
        match move_of(old, mv, now) {
            MoveEnd::Changed(new) => {
                self.actual.put_at(number, new);
                self.advance();
                true
            }
            MoveEnd::Gone => {
                let place = old.place();
                self.actual.remove(&place);
                self.advance();
                true
            }
            MoveEnd::Same | MoveEnd::Refused(_) => false,
        }
    }

    /// The same, where a cell makes the move for its container of this epoch.
    pub fn redo_move_by(
        &mut self,
        key: &Key,
        cell: &Name,
        epoch: u64,
        mv: &LrpMove,
        now: Moment,
    ) -> bool
        ensures redone { IsRedone (row_moved_by self.old.rows key.entry.now cell.entry.now epoch
            mv.entry.now now) result self.old.rows self.new.rows }
        ensures spare { self.old.spare ≤ self.new.spare }
    {
        if !self.has_joined(cell, epoch) {
            return false;
        }
        self.redo_move(key, mv, now)
    }

    // Whether the cell joined with this epoch, and not anew since.
    fn has_joined(&self, cell: &Name, epoch: u64) -> bool
        ensures { result ≡ has_joined self.now.rows cell.now epoch }
    {
        match self.cells.look(cell) {
            Some(row) => row.epoch == epoch,
            None => false,
        }
    }
}
