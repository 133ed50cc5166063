//! Reps by the names of their cells.
ghost use Rattle.std.specs.Prelude.{ℕ, List, IfOk};
ghost use Rattle.converge_round.specs.Reps.{names_of, IsPlaceOf, IsRepIndex};

use cell_rep::CellRep;
use diego_names::{Name, OutOfMemory};
use std::alloc::Global;
use std::collections::BTreeMap;

/// Where the rep of each cell stands, found in a logarithm of steps. Reps keep the names of their
/// cells, so one index serves a whole round.
#[derive(Drop)]
pub struct RepIndex {
    places: BTreeMap<Name, usize>,
}

impl RepIndex {
    pub fn of(alloc: Global, reps: &[CellRep]) -> Result<RepIndex, OutOfMemory>
        ensures { IfOk result (IsRepIndex (names_of reps.now)) }
    {
        let mut places = BTreeMap::new(alloc);
        for at in 0..reps.len() {
            places.insert(reps[at].cell(), at)?;
        }
        Ok(RepIndex { places })
    }

    /// Where the rep of that cell stands.
    pub fn find(&self, cell: &Name) -> Option<usize>
        ensures { (names : List (List ℕ)) → IsRepIndex names self.now →
            IsPlaceOf names cell.now result }
    {
        self.places.get(cell).copied()
    }
}
