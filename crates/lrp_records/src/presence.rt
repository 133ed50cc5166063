ghost use Rattle.std.specs.Prelude.{◌≡◌, nat_eq};
ghost use Rattle.std.specs.Cmp.{partial_order_from_own_ties};
ghost use Rattle.std.specs.Cmp.Rules.{comparing, hashing};
ghost use Rattle.std.specs.Hash as fed;
ghost use Rattle.std.specs.Ordering.{as_partial_cmp, on};
ghost use Rattle.lrp_records.specs.Presence.{rank_of, presence_order};
ghost use Rattle.std.proofs.Common.{rules};

use std::cmp::Ordering;
use std::hash::{Hash, Hasher};

/// Which of an instance's three rows a row is. A cell that is being emptied keeps its instance in an
/// EVACUATING row, and a cell that has gone silent in a SUSPECT row, while the ORDINARY row is placed
/// anew. The ORDINARY row comes first, and the SUSPECT row last.
#[derive(Clone, Copy, Debug)]
pub enum Presence {
    Ordinary,
    Evacuating,
    Suspect,
}

impl Presence {
    /// The place in the order: 0 for ORDINARY, 1 for EVACUATING, 2 for SUSPECT.
    pub fn rank(self) -> u8
        ensures { result ≡ rank_of self }
    {
        match self {
            Presence::Ordinary => 0,
            Presence::Evacuating => 1,
            Presence::Suspect => 2,
        }
    }
}

impl PartialEq for Presence {
    ghost eq = { on rank_of nat_eq };

    ghost laws = { Prim.search (comparing, rules) };

    fn eq(&self, other: &Presence) -> bool {
        self.rank() == other.rank()
    }
}

impl Eq for Presence {
    ghost laws = { Prim.search (comparing, rules) };
}

impl Ord for Presence {
    ghost cmp = { presence_order };

    ghost total = { Prim.search (comparing, rules) };

    ghost matches_partial_cmp = { Prim.search (comparing, rules) };

    ghost matches_eq = { Prim.search (comparing, rules) };

    fn cmp(&self, other: &Presence) -> Ordering {
        self.rank().cmp(&other.rank())
    }
}

impl PartialOrd for Presence {
    ghost partial_cmp = { as_partial_cmp presence_order };

    ghost laws = { partial_order_from_own_ties
        (Prim.search (comparing, rules))
        (Prim.search (comparing, rules)) };

    fn partial_cmp(&self, other: &Presence) -> Option<Ordering> {
        Some(self.cmp(other))
    }
}

impl Hash for Presence {
    ghost hash_input = { λ presence. fed.u8 (rank_of presence) };

    ghost respects_eq = { Prim.search (hashing, rules) };

    fn hash<H: Hasher>(&self, state: &mut H) {
        self.rank().hash(state);
    }
}

#[cfg(test)]
mod tests {
    use super::*;

    #[test]
    fn the_ordinary_row_stands_first(rt: HostRuntime) {
        let rows = (Presence::Ordinary, Presence::Evacuating, Presence::Suspect);
        assert!(rt; rows.0 < rows.1);
        assert!(rt; rows.1 < rows.2);
        assert_ne!(rt; rows.0, rows.1);
        assert_ne!(rt; rows.1, rows.2);
        assert_eq!(rt; (rows.0.rank(), rows.1.rank(), rows.2.rank()), (0, 1, 2));
    }
}
