//! The laws of the orders, which crates above cite.
ghost use Rattle.std.specs.Prelude.{◌≡◌};
ghost use Rattle.row_tables.specs.Table.{IsKeyOrder};
ghost use Rattle.diego_names.specs.declared.key.Key.{Key as AKey};
ghost use Rattle.lrp_records.specs.Place.{place_order};
ghost use Rattle.lrp_records.specs.Presence.{presence_order};
ghost use Rattle.lrp_records.specs.declared.presence.Presence.{Presence as APresence};

use crate::presence::Presence;
use diego_names::Key;

/// The ORDINARY row comes first, then the EVACUATING one, then the SUSPECT one, and only equal presences tie.
pub fn presences_are_ordered()
    ensures compared { (a b : APresence) → ⟦<Presence as Ord>⟧.cmp a b ≡ presence_order a b }
    ensures order { IsKeyOrder presence_order }
{}

/// The places of actual rows stand in a total order, and only equal places tie.
pub fn places_are_ordered()
    ensures compared { (a b : AKey × APresence)
        → ⟦<(Key, Presence) as Ord>⟧.cmp a b ≡ place_order a b }
    ensures order { IsKeyOrder place_order }
{}

#[cfg(test)]
mod tests {
    use super::*;
    use crate::actual::Actual;
    use crate::state::LrpState;
    use crash_backoff::Moment;
    use diego_names::Name;
    use std::test::Fail;

    #[test]
    fn rows_stand_by_process_index_and_presence(rt: HostRuntime) -> Result<(), Fail> {
        presences_are_ordered();
        places_are_ordered();
        let process = Name::read(b"web")?;
        let first = Actual {
            key: Key { process, index: 9 },
            presence: Presence::Ordinary,
            state: LrpState::Unclaimed,
            count: 0,
            since: Moment(0),
            error: false,
            domain: None,
        };
        let second = Actual {
            presence: Presence::Evacuating,
            ..first
        };
        let third = Actual {
            presence: Presence::Suspect,
            ..first
        };
        let last = Actual {
            key: Key { process, index: 10 },
            ..first
        };
        assert!(rt; first.place() < second.place());
        assert!(rt; second.place() < third.place());
        assert!(rt; third.place() < last.place());
        Ok(())
    }
}
