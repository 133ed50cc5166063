//! How a pair is made of two boards.
ghost use Rattle.std.specs.Prelude.{◌≡◌, IfOk, IfErr, IsTrue, ◌↔◌};
ghost use Rattle.std.specs.Option.{ForSome};
ghost use Rattle.bbs_board.specs.View.{rows_of};
ghost use Rattle.standby_board.specs.Ends.{IsStarted, TellsApart};
ghost use Rattle.standby_board.specs.Images.{StandbyShows};
ghost use Rattle.standby_board.specs.Pairs.{IsCalm, StandsPaired};

use crate::answers::StartRefusal;
use crate::equality::are_equal;
use crate::pair::Pair;
use bbs_board::Board;
use diego_names::OutOfMemory;
use disk_trait::Disk;
use fenced_board::Fence;
use std::alloc::Global;
use std::snapshot::Snapshot;

/// Whether both boards have the same rows. Those of both are copied.
fn have_equal_rows<D: Disk, E: Disk>(
    alloc: Global,
    primary: &Board<D>,
    standby: &Board<E>,
) -> Result<bool, OutOfMemory>
    ensures { IfOk result (λ equal. IsTrue equal ↔ (rows_of primary.now ≡ rows_of standby.now)) }
{
    let one = primary.rows(alloc)?;
    let other = standby.rows(alloc)?;
    Ok(are_equal(&one, &other))
}

impl<D: Disk, E: Disk> Pair<D, E> {
    /// Makes a pair of two boards that have the same rows, `next` included. No number below the floor is
    /// taken. Where the rows differ, or can't be compared for want of memory, both boards come back as
    /// they were.
    pub fn start(
        alloc: Global,
        primary: Board<D>,
        standby: Board<E>,
        floor: u64,
    ) -> Result<Pair<D, E>, (Board<D>, Board<E>, StartRefusal)>
        requires calm { IsCalm standby.log }
        ensures started { IfOk result (IsStarted primary standby floor) }
        ensures apart { IfErr result (λ e. TellsApart primary standby e.2) }
        ensures back { IfErr result (λ e. (e.0 ≡ primary) × (e.1 ≡ standby)) }
        ensures stands { IfOk result (StandsPaired D.told E.told) }
        ensures shows { IfOk result (λ v. ForSome (E.told v.standby.disk)
            (StandbyShows (E.moment v.standby_start.disk) v)) }
    {
        match have_equal_rows(alloc, &primary, &standby) {
            Err(OutOfMemory) => Err((primary, standby, StartRefusal::OutOfMemory)),
            Ok(false) => {
                let refusal = StartRefusal::Unequal {
                    primary: primary.next(),
                    standby: standby.next(),
                };
                Err((primary, standby, refusal))
            }
            Ok(true) => {
                let pair = paired(alloc, primary, standby, floor);
                pair.holds();
                Ok(pair)
            }
        }
    }
}

/// The pair of two boards with the same rows.
fn paired<D: Disk, E: Disk>(
    alloc: Global,
    primary: Board<D>,
    standby: Board<E>,
    floor: u64,
) -> Pair<D, E>
    requires equal { rows_of primary ≡ rows_of standby }
    requires calm { IsCalm standby.log }
    ensures started { IsStarted primary standby floor result }
    ensures stands { StandsPaired D.told E.told result }
{
    standby.holds();
    let primary_start = Snapshot::of(&primary);
    let standby_start = Snapshot::of(&standby);
    Pair {
        alloc,
        primary,
        standby,
        fence: Fence::new(alloc, floor),
        missing: None,
        primary_start,
        standby_start,
    }
}
