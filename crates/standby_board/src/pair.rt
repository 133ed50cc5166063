//! The pair itself.
use bbs_board::Board;
use bbs_model::Command;
use disk_trait::Disk;
use fenced_board::Fence;
use std::alloc::Global;
use std::marker::Model;
use std::snapshot::Snapshot;

/// Two boards with the same rows, the standby at most one command behind the primary. Whoever calls
/// shows the greatest number so far.
#[derive(Drop)]
pub struct Pair<D: Disk, E: Disk> {
    pub(crate) alloc: Global,
    pub(crate) primary: Board<D>,
    pub(crate) standby: Board<E>,
    pub(crate) fence: Fence,
    // What the primary has stored and the standby has not, with the number of its caller.
    pub(crate) missing: Option<(u32, Command)>,
    // Both boards as the pair was started, for clauses alone: they have no bytes.
    pub(crate) primary_start: Snapshot<Board<D>>,
    pub(crate) standby_start: Snapshot<Board<E>>,
}

impl<D: Disk, E: Disk> Model for Pair<D, E> {
    ghost use Rattle.standby_board.specs.Pairs.{PairView, StandsPaired};

    ghost Value = { PairView D E };

    ghost view = { λ p. record {
      primary = p.primary;
      standby = p.standby;
      primary_start = p.primary_start.value;
      standby_start = p.standby_start.value;
      fence = p.fence;
      missing = p.missing;
    } };

    ghost invariant = { λ p. StandsPaired D.told E.told (record {
      primary = p.primary;
      standby = p.standby;
      primary_start = p.primary_start.value;
      standby_start = p.standby_start.value;
      fence = p.fence;
      missing = p.missing;
    }) };
}
