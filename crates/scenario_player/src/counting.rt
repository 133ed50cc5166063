//! What a run of a scenario has done to its board, in numbers.
ghost use Rattle.std.specs.Prelude.{◌≡◌, ◌<◌, ◌^◌, [], ◌∷◌, length};
ghost use Rattle.bbs_board.specs.Doubts.{doubts_in};
ghost use Rattle.scenario_player.specs.Plays.{summary_of};

use bbs_board::Board;
use bbs_model::Item;
use disk_trait::Disk;
use record_print::Summary;

fn doubts_of(item: &Item) -> u64
    ensures { result ≡ doubts_in (item.now ∷ []) }
{
    match item {
        Item::Done(..) => 0,
        Item::Doubt(..) => 1,
    }
}

/// How many of these items are doubts.
pub(crate) fn doubts_in(items: &[Item]) -> u64
    requires { length items.now < 2 ^ 64 }
    ensures { result ≡ doubts_in items.now }
{
    let mut doubts = 0u64;
    for item in items {
        doubts += doubts_of(item);
    }
    doubts
}

/// The counts of a run, of which so many phases ran. They are made in one look through the log.
pub(crate) fn summary_of<D: Disk>(board: &Board<D>, phases: u64) -> Summary
    ensures { result ≡ summary_of board.now phases }
{
    board.holds();
    let log = board.log();
    let doubts = doubts_in(log);
    Summary {
        done: log.len() as u64 - doubts,
        doubts,
        next: board.next(),
        phases,
    }
}
