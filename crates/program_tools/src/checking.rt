//! What a check of a board finds.
ghost use Rattle.std.specs.Prelude.{◌≡◌, false};
ghost use Rattle.std.specs.Option.{ForSome};
ghost use Rattle.bbs_board.specs.KeptIn.{IsKeptIn};
ghost use Rattle.bbs_board.specs.View.{rows_of};
ghost use Rattle.program_tools.specs.Records.{check_place};

use bbs_board::{Board, KeptIn};
use disk_trait::Disk;
use record_print::Check;

/// What a check of a board finds.
pub(crate) fn check_of<D: Disk>(board: &Board<D>) -> Check
    ensures place { board.now.waits ≡ false
        → ForSome (D.told board.now.disk) (IsKeptIn (check_place result)) }
    ensures next { result.next ≡ (rows_of board.now).next }
{
    let KeptIn {
        area,
        generation,
        frames,
    } = board.kept_in();
    Check {
        area,
        frames,
        generation,
        next: board.next(),
    }
}
