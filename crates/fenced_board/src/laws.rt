//! What holds of calls behind a fence, one after the other.
ghost use Rattle.fenced_board.specs.Laws.{LowerNumbersAreStale};

use disk_trait::Disk;

/// A call with a lower number than one that was shown before is told so, and nothing is done, whatever
/// became of the calls between. It does nothing: it is there for what it ensures.
pub fn a_lower_number_never_writes_after_a_higher_one<D: Disk>()
    ensures { LowerNumbersAreStale D }
{}
