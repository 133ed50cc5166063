// The length of a file.
ghost use Rattle.std.specs.Prelude.{◌≡◌, true, false, ◌∷◌, MatchResult};
ghost use Rattle.file_calls.specs.Call.{measured};

use crate::{CallError, Calls};
use disk_trait::Area;

/// Asks for the length once, and answers as the system does.
pub(crate) fn measure<C: Calls>(calls: &mut C, area: Area) -> Result<u64, CallError>
    ensures { MatchResult result
        (λ n. C.history calls.new ≡ measured area true n ∷ C.history calls.old)
        (λ _. C.history calls.new ≡ measured area false 0 ∷ C.history calls.old) }
{
    calls.len(area)
}
