// What is asked of the system: it keeps a record of its calls, whatever they answer.
ghost use Rattle.std.specs.Prelude.{◌≡◌, ◌<◌, ◌≤◌, ◌^◌, true, false, List, [], ◌∷◌, length, take, is_ok, IfOk, MatchResult};
ghost use Rattle.file_calls.specs.Call.{Call, began, means, measured, read, written, named, flushed};
ghost use Rattle.file_calls.specs.Files.{First, held_by, is_ready};
ghost use Rattle.file_calls.specs.Honest.{is_honest};
ghost use Rattle.file_calls.specs.Made.{was_synced};

use crate::CallError;
use disk_trait::Area;

/// The calls of the system on two files, one method for each. Nothing is supposed of an answer but
/// its bounds. Each call and its answer is on record, and clauses alone read the record.
pub trait Calls {
    /// What the files held at the first call. No code can read it.
    ghost first: { First };

    /// Each call so far, the newest first.
    ghost history: { Self → List Call };

    /// Notes that a device call begins. It is no call of the system.
    fn begin(&mut self)
        ensures { history self.new ≡ began ∷ history self.old };

    /// Notes the whole range that a device call is going to write, before it writes any part of it.
    /// It is no call of the system.
    fn announce(&mut self, area: Area, at: u64, len: usize)
        ensures { history self.new ≡ means area at len ∷ history self.old };

    /// The length of the file in bytes.
    fn len(&mut self, area: Area) -> Result<u64, CallError>
        ensures { MatchResult result
            (λ n. history self.new ≡ measured area true n ∷ history self.old)
            (λ _. history self.new ≡ measured area false 0 ∷ history self.old) };

    /// Reads at least one byte, unless the file ends at `at` or before, and maybe fewer than there
    /// is room for.
    fn read_some(&mut self, area: Area, at: u64, room: &mut [u8]) -> Result<usize, CallError>
        requires { 0 < length room.old }
        ensures count { IfOk result (λ n. (n ≤ length room.old) × (at < 2 ^ 63)) }
        ensures noted { MatchResult result
            (λ n. history self.new ≡ read area at true (take n room.new) ∷ history self.old)
            (λ _. history self.new ≡ read area at false [] ∷ history self.old) };

    /// Writes at least one byte of the front, and maybe not all. The range was announced, and begins
    /// no further than the file's end: as far as the answers so far are those of a disk.
    fn write_some(&mut self, area: Area, at: u64, bytes: &[u8]) -> Result<usize, CallError>
        requires some { 0 < length bytes.now }
        requires ready { is_honest first (history self.old) ≡ true
            → is_ready (held_by first area (history self.old)) at bytes.now ≡ true }
        ensures count { IfOk result (λ n. (0 < n) × (n ≤ length bytes.now) × (at < 2 ^ 63)) }
        ensures noted { MatchResult result
            (λ n. history self.new ≡ written area at true (take n bytes.now) ∷ history self.old)
            (λ _. history self.new ≡ written area at false [] ∷ history self.old) };

    /// Puts the file's name on the disk, by a sync of its folder.
    fn sync_name(&mut self, area: Area) -> Result<(), CallError>
        ensures { history self.new ≡ named area (is_ok result) ∷ history self.old };

    /// Puts what the file holds on the disk. It is asked once in a device call: where it is refused
    /// the system may have dropped what it had to write, and a second answer would mean nothing.
    fn sync_data(&mut self, area: Area) -> Result<(), CallError>
        requires { was_synced area (history self.old) ≡ false }
        ensures { history self.new ≡ flushed area (is_ok result) ∷ history self.old };
}
