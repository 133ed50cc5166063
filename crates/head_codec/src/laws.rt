//! What holds of every head in bytes.
ghost use Rattle.std.specs.Prelude.{◌≡◌, ◌<◌, ◌≤◌, ◌++◌, List, ℕ, length, take, Ok, Err};
ghost use Rattle.std.specs.Int.{w64, from_be_bytes};
ghost use Rattle.wire_fields.specs.Laws.{IsBytes};
ghost use Rattle.bbs_model.specs.declared.rows.Rows.{Rows as SomeRows};
ghost use Rattle.bbs_codec.specs.declared.fault.CodecFault.{CodecFault as AFault};
ghost use Rattle.head_codec.specs.Head.{FitsHead, head_spelled, head_reading, fault_place, longest_head};

/// A head that was spelled in a version is read back in it.
pub fn heads_are_read_back()
    ensures { (version : ℕ) (rows : SomeRows) → FitsHead version rows
        → head_reading version (head_spelled version rows) ≡ Ok rows }
{}

/// Bytes that are read as a head of a version are its one spelling there, and its rows are those of a
/// board.
pub fn heads_have_one_spelling()
    ensures { (version : ℕ) (bytes : List ℕ) (rows : SomeRows) → IsBytes bytes
        → head_reading version bytes ≡ Ok rows
        → (bytes ≡ head_spelled version rows) × FitsHead version rows }
{}

/// A head begins with the number of transitions of its rows, in eight bytes.
pub fn heads_begin_with_their_transitions()
    ensures { (version : ℕ) (bytes : List ℕ) (rows : SomeRows) → head_reading version bytes ≡ Ok rows
        → (8 ≤ length bytes) × (from_be_bytes w64 (take 8 bytes) ≡ rows.next) }
{}

/// No head begins another of its version, so it is known where a head ends.
pub fn no_head_begins_another()
    ensures { (version : ℕ) (a b : SomeRows) (x y : List ℕ) → FitsHead version a → FitsHead version b
        → head_spelled version a ++ x ≡ head_spelled version b ++ y → (a ≡ b) × (x ≡ y) }
{}

/// The place of a head's fault is within its bytes, or just behind them.
pub fn head_faults_lie_within_the_bytes()
    ensures { (version : ℕ) (bytes : List ℕ) (fault : AFault) → head_reading version bytes ≡ Err fault
        → fault_place fault ≤ length bytes }
{}

/// No head is as long as this, and one that claims to be is told by its first bytes alone: its fault is
/// theirs, whatever follows.
pub fn a_head_that_is_too_long_is_told_by_its_first_bytes()
    ensures first { (version : ℕ) (bytes rest : List ℕ) → longest_head ≤ length bytes
        → head_reading version (bytes ++ rest) ≡ head_reading version bytes }
    ensures shorter { (version : ℕ) (bytes : List ℕ) (rows : SomeRows)
        → head_reading version bytes ≡ Ok rows → length bytes < longest_head }
{}
