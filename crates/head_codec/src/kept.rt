//! What the rows of each table keep beside the order of their keys.
ghost use Rattle.std.specs.Prelude.{◌≡◌, ℕ, ◌≤◌, length, option_map, IfOk};
ghost use Rattle.bbs_codec.specs.Format.{Format};
ghost use Rattle.head_codec.specs.Head.{Keeps};

use bbs_codec::Fields;
use bbs_model::Rowed;
use wire_fields::FieldFault;

/// A row of a table, as a head has it.
pub trait HeadRow: Fields + Rowed {
    // What the rows of its table keep.
    ghost keeps: { Keeps Self };

    // How its fields are spelled and read in each version.
    ghost formats: { ℕ → Format Self };

    /// The row at a place of a head of this version, and the place after it.
    fn read_in(bytes: &[u8], version: u16, at: usize) -> Result<(Self, usize), FieldFault>
        requires { at ≤ length bytes.now }
        ensures value { result ≡ (formats version).read bytes.now at }
        ensures within { IfOk result (λ read. read.1 ≤ length bytes.now) };

    /// It takes few bytes, and this shows it. It does nothing.
    fn is_short(self)
        ensures { length (Self.format.spelling self) ≤ 344 };

    /// How many rows the table has at most.
    fn most() -> usize
        ensures { result ≡ keeps.most };

    /// Whether a board with so many transitions can have the row.
    fn suits(&self, next: u64) -> bool
        ensures { result ≡ keeps.suits next self.now };

    /// How many instances the row wants.
    fn wants(&self) -> u32
        ensures { result ≡ keeps.wants self.now };

    /// The number in which it differs from the other rows.
    fn stamp(&self) -> Option<u64>
        ensures { result ≡ option_map (λ stamp. stamp self.now) keeps.stamp };

    // It is written as version 2 has it.
    ghost latest: { (row : Self) → (formats 2).spelling row ≡ Self.format.spelling row };
}
