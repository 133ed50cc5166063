//! Values that stand in bytes as fields, one behind the other.
ghost use Rattle.std.specs.Prelude.{◌≡◌, ◌+◌, ◌≤◌, length, IfOk};
ghost use Rattle.wire_fields.specs.Field.{PutsText};
ghost use Rattle.bbs_codec.specs.Format.{Format};

mod board_rows;
mod old_rows;
mod records;
mod rows;
mod single;
mod states;

pub use old_rows::read_old_actual;
use wire_fields::FieldFault;

/// A value that stands in bytes as fields, one behind the other.
pub trait Fields: Copy {
    // How its fields are spelled and read.
    ghost format: { Format Self };

    /// The value at a place, and the place after it.
    fn read_at(bytes: &[u8], at: usize) -> Result<(Self, usize), FieldFault>
        requires { at ≤ length bytes.now }
        ensures value { result ≡ format.read bytes.now at }
        ensures within { IfOk result (λ read. read.1 ≤ length bytes.now) };

    /// Writes the value at a place, where there is room, and gives the place after it.
    fn put_at(self, out: &mut [u8], at: usize) -> usize
        requires { at + length (format.spelling self) ≤ length out.old }
        ensures { PutsText out.old at (format.spelling self) out.new result };

    /// Every value has a spelling, and this shows that it does. It does nothing.
    fn fits(self)
        ensures { format.Fits self };
}
