//! Each field is written at its place, where there is room, and gives the place after it.

ghost use Rattle.std.specs.Prelude.{◌+◌, ◌≤◌, length};
ghost use Rattle.std.specs.Int.{w8, w16, w32, w64};
ghost use Rattle.wire_fields.specs.Field.{field_number, field_name, field_optional_name, field_truth, field_instance, field_optional_instance, PutsText};

use crate::place::put_bytes;
use diego_names::{Instance, Name};

/// Writes a byte.
#[tactic(auto, unfolding(crate::specs::Field::field_number))]
pub fn put_u8(out: &mut [u8], at: usize, number: u8) -> usize
    requires { at + length (field_number w8 number) ≤ length out.old }
    ensures { PutsText out.old at (field_number w8 number) out.new result }
{
    put_bytes(out, at, &number.to_be_bytes())
}

/// Writes a number, its highest byte first.
#[tactic(auto, unfolding(crate::specs::Field::field_number))]
pub fn put_u16(out: &mut [u8], at: usize, number: u16) -> usize
    requires { at + length (field_number w16 number) ≤ length out.old }
    ensures { PutsText out.old at (field_number w16 number) out.new result }
{
    put_bytes(out, at, &number.to_be_bytes())
}

/// Writes a number, its highest byte first.
#[tactic(auto, unfolding(crate::specs::Field::field_number))]
pub fn put_u32(out: &mut [u8], at: usize, number: u32) -> usize
    requires { at + length (field_number w32 number) ≤ length out.old }
    ensures { PutsText out.old at (field_number w32 number) out.new result }
{
    put_bytes(out, at, &number.to_be_bytes())
}

/// Writes a number, its highest byte first.
#[tactic(auto, unfolding(crate::specs::Field::field_number))]
pub fn put_u64(out: &mut [u8], at: usize, number: u64) -> usize
    requires { at + length (field_number w64 number) ≤ length out.old }
    ensures { PutsText out.old at (field_number w64 number) out.new result }
{
    put_bytes(out, at, &number.to_be_bytes())
}

/// Writes 0 or 1.
#[tactic(auto, unfolding(crate::specs::Field::field_truth))]
pub fn put_truth(out: &mut [u8], at: usize, truth: bool) -> usize
    requires { at + length (field_truth truth) ≤ length out.old }
    ensures { PutsText out.old at (field_truth truth) out.new result }
{
    put_bytes(out, at, &[u8::from(truth)])
}

/// Writes a length byte, and the bytes of the name.
#[tactic(auto, unfolding(crate::specs::Field::field_name))]
pub fn put_name(out: &mut [u8], at: usize, name: Name) -> usize
    requires { at + length (field_name name) ≤ length out.old }
    ensures { PutsText out.old at (field_name name) out.new result }
{
    let bytes = name.bytes();
    let at = put_bytes(out, at, &[bytes.len() as u8]);
    put_bytes(out, at, bytes)
}

/// Writes a zero byte, or a name.
#[tactic(auto, unfolding(crate::specs::Field::field_optional_name))]
pub fn put_optional_name(out: &mut [u8], at: usize, name: Option<Name>) -> usize
    requires { at + length (field_optional_name name) ≤ length out.old }
    ensures { PutsText out.old at (field_optional_name name) out.new result }
{
    match name {
        None => put_bytes(out, at, &[0]),
        Some(name) => put_name(out, at, name),
    }
}

/// Writes the epoch, and then the number.
#[tactic(auto, unfolding(crate::specs::Field::field_instance))]
pub fn put_instance(out: &mut [u8], at: usize, instance: Instance) -> usize
    requires { at + length (field_instance instance) ≤ length out.old }
    ensures { PutsText out.old at (field_instance instance) out.new result }
{
    let at = put_u64(out, at, instance.epoch);
    put_u32(out, at, instance.number)
}

/// Writes a truth value and, after yes, an instance.
#[tactic(auto, unfolding(crate::specs::Field::field_truth, crate::specs::Field::field_optional_instance))]
pub fn put_optional_instance(out: &mut [u8], at: usize, instance: Option<Instance>) -> usize
    requires { at + length (field_optional_instance instance) ≤ length out.old }
    ensures { PutsText out.old at (field_optional_instance instance) out.new result }
{
    match instance {
        None => put_truth(out, at, false),
        Some(instance) => {
            let at = put_truth(out, at, true);
            put_instance(out, at, instance)
        }
    }
}
