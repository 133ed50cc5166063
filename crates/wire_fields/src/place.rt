//! The bytes of one field, at its place.

ghost use Rattle.std.specs.Prelude.{◌≡◌, ◌+◌, ◌<◌, ◌≤◌, length, take, drop, MatchResult};
ghost use Rattle.wire_fields.specs.Field.{PutsText};
ghost use Rattle.wire_fields.specs.declared.fault.FieldFault.TheVariants.{Short};

use crate::fault::FieldFault;

/// So many bytes from `at` on.
pub(crate) fn bytes_at(bytes: &[u8], at: usize, count: usize) -> Result<&[u8], FieldFault>
    requires { at ≤ length bytes.now }
    ensures { MatchResult result
        (λ field. (at + count ≤ length bytes.now) × (field.now ≡ take count (drop at bytes.now)))
        (λ fault. (length bytes.now < at + count) × (fault ≡ Short (length bytes.now))) }
{
    if bytes.len() - at < count {
        return Err(FieldFault::Short { at: bytes.len() });
    }
    Ok(&bytes[at..at + count])
}

#[tactic(auto, unfolding(crate::specs::Field::written))]
/// Writes the field's bytes, and gives the place after it.
pub(crate) fn put_bytes(out: &mut [u8], at: usize, field: &[u8]) -> usize
    requires { at + length field.now ≤ length out.old }
    ensures { PutsText out.old at field.now out.new result }
{
    let after = at + field.len();
    out[at..after].copy_from_slice(field);
    after
}
