//! Each field is read at its place, and gives the place after it.

ghost use Rattle.std.specs.Prelude.{◌≡◌, ◌<◌, ◌≤◌, length, IfOk, Some, None, if◌then◌else◌};
ghost use Rattle.std.specs.Int.{w8, w16, w32, w64};
ghost use Rattle.std.specs.List.{list_all};
ghost use Rattle.diego_names.specs.Name.{is_name_byte};
ghost use Rattle.wire_fields.specs.Reading.{number_at, name_at, optional_name_at, truth_at, instance_at, optional_instance_at};

use crate::fault::FieldFault;
use crate::place::bytes_at;
use diego_names::{Instance, Name};

#[tactic(auto, unfolding(crate::specs::Reading::number_at))]
pub fn read_u8(bytes: &[u8], at: usize) -> Result<(u8, usize), FieldFault>
    requires { at ≤ length bytes.now }
    ensures value { result ≡ number_at w8 bytes.now at }
    ensures within { IfOk result (λ read. read.1 ≤ length bytes.now) }
{
    let field = bytes_at(bytes, at, 1)?;
    Ok((field[0], at + 1))
}

#[tactic(auto, unfolding(crate::specs::Reading::number_at))]
pub fn read_u16(bytes: &[u8], at: usize) -> Result<(u16, usize), FieldFault>
    requires { at ≤ length bytes.now }
    ensures value { result ≡ number_at w16 bytes.now at }
    ensures within { IfOk result (λ read. read.1 ≤ length bytes.now) }
{
    let field = bytes_at(bytes, at, 2)?;
    Ok((u16::from_be_bytes([field[0], field[1]]), at + 2))
}

#[tactic(auto, unfolding(crate::specs::Reading::number_at))]
pub fn read_u32(bytes: &[u8], at: usize) -> Result<(u32, usize), FieldFault>
    requires { at ≤ length bytes.now }
    ensures value { result ≡ number_at w32 bytes.now at }
    ensures within { IfOk result (λ read. read.1 ≤ length bytes.now) }
{
    let field = bytes_at(bytes, at, 4)?;
    let number = u32::from_be_bytes([field[0], field[1], field[2], field[3]]);
    Ok((number, at + 4))
}

#[tactic(auto, unfolding(crate::specs::Reading::number_at))]
pub fn read_u64(bytes: &[u8], at: usize) -> Result<(u64, usize), FieldFault>
    requires { at ≤ length bytes.now }
    ensures value { result ≡ number_at w64 bytes.now at }
    ensures within { IfOk result (λ read. read.1 ≤ length bytes.now) }
{
    let field = bytes_at(bytes, at, 8)?;
    let number = u64::from_be_bytes([
        field[0], field[1], field[2], field[3], field[4], field[5], field[6], field[7],
    ]);
    Ok((number, at + 8))
}

/// Reads 0 or 1.
#[tactic(auto, unfolding(crate::specs::Reading::truth_at))]
pub fn read_truth(bytes: &[u8], at: usize) -> Result<(bool, usize), FieldFault>
    requires { at ≤ length bytes.now }
    ensures value { result ≡ truth_at bytes.now at }
    ensures within { IfOk result (λ read. read.1 ≤ length bytes.now) }
{
    match &bytes[at..] {
        [] => Err(FieldFault::Short { at: bytes.len() }),
        [0, ..] => Ok((false, at + 1)),
        [1, ..] => Ok((true, at + 1)),
        [_, ..] => Err(FieldFault::BadField { at }),
    }
}

fn name_of(field: &[u8]) -> Option<Name>
    requires { (0 < length field.now) × (length field.now ≤ 80) }
    ensures { result ≡ (if list_all is_name_byte field.now then Some field.now else None) }
{
    Name::read(field).ok()
}

/// Reads a length byte of 1 to 80, and so many bytes of a name.
#[tactic(auto, unfolding(crate::specs::Reading::name_at))]
pub fn read_name(bytes: &[u8], at: usize) -> Result<(Name, usize), FieldFault>
    requires { at ≤ length bytes.now }
    ensures value { result ≡ name_at bytes.now at }
    ensures within { IfOk result (λ read. read.1 ≤ length bytes.now) }
{
    let [len, rest @ ..] = &bytes[at..] else {
        return Err(FieldFault::Short { at: bytes.len() });
    };
    let len = *len as usize;
    if len == 0 || len > 80 {
        return Err(FieldFault::BadField { at });
    }
    if rest.len() < len {
        return Err(FieldFault::Short { at: bytes.len() });
    }
    match name_of(&rest[..len]) {
        Some(name) => Ok((name, at + 1 + len)),
        None => Err(FieldFault::BadField { at }),
    }
}

/// Reads a zero byte, or a name.
#[tactic(auto, unfolding(crate::specs::Reading::name_at, crate::specs::Reading::optional_name_at))]
pub fn read_optional_name(bytes: &[u8], at: usize) -> Result<(Option<Name>, usize), FieldFault>
    requires { at ≤ length bytes.now }
    ensures value { result ≡ optional_name_at bytes.now at }
    ensures within { IfOk result (λ read. read.1 ≤ length bytes.now) }
{
    if let [0, ..] = &bytes[at..] {
        return Ok((None, at + 1));
    }
    let (name, after) = read_name(bytes, at)?;
    Ok((Some(name), after))
}

/// Reads an epoch, and then a number.
#[tactic(auto, unfolding(crate::specs::Reading::instance_at))]
pub fn read_instance(bytes: &[u8], at: usize) -> Result<(Instance, usize), FieldFault>
    requires { at ≤ length bytes.now }
    ensures value { result ≡ instance_at bytes.now at }
    ensures within { IfOk result (λ read. read.1 ≤ length bytes.now) }
{
    let (epoch, at) = read_u64(bytes, at)?;
    let (number, at) = read_u32(bytes, at)?;
    Ok((Instance { epoch, number }, at))
}

/// Reads a truth value and, after yes, an instance.
#[tactic(auto, unfolding(crate::specs::Reading::optional_instance_at))]
pub fn read_optional_instance(
    bytes: &[u8],
    at: usize,
) -> Result<(Option<Instance>, usize), FieldFault>
    requires { at ≤ length bytes.now }
    ensures value { result ≡ optional_instance_at bytes.now at }
    ensures within { IfOk result (λ read. read.1 ≤ length bytes.now) }
{
    let (is_there, at) = read_truth(bytes, at)?;
    if !is_there {
        return Ok((None, at));
    }
    let (instance, at) = read_instance(bytes, at)?;
    Ok((Some(instance), at))
}
