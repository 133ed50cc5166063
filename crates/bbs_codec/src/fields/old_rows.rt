//! An actual row as heads of version 1 have it.
#![tactic(auto, unfolding(crate::specs::Format::seen_at))]

ghost use Rattle.std.specs.Prelude.{◌≡◌, ◌≤◌, length, IfOk};
ghost use Rattle.bbs_codec.specs.RowFormats.{old_presence, old_actual};

use crate::fields::Fields;
use crash_backoff::Moment;
use diego_names::Key;
use lrp_records::{Actual, LrpState, Presence};
use wire_fields::FieldFault;

/// Reads a presence, which is a truth value there.
fn read_old_presence(bytes: &[u8], at: usize) -> Result<(Presence, usize), FieldFault>
    requires { at ≤ length bytes.now }
    ensures value { result ≡ old_presence.read bytes.now at }
    ensures within { IfOk result (λ read. read.1 ≤ length bytes.now) }
{
    let (is_evacuating, at) = bool::read_at(bytes, at)?;
    let presence = if is_evacuating {
        Presence::Evacuating
    } else {
        Presence::Ordinary
    };
    Ok((presence, at))
}

/// Reads an actual row of version 1, which tells no domain.
pub fn read_old_actual(bytes: &[u8], at: usize) -> Result<(Actual, usize), FieldFault>
    requires { at ≤ length bytes.now }
    ensures value { result ≡ old_actual.read bytes.now at }
    ensures within { IfOk result (λ read. read.1 ≤ length bytes.now) }
{
    let (key, at) = Key::read_at(bytes, at)?;
    let (presence, at) = read_old_presence(bytes, at)?;
    let (state, at) = LrpState::read_at(bytes, at)?;
    let ((count, since), at) = <(u32, u32)>::read_at(bytes, at)?;
    let (error, at) = bool::read_at(bytes, at)?;
    let row = Actual {
        key,
        presence,
        state,
        count,
        since: Moment(since),
        error,
        domain: None,
    };
    Ok((row, at))
}
