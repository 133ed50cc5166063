//! Where the bytes of a command end.
ghost use Rattle.std.specs.Prelude.{◌≡◌, ◌<◌, ◌≤◌, length, MatchResult};
ghost use Rattle.bbs_codec.specs.declared.fault.CodecFault.TheVariants.{Trailing};

use crate::fault::CodecFault;

/// Whether the bytes end at a place, or which are left over.
pub fn end_at(bytes: &[u8], at: usize) -> Result<(), CodecFault>
    ensures { MatchResult result
        (λ _. length bytes.now ≤ at)
        (λ fault. (at < length bytes.now) × (fault ≡ Trailing at)) }
{
    if at < bytes.len() {
        return Err(CodecFault::Trailing { at });
    }
    Ok(())
}
