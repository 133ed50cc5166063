//! Why a lock command was refused, in words.
ghost use Rattle.std.specs.Prelude.{◌≡◌, IfOk, string_bytes};
ghost use Rattle.lock_lines.specs.Causes.{held_text, past_text, why_text};

use diego_names::Name;
use locket::LockRefusal;
use std::alloc::{AllocError, Global};

/// Why a lock command was refused, as an answer's line says it.
pub(crate) fn why_text(alloc: Global, why: &LockRefusal) -> Result<String, AllocError>
    ensures { IfOk result (λ s. string_bytes s ≡ why_text why.now) }
{
    match why {
        LockRefusal::Past { seen } => past_text(alloc, seen.0),
        LockRefusal::Held { by, until } => held_text(alloc, by, *until),
        LockRefusal::NotHolder { last } => format!(in alloc; "not holder {last}"),
        LockRefusal::Expired { until } => format!(in alloc; "expired {until}"),
        LockRefusal::LockFull => String::from_str(alloc, "lock full"),
    }
}

fn past_text(alloc: Global, seen: u32) -> Result<String, AllocError>
    ensures { IfOk result (λ s. string_bytes s ≡ past_text seen) }
{
    format!(in alloc; "past {seen}")
}

fn held_text(alloc: Global, by: &Name, until: u64) -> Result<String, AllocError>
    ensures { IfOk result (λ s. string_bytes s ≡ held_text by.now until) }
{
    let by = *by;
    format!(in alloc; "held {by} {until}")
}
