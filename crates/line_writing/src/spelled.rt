//! How an instance is spelled.
ghost use Rattle.std.specs.Prelude.{◌≡◌, IfOk, string_bytes};
ghost use Rattle.line_writing.specs.Spelled.{instance_text};

use diego_names::Instance;
use std::alloc::{AllocError, Global};

/// The epoch of its cell, a point, and its number there.
pub fn instance_text(alloc: Global, instance: &Instance) -> Result<String, AllocError>
    ensures { IfOk result (λ s. string_bytes s ≡ instance_text instance.now) }
{
    let epoch = instance.epoch;
    let number = instance.number;
    format!(in alloc; "{epoch}.{number}")
}
