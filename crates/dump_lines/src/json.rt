//! One line as JSON.
ghost use Rattle.std.specs.Prelude.{◌≡◌};
ghost use Rattle.serde_json.specs.View.{view};
ghost use Rattle.dump_lines.specs.Faults.{json_said};
ghost use Rattle.dump_lines.specs.Json.{GivesValue};

use crate::fault::{LineError, LineFault};
use serde_json::Value;
use std::alloc::Global;
use std::str;

/// The value that the bytes of a line write.
pub(crate) fn json_of(alloc: Global, line: &[u8]) -> Result<Value, LineError>
    ensures { GivesValue result (json_said line.now) }
{
    let Ok(text) = str::from_utf8(line) else {
        return Err(LineError::Faulty(LineFault::BadJson));
    };
    match Value::from_str(alloc, text) {
        Ok(value) => Ok(value),
        Err(error) if error.is_memory() => Err(LineError::OutOfMemory),
        Err(_) => Err(LineError::Faulty(LineFault::BadJson)),
    }
}
