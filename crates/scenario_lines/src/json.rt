//! One line as JSON.
ghost use Rattle.serde_json.specs.View.{view};
ghost use Rattle.scenario_lines.specs.Flaws.{GivesContent, json_said};

use crate::flaw::{Flaw, LineError};
use serde_json::Value;
use std::alloc::Global;
use std::str;

/// The value that the bytes of a line write in JSON.
pub fn json_of(alloc: Global, line: &[u8]) -> Result<Value, LineError>
    ensures { GivesContent view result (json_said line.now) }
{
    let Ok(text) = str::from_utf8(line) else {
        return Err(LineError::Flawed(Flaw::BadJson));
    };
    match Value::from_str(alloc, text) {
        Ok(value) => Ok(value),
        Err(error) if error.is_memory() => Err(LineError::OutOfMemory),
        Err(_) => Err(LineError::Flawed(Flaw::BadJson)),
    }
}
