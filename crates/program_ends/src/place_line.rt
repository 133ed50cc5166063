//! The lines of faults that tell a place.
ghost use Rattle.std.specs.Prelude.{◌≡◌, IfOk, string_bytes};
ghost use Rattle.program_ends.specs.Ending.{area_word, damaged_line, numbered_line, script_line};

use disk_trait::Area;
use scenario_reader::ScriptFault;
use std::alloc::{AllocError, Global};

/// The word of an area in printed lines.
fn area_word(area: Area) -> &'static str
    ensures { result.now ≡ area_word area }
{
    match area {
        Area::A => "a",
        Area::B => "b",
    }
}

/// The line that tells of a defect at a place of an area.
pub(crate) fn damaged_line(alloc: Global, area: Area, at: u64) -> Result<String, AllocError>
    ensures { IfOk result (λ s. string_bytes s ≡ damaged_line area at) }
{
    let area = area_word(area);
    format!(in alloc; "{{\"area\":\"{area}\",\"at\":{at},\"fault\":\"damaged\"}}\n")
}

/// The line that tells of a fault in a line of a script.
fn numbered_line(alloc: Global, word: &str, line: u32) -> Result<String, AllocError>
    ensures { IfOk result (λ s. string_bytes s ≡ numbered_line word.now line) }
{
    format!(in alloc; "{{\"fault\":\"{word}\",\"line\":{line}}}\n")
}

/// The line that tells why bytes are no script. Want of memory is no fault of theirs, and has none.
pub(crate) fn script_line(alloc: Global, fault: ScriptFault) -> Result<String, AllocError>
    ensures { IfOk result (λ s. string_bytes s ≡ script_line fault) }
{
    match fault {
        ScriptFault::BadJson { line } => numbered_line(alloc, "bad json", line),
        ScriptFault::BadShape { line } => numbered_line(alloc, "bad shape", line),
        ScriptFault::BadName { line } => numbered_line(alloc, "bad name", line),
        ScriptFault::BadOrder { line } => numbered_line(alloc, "bad order", line),
        ScriptFault::TooMuch { line } => numbered_line(alloc, "too much", line),
        ScriptFault::OutOfMemory => Ok(String::new(alloc)),
    }
}
