//! The lines of faults that only a pair has.
ghost use Rattle.std.specs.Prelude.{◌≡◌, IfOk, string_bytes};
ghost use Rattle.pair_lines.specs.Faults.{other_line_text, standby_area_word, standby_damaged_text, standby_no_board_line, unequal_line};

use disk_trait::Area;
use std::alloc::{AllocError, Global};

/// The line of two boards whose rows differ. It is a constant, so that telling it wants no memory.
pub fn unequal_line() -> &'static [u8]
    ensures { result.now ≡ unequal_line }
{
    b"{\"fault\":\"unequal\"}\n"
}

/// The line of an area of the standby that isn't one of a board.
pub fn standby_no_board_line(area: Area) -> &'static [u8]
    ensures { result.now ≡ standby_no_board_line area }
{
    match area {
        Area::A => b"{\"area\":\"standby a\",\"at\":0,\"fault\":\"not a board\"}\n",
        Area::B => b"{\"area\":\"standby b\",\"at\":0,\"fault\":\"not a board\"}\n",
    }
}

fn standby_area_word(area: Area) -> &'static str
    ensures { result.now ≡ standby_area_word area }
{
    match area {
        Area::A => "standby a",
        Area::B => "standby b",
    }
}

/// The line of a defect at a place of an area of the standby.
pub fn standby_damaged_text(alloc: Global, area: Area, at: u64) -> Result<String, AllocError>
    ensures { IfOk result (λ s. string_bytes s ≡ standby_damaged_text area at) }
{
    let area = standby_area_word(area);
    format!(in alloc; "{{\"area\":\"{area}\",\"at\":{at},\"fault\":\"damaged\"}}\n")
}

/// The line of a script that has a line which is no client's.
pub fn other_line_text(alloc: Global, line: u32) -> Result<String, AllocError>
    ensures { IfOk result (λ s. string_bytes s ≡ other_line_text line) }
{
    format!(in alloc; "{{\"fault\":\"not a pair script\",\"line\":{line}}}\n")
}
