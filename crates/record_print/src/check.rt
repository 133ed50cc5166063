//! The line that tells what a board's disk holds.
ghost use Rattle.std.specs.Prelude.{◌≡◌, IfOk, OnOk};
ghost use Rattle.record_print.specs.Printed.{check_data, line_text};
ghost use Rattle.line_writing.specs.Writing.{AddsValue};

use crate::word::area_word;
use disk_trait::Area;
use json::Writer;
use line_writing::{begin, end, line_begun, line_ended, put_number, put_text};
use std::alloc::{AllocError, Global};

/// What a check of a board finds.
#[derive(Clone, Copy, Debug, PartialEq, Eq)]
pub struct Check {
    /// The area that holds the board.
    pub area: Area,
    /// The frames behind its head.
    pub frames: u64,
    /// The area's generation.
    pub generation: u64,
    /// Transitions in the board's life.
    pub next: u64,
}

/// What a check of a board finds.
pub fn check_text(alloc: Global, check: Check) -> Result<Vec<u8>, AllocError>
    ensures { IfOk result (λ v. v.items ≡ line_text (check_data check)) }
{
    let mut line = line_begun(alloc)?;
    put_check(&mut line, check)?;
    line_ended(line)
}

fn put_check(line: &mut Writer, check: Check) -> Result<(), AllocError>
    ensures { OnOk result (AddsValue line.old line.new (check_data check)) }
{
    begin(line)?;
    put_text(line, "area", area_word(check.area))?;
    put_number(line, "frames", check.frames)?;
    put_number(line, "generation", check.generation)?;
    put_number(line, "next", check.next)?;
    end(line)
}
