//! What a planner finds out, as lines of JSON.
ghost use Rattle.std.specs.Prelude.{◌≡◌, ◌++◌, IfOk, OnOk};
ghost use Rattle.std.specs.List.{flat_map};
ghost use Rattle.headroom_print.specs.Lines.{found_lines, lines_text};

mod amounts;
mod counts;
mod drain;
mod dump;
mod each;
mod fit;
mod lose;
mod object;
mod show;
mod spread;
mod tag;
mod turns;
mod unplaced;
mod value;

use crate::line_kinds::drain::add_drain;
use crate::line_kinds::dump::{add_dump, add_notes};
use crate::line_kinds::each::add_lose_each;
use crate::line_kinds::fit::add_fit;
use crate::line_kinds::lose::add_lose;
use crate::line_kinds::show::add_show;
use crate::line_kinds::turns::add_lose_in_turn;
use diego_names::OutOfMemory;
use dump_reader::LineCounts;
use forecast_records::{Finding, Found, Notes};
use std::alloc::{AllocError, Global};

/// The counts and the notes of a dump, and the answer to each question with what is under it, as
/// compact JSON, a line each.
pub fn lines(
    alloc: Global,
    counts: &LineCounts,
    notes: &Notes,
    found: &[Found],
) -> Result<Vec<u8>, OutOfMemory>
    ensures { IfOk result (λ text. text.items ≡ lines_text counts.now notes.now found.now) }
{
    let mut text = Vec::new(alloc);
    add_dump(&mut text, alloc, counts)?;
    add_notes(&mut text, alloc, notes)?;
    add_all_found(&mut text, alloc, found)?;
    Ok(text)
}

fn add_all_found(text: &mut Vec<u8>, alloc: Global, found: &[Found]) -> Result<(), AllocError>
    ensures { OnOk result (text.new.items ≡ text.old.items ++ flat_map found_lines found.now) }
{
    for one in found {
        add_found(text, alloc, one)?;
    }
    Ok(())
}

fn add_found(text: &mut Vec<u8>, alloc: Global, found: &Found) -> Result<(), AllocError>
    ensures { OnOk result (text.new.items ≡ text.old.items ++ found_lines found.now) }
{
    match &found.finding {
        Finding::Show(shown) => add_show(text, alloc, found.line, shown),
        Finding::Lose(lost) => add_lose(text, alloc, found.line, lost),
        Finding::LoseEach(each) => add_lose_each(text, alloc, found.line, each),
        Finding::LoseInTurn(turns) => add_lose_in_turn(text, alloc, found.line, turns),
        Finding::Drain(drained) => add_drain(text, alloc, found.line, drained),
        Finding::Fit(fitted) => add_fit(text, alloc, found.line, fitted),
    }
}
