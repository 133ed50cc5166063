//! What a planner finds out, as text and tables for people.
ghost use Rattle.std.specs.Prelude.{◌≡◌, ◌++◌, IfOk, OnOk};
ghost use Rattle.std.specs.List.{flat_map};
ghost use Rattle.headroom_tables.specs.Text.{found_text, tables_text};

use crate::drain::add_drain;
use crate::dump::{add_dump, add_notes};
use crate::each::add_lose_each;
use crate::fit::add_fit;
use crate::lose::add_lose;
use crate::show::add_show;
use crate::turns::add_lose_in_turn;
use diego_names::OutOfMemory;
use dump_reader::LineCounts;
use forecast_records::{Finding, Found, Notes};
use std::alloc::{AllocError, Global};

/// The counts and the notes of a dump, and the answer to each question, as text and tables. It
/// fails only if memory runs out.
pub fn table(
    alloc: Global,
    counts: &LineCounts,
    notes: &Notes,
    found: &[Found],
) -> Result<Vec<u8>, OutOfMemory>
    ensures { IfOk result (λ text. text.items ≡ tables_text counts.now notes.now found.now) }
{
    let mut text = Vec::new(alloc);
    add_dump(&mut text, alloc, counts)?;
    add_notes(&mut text, alloc, notes)?;
    add_all_found(&mut text, alloc, found)?;
    Ok(text)
}

fn add_all_found(text: &mut Vec<u8>, alloc: Global, found: &[Found]) -> Result<(), AllocError>
    ensures { OnOk result (text.new.items ≡ text.old.items ++ flat_map found_text found.now) }
{
    for one in found {
        add_found(text, alloc, one)?;
    }
    Ok(())
}

fn add_found(text: &mut Vec<u8>, alloc: Global, found: &Found) -> Result<(), AllocError>
    ensures { OnOk result (text.new.items ≡ text.old.items ++ found_text found.now) }
{
    match &found.finding {
        Finding::Show(shown) => add_show(text, alloc, shown),
        Finding::Lose(lost) => add_lose(text, alloc, lost),
        Finding::LoseEach(each) => add_lose_each(text, alloc, each),
        Finding::LoseInTurn(turns) => add_lose_in_turn(text, alloc, turns),
        Finding::Drain(drained) => add_drain(text, alloc, drained),
        Finding::Fit(fitted) => add_fit(text, alloc, fitted),
    }
}
