//! What happens where each goes alone.
ghost use Rattle.std.specs.Prelude.{◌≡◌, ◌++◌, ◌||◌, OnOk};
ghost use Rattle.std.specs.List.{flat_map};
ghost use Rattle.text_table.specs.Texts.{texts_of};
ghost use Rattle.headroom_tables.specs.EachTable.{case_columns, case_rows, each_counts, each_text, is_bad, is_of_zones};
ghost use Rattle.headroom_tables.specs.Layout.{head, section};

use crate::entries::Entry;
use crate::layout::{Heading, add_head, add_row, add_table};
use dump_lines::Each;
use forecast_records::{Case, EachLost, Verdict};
use headroom_print::{each_word, tried, verdict_word};
use std::alloc::{AllocError, Global};
use text_table::Side;

/// The answer to losses of which each is alone.
pub(crate) fn add_lose_each(
    text: &mut Vec<u8>,
    alloc: Global,
    each: &EachLost,
) -> Result<(), AllocError>
    ensures { OnOk result (text.new.items ≡ text.old.items ++ each_text each.now) }
{
    add_counts(text, alloc, each)?;
    add_cases(text, alloc, each.of, each.cases.items())
}

fn add_counts(text: &mut Vec<u8>, alloc: Global, each: &EachLost) -> Result<(), AllocError>
    ensures { OnOk result (text.new.items
        ≡ text.old.items ++ head (each_counts each.now) each.now.verdict) }
{
    add_head(
        text,
        alloc,
        &[
            Entry::Text("lose each "),
            Entry::Text(each_word(each.of)),
            Entry::Text(": tried "),
            Entry::Number(tried(each)),
            Entry::Text(", room "),
            Entry::Number(each.room),
            Entry::Text(", short "),
            Entry::Number(each.short),
            Entry::Text(", unplaced "),
            Entry::Number(each.unplaced),
        ],
        each.verdict,
    )
}

/// Whether something has no room.
pub(crate) fn is_bad(verdict: Verdict) -> bool
    ensures { result ≡ is_bad verdict }
{
    match verdict {
        Verdict::Room => false,
        Verdict::Unplaced | Verdict::Short => true,
    }
}

fn is_of_zones(of: Each) -> bool
    ensures { result ≡ is_of_zones of }
{
    match of {
        Each::Zone => true,
        Each::Cell | Each::Pair => false,
    }
}

// Whether a loss is told.
fn is_told(of: Each, verdict: Verdict) -> bool
    ensures { result ≡ (is_of_zones of || is_bad verdict) }
{
    is_of_zones(of) || is_bad(verdict)
}

// A loss that finds room is left out, but for zones.
#[tactic(auto, unfolding(crate::specs::EachTable::case_row))]
fn add_case(
    rows: &mut Vec<Vec<String>>,
    alloc: Global,
    of: Each,
    case: &Case,
) -> Result<(), AllocError>
    ensures { OnOk result
        (texts_of rows.new.items ≡ texts_of rows.old.items ++ case_rows of case.now) }
{
    if !is_told(of, case.verdict) {
        return Ok(());
    }
    add_row(
        rows,
        alloc,
        &[
            Entry::Names(case.lost.items()),
            Entry::Number(case.cells),
            Entry::Number(case.displaced),
            Entry::Number(case.unplaced),
            Entry::Number(case.dark_of_many),
            Entry::Text(verdict_word(case.verdict)),
            Entry::Tags(case.tags.items()),
        ],
    )
}

fn add_cases(text: &mut Vec<u8>, alloc: Global, of: Each, cases: &[Case]) -> Result<(), AllocError>
    ensures { OnOk result (text.new.items
        ≡ text.old.items ++ section case_columns (flat_map (case_rows of) cases.now)) }
{
    let mut rows = Vec::new(alloc);
    for case in cases {
        add_case(&mut rows, alloc, of, case)?;
    }
    add_table(
        text,
        alloc,
        &[
            Heading(Side::Left, "LOST"),
            Heading(Side::Right, "CELLS"),
            Heading(Side::Right, "NEED ROOM"),
            Heading(Side::Right, "NO ROOM"),
            Heading(Side::Right, "DARK"),
            Heading(Side::Left, "VERDICT"),
            Heading(Side::Left, "TAGS"),
        ],
        rows,
    )
}
