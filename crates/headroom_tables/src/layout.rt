//! Lines of text and tables, one under the other.
ghost use Rattle.std.specs.Prelude.{◌≡◌, [], ◌∷◌, ◌++◌, ◌==◌, map, length, IfOk, OnOk, string_bytes};
ghost use Rattle.text_table.specs.Texts.{entries_of, texts_of};
ghost use Rattle.headroom_tables.specs.Layout.{head, joined, section, sentence, text_line};
ghost use Rattle.headroom_tables.specs.Written.{columns_of, entry_text};

use crate::entries::{Entry, entry_text};
use forecast_records::Verdict;
use std::alloc::{AllocError, Global};
use text_table::{Side, Table};

/// A column of a table: the side of its entries, and its header.
#[derive(Clone, Copy)]
pub(crate) struct Heading<'a>(pub(crate) Side, pub(crate) &'a str);

/// The parts, with something between each two.
pub(crate) fn joined(alloc: Global, between: &str, parts: &[String]) -> Result<String, AllocError>
    ensures { IfOk result (λ text. string_bytes text ≡ joined between.now (entries_of parts.now)) }
{
    parts.join(alloc, between)
}

/// One text more.
pub(crate) fn add_text(texts: &mut Vec<String>, text: String) -> Result<(), AllocError>
    ensures { OnOk result
        (entries_of texts.new.items ≡ entries_of texts.old.items ++ string_bytes text ∷ []) }
{
    texts.push(text)?;
    Ok(())
}

// The texts of entries.
fn texts(alloc: Global, entries: &[Entry]) -> Result<Vec<String>, AllocError>
    ensures { IfOk result (λ texts. entries_of texts.items ≡ map entry_text entries.now) }
{
    let mut texts = Vec::new(alloc);
    for entry in entries {
        let text = entry_text(alloc, entry)?;
        add_text(&mut texts, text)?;
    }
    Ok(texts)
}

/// A line of these parts.
pub(crate) fn add_line(text: &mut Vec<u8>, alloc: Global, parts: &[Entry]) -> Result<(), AllocError>
    ensures { OnOk result
        (text.new.items ≡ text.old.items ++ text_line (map entry_text parts.now)) }
{
    let texts = texts(alloc, parts)?;
    let line = joined(alloc, "", &texts)?;
    text.extend_from_slice(line.as_bytes())?;
    text.push(b'\n')?;
    Ok(())
}

// A verdict as a sentence.
fn sentence(verdict: Verdict) -> &'static str
    ensures { result.now ≡ sentence verdict }
{
    match verdict {
        Verdict::Room => "ROOM: all find room",
        Verdict::Unplaced => {
            "UNPLACED: in this order some find no room; the amounts alone don't rule it out"
        }
        Verdict::Short => "SHORT: not all can find room, whatever the scheduler",
    }
}

/// What an answer begins with, under an empty line: its counts, and its verdict.
#[tactic(auto, unfolding(crate::specs::Layout::head))]
pub(crate) fn add_head(
    text: &mut Vec<u8>,
    alloc: Global,
    counts: &[Entry],
    verdict: Verdict,
) -> Result<(), AllocError>
    ensures { OnOk result (text.new.items
        ≡ text.old.items ++ head (map entry_text counts.now) verdict) }
{
    text.push(b'\n')?;
    add_line(text, alloc, counts)?;
    add_line(text, alloc, &[Entry::Text(sentence(verdict))])
}

/// One row more, of these entries.
pub(crate) fn add_row(
    rows: &mut Vec<Vec<String>>,
    alloc: Global,
    entries: &[Entry],
) -> Result<(), AllocError>
    ensures { OnOk result (texts_of rows.new.items
        ≡ texts_of rows.old.items ++ map entry_text entries.now ∷ []) }
{
    let row = texts(alloc, entries)?;
    rows.push(row)?;
    Ok(())
}

fn heading_sides(alloc: Global, headings: &[Heading]) -> Result<Vec<Side>, AllocError>
    ensures { IfOk result (λ sides. sides.items ≡ map (λ h. h.0) headings.now) }
{
    headings.iter().map(|heading| heading.0).collect(alloc)
}

fn sides(alloc: Global, columns: &[Heading]) -> Result<Vec<Side>, AllocError>
    ensures { IfOk result (λ sides. sides.items ≡ map (λ c. c.0) (columns_of columns.now)) }
{
    heading_sides(alloc, columns)
}

fn headers(alloc: Global, columns: &[Heading]) -> Result<Vec<String>, AllocError>
    ensures { IfOk result (λ row. entries_of row.items ≡ map (λ c. c.1) (columns_of columns.now)) }
{
    let mut headers = Vec::new(alloc);
    for column in columns {
        let header = String::from_str(alloc, column.1)?;
        add_text(&mut headers, header)?;
    }
    Ok(headers)
}

// The rows behind the headers.
fn with_headers(
    alloc: Global,
    columns: &[Heading],
    mut rows: Vec<Vec<String>>,
) -> Result<Vec<Vec<String>>, AllocError>
    ensures { IfOk result (λ all. texts_of all.items
        ≡ map (λ c. c.1) (columns_of columns.now) ∷ texts_of rows.items) }
{
    let headers = headers(alloc, columns)?;
    let mut all = Vec::new(alloc);
    all.push(headers)?;
    all.append(&mut rows)?;
    Ok(all)
}

// Whether there is no row.
fn is_nothing(rows: &[Vec<String>]) -> bool
    ensures { result ≡ (length (texts_of rows.now) == 0) }
{
    rows.is_empty()
}

/// A table under an empty line; nothing where there is no row.
#[tactic(auto, unfolding(crate::specs::Layout::section))]
pub(crate) fn add_table(
    text: &mut Vec<u8>,
    alloc: Global,
    columns: &[Heading],
    rows: Vec<Vec<String>>,
) -> Result<(), AllocError>
    ensures { OnOk result (text.new.items ≡ text.old.items
        ++ section (columns_of columns.now) (texts_of rows.items)) }
{
    if is_nothing(&rows) {
        return Ok(());
    }
    let sides = sides(alloc, columns)?;
    let rows = with_headers(alloc, columns, rows)?;
    let table = Table { sides, rows };
    text.push(b'\n')?;
    table.write(alloc, text)
}
