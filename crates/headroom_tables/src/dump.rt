//! The first line, and the notes behind it.
ghost use Rattle.std.specs.Prelude.{◌≡◌, ◌++◌, OnOk};
ghost use Rattle.std.specs.List.{flat_map};
ghost use Rattle.headroom_print.specs.Notes.{told_of};
ghost use Rattle.headroom_tables.specs.DumpLines.{dump_parts, note_text, notes_text};
ghost use Rattle.headroom_tables.specs.Layout.{text_line};

use crate::entries::Entry;
use crate::layout::add_line;
use dump_reader::LineCounts;
use forecast_records::Notes;
use headroom_print::{Note, notes_of};
use std::alloc::{AllocError, Global};

/// How many lines of each kind the dump has.
pub(crate) fn add_dump(
    text: &mut Vec<u8>,
    alloc: Global,
    counts: &LineCounts,
) -> Result<(), AllocError>
    ensures { OnOk result (text.new.items ≡ text.old.items ++ text_line (dump_parts counts.now)) }
{
    add_line(
        text,
        alloc,
        &[
            Entry::Text("dump: cell states "),
            Entry::Number(u64::from(counts.states)),
            Entry::Text(", cells "),
            Entry::Number(u64::from(counts.cells)),
            Entry::Text(", desired "),
            Entry::Number(u64::from(counts.desired)),
            Entry::Text(", actual "),
            Entry::Number(u64::from(counts.actual)),
            Entry::Text(", tasks "),
            Entry::Number(u64::from(counts.tasks)),
        ],
    )
}

/// The notes in their order.
pub(crate) fn add_notes(text: &mut Vec<u8>, alloc: Global, notes: &Notes) -> Result<(), AllocError>
    ensures { OnOk result (text.new.items ≡ text.old.items ++ notes_text notes.now) }
{
    add_all(text, alloc, &notes_of(notes))
}

fn add_all(text: &mut Vec<u8>, alloc: Global, notes: &[Note]) -> Result<(), AllocError>
    ensures { OnOk result
        (text.new.items ≡ text.old.items ++ flat_map note_text (told_of notes.now)) }
{
    for note in notes {
        add_note(text, alloc, note)?;
    }
    Ok(())
}

// A note of nothing isn't told.
fn add_note(text: &mut Vec<u8>, alloc: Global, note: &Note) -> Result<(), AllocError>
    ensures { OnOk result
        (text.new.items ≡ text.old.items ++ note_text (note.now.0.now, note.now.1)) }
{
    if note.1 == 0 {
        return Ok(());
    }
    add_line(
        text,
        alloc,
        &[
            Entry::Text("note: "),
            Entry::Text(note.0),
            Entry::Text(" "),
            Entry::Number(note.1),
        ],
    )
}
