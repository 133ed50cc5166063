//! The first line, and the notes behind it.
ghost use Rattle.std.specs.Prelude.{◌≡◌, ◌++◌, OnOk};
ghost use Rattle.std.specs.List.{flat_map};
ghost use Rattle.headroom_print.specs.DumpLines.{dump_line, note_line, notes_lines};
ghost use Rattle.headroom_print.specs.Notes.{told_of};

use crate::line_kinds::object::add_line;
use crate::line_kinds::value::{Member, Value};
use crate::notes::{Note, notes_of};
use dump_reader::LineCounts;
use forecast_records::Notes;
use std::alloc::{AllocError, Global};

/// How many lines of each kind the dump has.
#[tactic(auto, unfolding(crate::specs::DumpLines::dump_line))]
pub(crate) fn add_dump(
    text: &mut Vec<u8>,
    alloc: Global,
    counts: &LineCounts,
) -> Result<(), AllocError>
    ensures { OnOk result (text.new.items ≡ text.old.items ++ dump_line counts.now) }
{
    add_line(
        text,
        alloc,
        &[
            Member("actual", Value::Number(u64::from(counts.actual))),
            Member("cells", Value::Number(u64::from(counts.cells))),
            Member("desired", Value::Number(u64::from(counts.desired))),
            Member("domains", Value::Number(u64::from(counts.domains))),
            Member("states", Value::Number(u64::from(counts.states))),
            Member("tasks", Value::Number(u64::from(counts.tasks))),
            Member("tell", Value::Text("dump")),
        ],
    )
}

/// A note for each fact that is modelled otherwise.
pub(crate) fn add_notes(text: &mut Vec<u8>, alloc: Global, notes: &Notes) -> Result<(), AllocError>
    ensures { OnOk result (text.new.items ≡ text.old.items ++ notes_lines notes.now) }
{
    add_all(text, alloc, &notes_of(notes))
}

fn add_all(text: &mut Vec<u8>, alloc: Global, notes: &[Note]) -> Result<(), AllocError>
    ensures { OnOk result
        (text.new.items ≡ text.old.items ++ flat_map note_line (told_of notes.now)) }
{
    for note in notes {
        add_note(text, alloc, note)?;
    }
    Ok(())
}

// A note of nothing isn't told.
fn add_note(text: &mut Vec<u8>, alloc: Global, note: &Note) -> Result<(), AllocError>
    ensures { OnOk result
        (text.new.items ≡ text.old.items ++ note_line (note.now.0.now, note.now.1)) }
{
    if note.1 == 0 {
        return Ok(());
    }
    add_line(
        text,
        alloc,
        &[
            Member("count", Value::Number(note.1)),
            Member("note", Value::Text(note.0)),
            Member("tell", Value::Text("note")),
        ],
    )
}
