//! The answer to a loss, with who is dark and what moves.
ghost use Rattle.std.specs.Prelude.{◌≡◌, ◌++◌, OnOk};
ghost use Rattle.std.specs.List.{flat_map};
ghost use Rattle.headroom_print.specs.LoseLines.{dark_line, is_complete, lose_lines, lost_line, move_line};

use crate::line_kinds::amounts::add_zones_then;
use crate::line_kinds::object::add_line;
use crate::line_kinds::tag::add_tags;
use crate::line_kinds::unplaced::add_all_unplaced;
use crate::line_kinds::value::{Member, Value};
use crate::words::verdict_word;
use diego_names::Name;
use forecast_records::{Lost, Move};
use std::alloc::{AllocError, Global};

/// The answer to a loss, and what is under it.
pub(crate) fn add_lose(
    text: &mut Vec<u8>,
    alloc: Global,
    line: u32,
    lost: &Lost,
) -> Result<(), AllocError>
    ensures { OnOk result (text.new.items ≡ text.old.items ++ lose_lines line lost.now) }
{
    add_lost(text, alloc, line, lost)?;
    add_tags(text, alloc, line, lost.tags.items())?;
    add_all_unplaced(text, alloc, line, lost.without_room.items())?;
    add_all_dark(text, alloc, line, lost.dark_of_many.items())?;
    add_zones_then(text, alloc, line, lost.zones.items())?;
    add_moves(text, alloc, line, lost.moves.items())
}

// What a loss does.
#[tactic(auto, unfolding(crate::specs::LoseLines::lost_line))]
fn add_lost(text: &mut Vec<u8>, alloc: Global, line: u32, lost: &Lost) -> Result<(), AllocError>
    ensures { OnOk result (text.new.items ≡ text.old.items ++ lost_line line lost.now) }
{
    add_line(
        text,
        alloc,
        &[
            Member("answer", Value::Text("lose")),
            Member("cells", Value::Number(lost.cells)),
            Member("complete", Value::Truth(is_complete(lost))),
            Member("dark", Value::Number(lost.dark)),
            Member(
                "dark_of_many",
                Value::Number(lost.dark_of_many.len() as u64),
            ),
            Member("displaced", Value::Number(lost.displaced)),
            Member("line", Value::Number(u64::from(line))),
            Member("tasks", Value::Number(lost.tasks)),
            Member("tell", Value::Text("answer")),
            Member("uneven", Value::Number(lost.uneven)),
            Member("unplaced", Value::Number(lost.unplaced)),
            Member("verdict", Value::Text(verdict_word(lost.verdict))),
            Member("waiting", Value::Number(lost.waiting)),
            Member("waiting_unplaced", Value::Number(lost.waiting_unplaced)),
        ],
    )
}

fn add_all_dark(
    text: &mut Vec<u8>,
    alloc: Global,
    line: u32,
    processes: &[Name],
) -> Result<(), AllocError>
    ensures { OnOk result
        (text.new.items ≡ text.old.items ++ flat_map (dark_line line) processes.now) }
{
    for process in processes {
        add_dark(text, alloc, line, process)?;
    }
    Ok(())
}

// A process of several instances of which none is held.
#[tactic(auto, unfolding(crate::specs::LoseLines::dark_line))]
fn add_dark(text: &mut Vec<u8>, alloc: Global, line: u32, process: &Name) -> Result<(), AllocError>
    ensures { OnOk result (text.new.items ≡ text.old.items ++ dark_line line process.now) }
{
    add_line(
        text,
        alloc,
        &[
            Member("line", Value::Number(u64::from(line))),
            Member("process", Value::Name(process)),
            Member("tell", Value::Text("dark")),
        ],
    )
}

fn add_moves(text: &mut Vec<u8>, alloc: Global, line: u32, moves: &[Move]) -> Result<(), AllocError>
    ensures { OnOk result (text.new.items ≡ text.old.items ++ flat_map (move_line line) moves.now) }
{
    for moved in moves {
        add_move(text, alloc, line, moved)?;
    }
    Ok(())
}

// A job that is placed.
#[tactic(auto, unfolding(crate::specs::LoseLines::move_line))]
fn add_move(text: &mut Vec<u8>, alloc: Global, line: u32, moved: &Move) -> Result<(), AllocError>
    ensures { OnOk result (text.new.items ≡ text.old.items ++ move_line line moved.now) }
{
    add_line(
        text,
        alloc,
        &[
            Member("from", Value::NameOrNull(&moved.from)),
            Member("job", Value::Job(&moved.job)),
            Member("line", Value::Number(u64::from(line))),
            Member("tell", Value::Text("move")),
            Member("to", Value::Name(&moved.to)),
        ],
    )
}

// Whether no job is without room, of those that the loss displaced and of those that waited before.
fn is_complete(lost: &Lost) -> bool
    ensures { result ≡ is_complete lost.now }
{
    lost.unplaced == 0 && lost.waiting_unplaced == 0
}
