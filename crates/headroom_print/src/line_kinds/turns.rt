//! The answer to losses in turn, and its turns.
ghost use Rattle.std.specs.Prelude.{◌≡◌, ◌++◌, OnOk};
ghost use Rattle.std.specs.List.{flat_map};
ghost use Rattle.headroom_print.specs.TurnLines.{lose_in_turn_lines, turn_line, turn_lines, turns_line};

use crate::line_kinds::object::add_line;
use crate::line_kinds::unplaced::add_first;
use crate::line_kinds::value::{Member, Value};
use crate::words::{order_word, verdict_word};
use forecast_records::{Turn, TurnsTaken};
use std::alloc::{AllocError, Global};

/// The answer to losses in turn, and what is under it.
pub(crate) fn add_lose_in_turn(
    text: &mut Vec<u8>,
    alloc: Global,
    line: u32,
    turns: &TurnsTaken,
) -> Result<(), AllocError>
    ensures { OnOk result (text.new.items ≡ text.old.items ++ lose_in_turn_lines line turns.now) }
{
    add_turns(text, alloc, line, turns)?;
    add_all_turns(text, alloc, line, turns.turns.items())
}

// How many cells can go in turn.
#[tactic(auto, unfolding(crate::specs::TurnLines::turns_line))]
fn add_turns(
    text: &mut Vec<u8>,
    alloc: Global,
    line: u32,
    turns: &TurnsTaken,
) -> Result<(), AllocError>
    ensures { OnOk result (text.new.items ≡ text.old.items ++ turns_line line turns.now) }
{
    add_line(
        text,
        alloc,
        &[
            Member("answer", Value::Text("lose_in_turn")),
            Member("at_least", Value::Number(u64::from(turns.at_least))),
            Member("line", Value::Number(u64::from(line))),
            Member("order", Value::Text(order_word(turns.order))),
            Member("survived", Value::Number(turns.survived)),
            Member("tell", Value::Text("answer")),
            Member("verdict", Value::Text(verdict_word(turns.verdict))),
        ],
    )
}

fn add_all_turns(
    text: &mut Vec<u8>,
    alloc: Global,
    line: u32,
    turns: &[Turn],
) -> Result<(), AllocError>
    ensures { OnOk result
        (text.new.items ≡ text.old.items ++ flat_map (turn_lines line) turns.now) }
{
    for turn in turns {
        add_turn(text, alloc, line, turn)?;
    }
    Ok(())
}

// How many cells of a tag can go, and the first job without room then.
fn add_turn(text: &mut Vec<u8>, alloc: Global, line: u32, turn: &Turn) -> Result<(), AllocError>
    ensures { OnOk result (text.new.items ≡ text.old.items ++ turn_lines line turn.now) }
{
    add_turn_line(text, alloc, line, turn)?;
    add_first(text, alloc, line, &turn.first)
}

// How many cells of a tag can go.
#[tactic(auto, unfolding(crate::specs::TurnLines::turn_line))]
fn add_turn_line(
    text: &mut Vec<u8>,
    alloc: Global,
    line: u32,
    turn: &Turn,
) -> Result<(), AllocError>
    ensures { OnOk result (text.new.items ≡ text.old.items ++ turn_line line turn.now) }
{
    add_line(
        text,
        alloc,
        &[
            Member("cells", Value::Number(turn.cells)),
            Member("line", Value::Number(u64::from(line))),
            Member("lost", Value::Names(turn.lost.items())),
            Member("survived", Value::Number(turn.survived)),
            Member("tag", Value::NameOrNull(&turn.tag)),
            Member("tell", Value::Text("turn")),
            Member("unplaced", Value::Number(turn.unplaced)),
            Member("verdict", Value::Text(verdict_word(turn.verdict))),
        ],
    )
}
