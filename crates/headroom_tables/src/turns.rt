//! How many cells can go in turn.
ghost use Rattle.std.specs.Prelude.{◌≡◌, [], ◌∷◌, ◌++◌, option_to_list, OnOk};
ghost use Rattle.text_table.specs.Texts.{texts_of};
ghost use Rattle.headroom_tables.specs.Layout.{head};
ghost use Rattle.headroom_tables.specs.NoRoom.{no_room_table};
ghost use Rattle.headroom_tables.specs.TurnTables.{excess, firsts_of, turn_row, turn_table, turns_counts, turns_text};

use crate::entries::{Entry, last_name};
use crate::layout::{Heading, add_head, add_row, add_table};
use crate::no_room::add_no_room;
use forecast_records::{Turn, TurnsTaken, Unplaced};
use headroom_print::{order_word, verdict_word};
use std::alloc::{AllocError, Global};
use text_table::Side;

/// The answer to losses in turn.
pub(crate) fn add_lose_in_turn(
    text: &mut Vec<u8>,
    alloc: Global,
    turns: &TurnsTaken,
) -> Result<(), AllocError>
    ensures { OnOk result (text.new.items ≡ text.old.items ++ turns_text turns.now) }
{
    add_counts(text, alloc, turns)?;
    add_turns(text, alloc, turns.turns.items())?;
    add_firsts(text, alloc, turns.turns.items())
}

fn add_counts(text: &mut Vec<u8>, alloc: Global, turns: &TurnsTaken) -> Result<(), AllocError>
    ensures { OnOk result (text.new.items
        ≡ text.old.items ++ head (turns_counts turns.now) turns.now.verdict) }
{
    add_head(
        text,
        alloc,
        &[
            Entry::Text("lose in turn, "),
            Entry::Text(order_word(turns.order)),
            Entry::Text(": of each tag can go "),
            Entry::Number(turns.survived),
            Entry::Text(", asked "),
            Entry::Number(u64::from(turns.at_least)),
        ],
        turns.verdict,
    )
}

// The cell whose loss is too much.
fn excess(turn: &Turn) -> &str
    ensures { result.now ≡ excess turn.now }
{
    if turn.unplaced == 0 {
        return "";
    }
    last_name(turn.lost.items())
}

#[tactic(auto, unfolding(crate::specs::TurnTables::turn_row))]
fn add_turn(rows: &mut Vec<Vec<String>>, alloc: Global, turn: &Turn) -> Result<(), AllocError>
    ensures { OnOk result
        (texts_of rows.new.items ≡ texts_of rows.old.items ++ turn_row turn.now ∷ []) }
{
    add_row(
        rows,
        alloc,
        &[
            Entry::Tag(&turn.tag),
            Entry::Number(turn.cells),
            Entry::Number(turn.survived),
            Entry::Number(turn.unplaced),
            Entry::Text(verdict_word(turn.verdict)),
            Entry::Text(excess(turn)),
        ],
    )
}

// The tags in their order.
fn add_turns(text: &mut Vec<u8>, alloc: Global, turns: &[Turn]) -> Result<(), AllocError>
    ensures { OnOk result (text.new.items ≡ text.old.items ++ turn_table turns.now) }
{
    let mut rows = Vec::new(alloc);
    for turn in turns {
        add_turn(&mut rows, alloc, turn)?;
    }
    add_table(
        text,
        alloc,
        &[
            Heading(Side::Left, "TAG"),
            Heading(Side::Right, "CELLS"),
            Heading(Side::Right, "CAN GO"),
            Heading(Side::Right, "THEN NO ROOM FOR"),
            Heading(Side::Left, "VERDICT"),
            Heading(Side::Left, "WITH"),
        ],
        rows,
    )
}

/// A job, if there is one.
pub(crate) fn first_jobs(first: &Option<Unplaced>) -> &[Unplaced]
    ensures { result.now ≡ option_to_list first.now }
{
    first.as_slice()
}

// The first job without room of each tag.
fn add_firsts(text: &mut Vec<u8>, alloc: Global, turns: &[Turn]) -> Result<(), AllocError>
    ensures { OnOk result
        (text.new.items ≡ text.old.items ++ no_room_table (firsts_of turns.now)) }
{
    let mut jobs = Vec::new(alloc);
    for turn in turns {
        jobs.extend_from_slice(first_jobs(&turn.first))?;
    }
    add_no_room(text, alloc, &jobs)
}
