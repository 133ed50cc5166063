//! Whether each question can be answered, beside the whole dump.
ghost use Rattle.std.specs.Prelude.{◌≡◌, IfOk};
ghost use Rattle.std.specs.List.{list_all};
ghost use Rattle.dump_reader.specs.Answerable.{asks_of_known, asks_pairs, is_known_cell, is_known_zone, question_fault};
ghost use Rattle.dump_reader.specs.Names.{cells_asked, cells_given, zones_asked};
ghost use Rattle.dump_reader.specs.Tracked.{IsTracked};

use crate::fault::DumpFault;
use crate::reader::Reading;
use crate::repeats::has_name_twice;
use diego_names::{Name, OutOfMemory};
use dump_lines::{Each, Question, TurnOrder};
use std::alloc::Global;

/// The most cell states of which pairs may be asked for.
const PAIRED: usize = 200;

fn cells_given(order: &TurnOrder) -> &[Name]
    ensures { result.now ≡ cells_given order.now }
{
    match order {
        TurnOrder::Given(cells) => cells.items(),
        _ => &[],
    }
}

fn cells_asked(question: &Question) -> &[Name]
    ensures { result.now ≡ cells_asked question.now }
{
    match question {
        Question::Lose { cells, .. } => cells.items(),
        Question::LoseInTurn { order, .. } => cells_given(order),
        Question::Drain {
            cells: Some(cells),
            ..
        } => cells.items(),
        _ => &[],
    }
}

fn zones_asked(question: &Question) -> &[Name]
    ensures { result.now ≡ zones_asked question.now }
{
    match question {
        Question::Lose { zones, .. } => zones.items(),
        _ => &[],
    }
}

fn asks_pairs(question: &Question) -> bool
    ensures { result ≡ asks_pairs question.now }
{
    match question {
        Question::LoseEach { of } => matches!(*of, Each::Pair),
        _ => false,
    }
}

fn are_known_cells(reading: &Reading, cells: &[Name]) -> bool
    requires { IsTracked reading.now.seen reading.now.dump }
    ensures { result ≡ list_all (is_known_cell reading.now.dump) cells.now }
{
    cells.iter().all(|cell| reading.seen.cells.has(*cell) || reading.seen.listed.has(*cell))
}

#[tactic(auto, using(crate::proofs::Zones::any_of_two))]
fn is_known_zone(reading: &Reading, zone: Name) -> bool
    requires { IsTracked reading.now.seen reading.now.dump }
    ensures { result ≡ is_known_zone reading.now.dump zone }
{
    let has_state = reading.seen.zones.has(zone);
    let is_listed = reading.seen.listed_zones.has(zone);
    has_state | is_listed
}

fn are_known_zones(reading: &Reading, zones: &[Name]) -> bool
    requires { IsTracked reading.now.seen reading.now.dump }
    ensures { result ≡ list_all (is_known_zone reading.now.dump) zones.now }
{
    zones.iter().all(|zone| is_known_zone(reading, *zone))
}

fn asks_of_known(reading: &Reading, question: &Question) -> bool
    requires { IsTracked reading.now.seen reading.now.dump }
    ensures { result ≡ asks_of_known reading.now.dump question.now }
{
    are_known_cells(reading, cells_asked(question))
        && are_known_zones(reading, zones_asked(question))
}

/// What is wrong with a question, beside the whole dump.
pub(crate) fn question_fault(
    alloc: Global,
    reading: &Reading,
    question: &Question,
) -> Result<Option<DumpFault>, OutOfMemory>
    requires { IsTracked reading.now.seen reading.now.dump }
    ensures { IfOk result (λ fault. fault ≡ question_fault reading.now.dump question.now) }
{
    if has_name_twice(alloc, cells_asked(question))? {
        return Ok(Some(DumpFault::Twice));
    }
    if asks_pairs(question) && reading.dump.states.len() > PAIRED {
        return Ok(Some(DumpFault::TooMuch));
    }
    if asks_of_known(reading, question) {
        Ok(None)
    } else {
        Ok(Some(DumpFault::Unknown))
    }
}
