//! What a question asks. Unlike other lines, it has no members but its own.
ghost use Rattle.std.specs.Prelude.{◌≡◌, IfOk, string_bytes};
ghost use Rattle.std.specs.BTreeMap.{keys};
ghost use Rattle.std.specs.List.{list_all};
ghost use Rattle.serde_json.specs.View.{view};
ghost use Rattle.dump_lines.specs.Questions.{as_batch, ask_in, ask_named, batch_in, cells_in, drain_in, drained_in, each_in, each_named, fit_in, given_in, has_only, is_known, lose_in, lose_of, lose_each_in, order_in, order_named, process_in, question_as, question_in, some_cells, tag_given, turns_in, without_cells};

use crate::cell::demand_of;
use crate::fault::{LineFault, both};
use crate::listing::names_or_none;
use crate::members::{has, number_in, number_or, said, text_in};
use crate::question::{Each, Question, TurnOrder};
use crate::values::{name_as, name_of};
use diego_names::{List, Name, OutOfMemory};
use serde_json::{Map, Value};
use std::alloc::Global;

/// What is asked, by its word.
#[derive(Clone, Copy)]
pub enum Ask {
    Show,
    Lose,
    LoseEach,
    LoseInTurn,
    Drain,
    Fit,
}

fn ask_named(word: &str) -> Option<Ask>
    ensures { result ≡ ask_named word.now }
{
    match word {
        "show" => Some(Ask::Show),
        "lose" => Some(Ask::Lose),
        "lose_each" => Some(Ask::LoseEach),
        "lose_in_turn" => Some(Ask::LoseInTurn),
        "drain" => Some(Ask::Drain),
        "fit" => Some(Ask::Fit),
        _ => None,
    }
}

#[tactic(auto, unfolding(crate::specs::Questions::ask_in))]
fn ask_in(value: &Value) -> Option<Ask>
    ensures { result ≡ ask_in (view value.now) }
{
    ask_named(text_in(value, "ask")?)
}

// Whether a question of this kind may have a member of this name.
fn is_known(ask: Ask, name: &str) -> bool
    ensures { result ≡ is_known ask name.now }
{
    match ask {
        Ask::Show => name == "ask",
        Ask::Lose => name == "ask" || name == "cells" || name == "zones",
        Ask::LoseEach => name == "ask" || name == "of",
        Ask::LoseInTurn => {
            name == "ask" || name == "order" || name == "cells" || name == "at_least"
        }
        Ask::Drain => name == "ask" || name == "at_a_time" || name == "cells",
        Ask::Fit => {
            name == "ask"
                || name == "instances"
                || name == "memory"
                || name == "disk"
                || name == "tag"
                || name == "process"
        }
    }
}

fn are_known(ask: Ask, object: &Map<String, Value>) -> bool
    ensures { result ≡ list_all (λ name. is_known ask (string_bytes name)) (keys object.now) }
{
    object.keys().all(|name| is_known(ask, name.as_str()))
}

#[tactic(auto, unfolding(crate::specs::Questions::has_only))]
fn has_only(ask: Ask, value: &Value) -> bool
    ensures { result ≡ has_only ask (view value.now) }
{
    match value.as_object() {
        Some(object) => are_known(ask, object),
        None => false,
    }
}

#[tactic(auto, unfolding(crate::specs::Questions::lose_of))]
fn lose_of(
    cells: Result<List<Name>, LineFault>,
    zones: Result<List<Name>, LineFault>,
) -> Result<Question, LineFault>
    ensures { result ≡ lose_of cells zones }
{
    let (cells, zones) = both(cells, zones)?;
    if cells.is_empty() && zones.is_empty() {
        return Err(LineFault::BadShape);
    }
    Ok(Question::Lose { cells, zones })
}

#[tactic(auto, unfolding(crate::specs::Questions::lose_in))]
fn lose_in(alloc: Global, value: &Value) -> Result<Result<Question, LineFault>, OutOfMemory>
    ensures { IfOk result (λ read. read ≡ lose_in (view value.now)) }
{
    let cells = names_or_none(alloc, value, "cells")?;
    let zones = names_or_none(alloc, value, "zones")?;
    Ok(lose_of(cells, zones))
}

fn each_named(word: &str) -> Option<Each>
    ensures { result ≡ each_named word.now }
{
    match word {
        "zone" => Some(Each::Zone),
        "cell" => Some(Each::Cell),
        "pair" => Some(Each::Pair),
        _ => None,
    }
}

#[tactic(auto, unfolding(crate::specs::Questions::each_in))]
fn each_in(value: &Value) -> Option<Each>
    ensures { result ≡ each_in (view value.now) }
{
    each_named(text_in(value, "of")?)
}

#[tactic(auto, unfolding(crate::specs::Questions::lose_each_in))]
fn lose_each_in(value: &Value) -> Result<Question, LineFault>
    ensures { result ≡ lose_each_in (view value.now) }
{
    match each_in(value) {
        Some(of) => Ok(Question::LoseEach { of }),
        None => Err(LineFault::BadShape),
    }
}

// A list that names cells names one at least.
fn some_cells(cells: List<Name>) -> Result<List<Name>, LineFault>
    ensures { result ≡ some_cells cells }
{
    if cells.is_empty() {
        return Err(LineFault::BadShape);
    }
    Ok(cells)
}

#[tactic(auto, unfolding(crate::specs::Questions::cells_in))]
fn cells_in(alloc: Global, value: &Value) -> Result<Result<List<Name>, LineFault>, OutOfMemory>
    ensures { IfOk result (λ read. read ≡ cells_in (view value.now)) }
{
    match names_or_none(alloc, value, "cells")? {
        Ok(cells) => Ok(some_cells(cells)),
        Err(fault) => Ok(Err(fault)),
    }
}

// Cells are given for one order alone.
#[tactic(auto, unfolding(crate::specs::Questions::without_cells))]
fn without_cells(order: TurnOrder, value: &Value) -> Result<TurnOrder, LineFault>
    ensures { result ≡ without_cells order (view value.now) }
{
    if has(value, "cells") {
        Err(LineFault::BadShape)
    } else {
        Ok(order)
    }
}

#[tactic(auto, unfolding(crate::specs::Questions::given_in))]
fn given_in(alloc: Global, value: &Value) -> Result<Result<TurnOrder, LineFault>, OutOfMemory>
    ensures { IfOk result (λ read. read ≡ given_in (view value.now)) }
{
    if !has(value, "cells") {
        return Ok(Err(LineFault::BadShape));
    }
    match cells_in(alloc, value)? {
        Ok(cells) => Ok(Ok(TurnOrder::Given(cells))),
        Err(fault) => Ok(Err(fault)),
    }
}

#[tactic(auto, unfolding(crate::specs::Questions::order_named))]
fn order_named(
    alloc: Global,
    word: &str,
    value: &Value,
) -> Result<Result<TurnOrder, LineFault>, OutOfMemory>
    ensures { IfOk result (λ read. read ≡ order_named word.now (view value.now)) }
{
    match word {
        "fullest" => Ok(without_cells(TurnOrder::Fullest, value)),
        "name" => Ok(without_cells(TurnOrder::ByName, value)),
        "given" => given_in(alloc, value),
        _ => Ok(Err(LineFault::BadShape)),
    }
}

#[tactic(auto, unfolding(crate::specs::Questions::order_in))]
fn order_in(alloc: Global, value: &Value) -> Result<Result<TurnOrder, LineFault>, OutOfMemory>
    ensures { IfOk result (λ read. read ≡ order_in (view value.now)) }
{
    match text_in(value, "order") {
        Some(word) => order_named(alloc, word, value),
        None => Ok(Err(LineFault::BadShape)),
    }
}

#[tactic(auto, unfolding(crate::specs::Questions::turns_in))]
fn turns_in(order: Result<TurnOrder, LineFault>, value: &Value) -> Result<Question, LineFault>
    ensures { result ≡ turns_in order (view value.now) }
{
    let (order, at_least) = both(order, number_or(1, value, "at_least"))?;
    Ok(Question::LoseInTurn { order, at_least })
}

// The cells that are drained, where they are listed.
#[tactic(auto, unfolding(crate::specs::Questions::drained_in))]
fn drained_in(
    alloc: Global,
    value: &Value,
) -> Result<Result<Option<List<Name>>, LineFault>, OutOfMemory>
    ensures { IfOk result (λ read. read ≡ drained_in (view value.now)) }
{
    if !has(value, "cells") {
        return Ok(Ok(None));
    }
    match cells_in(alloc, value)? {
        Ok(cells) => Ok(Ok(Some(cells))),
        Err(fault) => Ok(Err(fault)),
    }
}

fn as_batch(at_a_time: u32) -> Result<u32, LineFault>
    ensures { result ≡ as_batch at_a_time }
{
    if at_a_time == 0 {
        return Err(LineFault::BadShape);
    }
    Ok(at_a_time)
}

// How many cells a batch has at most.
#[tactic(auto, unfolding(crate::specs::Questions::batch_in))]
fn batch_in(value: &Value) -> Result<u32, LineFault>
    ensures { result ≡ batch_in (view value.now) }
{
    as_batch(number_in(value, "at_a_time")?)
}

#[tactic(auto, unfolding(crate::specs::Questions::drain_in))]
fn drain_in(
    cells: Result<Option<List<Name>>, LineFault>,
    value: &Value,
) -> Result<Question, LineFault>
    ensures { result ≡ drain_in cells (view value.now) }
{
    let (at_a_time, cells) = both(batch_in(value), cells)?;
    Ok(Question::Drain { at_a_time, cells })
}

#[tactic(auto, unfolding(crate::specs::Questions::tag_given))]
fn tag_given(value: &Value) -> Result<Option<Name>, LineFault>
    ensures { result ≡ tag_given (view value.now) }
{
    match said(value, "tag") {
        Some(tag) => Ok(Some(name_as(tag)?)),
        None => Ok(None),
    }
}

#[tactic(auto, unfolding(crate::specs::Questions::process_in))]
fn process_in(value: &Value) -> Result<Name, LineFault>
    ensures { result ≡ process_in (view value.now) }
{
    match said(value, "process") {
        Some(process) => name_as(process),
        None => name_of("new"),
    }
}

#[tactic(auto, unfolding(crate::specs::Questions::fit_in))]
fn fit_in(value: &Value) -> Result<Question, LineFault>
    ensures { result ≡ fit_in (view value.now) }
{
    let demand = demand_of(
        number_in(value, "memory"),
        number_in(value, "disk"),
        tag_given(value),
    );
    let asked = both(process_in(value), number_in(value, "instances"));
    let ((process, instances), demand) = both(asked, demand)?;
    Ok(Question::Fit {
        process,
        instances,
        demand,
    })
}

#[tactic(auto, unfolding(crate::specs::Questions::question_as))]
fn question_as(
    alloc: Global,
    ask: Ask,
    value: &Value,
) -> Result<Result<Question, LineFault>, OutOfMemory>
    ensures { IfOk result (λ read. read ≡ question_as ask (view value.now)) }
{
    match ask {
        Ask::Show => Ok(Ok(Question::Show)),
        Ask::Lose => lose_in(alloc, value),
        Ask::LoseEach => Ok(lose_each_in(value)),
        Ask::LoseInTurn => Ok(turns_in(order_in(alloc, value)?, value)),
        Ask::Drain => Ok(drain_in(drained_in(alloc, value)?, value)),
        Ask::Fit => Ok(fit_in(value)),
    }
}

/// What a line with `ask` asks.
#[tactic(auto, unfolding(crate::specs::Questions::question_in))]
pub(crate) fn question_in(
    alloc: Global,
    value: &Value,
) -> Result<Result<Question, LineFault>, OutOfMemory>
    ensures { IfOk result (λ read. read ≡ question_in (view value.now)) }
{
    match ask_in(value) {
        Some(ask) if has_only(ask, value) => question_as(alloc, ask, value),
        _ => Ok(Err(LineFault::BadShape)),
    }
}
