//! Why a command was refused, in words.
ghost use Rattle.std.specs.Prelude.{◌≡◌, IfOk, string_bytes};
ghost use Rattle.record_print.specs.Causes.{held_text, lrp_why_text, not_due_text, rep_why_text, store_why_text, task_why_text, why_text, wrong_instance_text, wrong_state_text};

use crate::word::state_word;
use bbs_model::BoardRefusal;
use cell_rep::RepRefusal;
use container_store::StoreRefusal;
use diego_names::{Instance, StateName};
use line_writing::instance_text;
use lrp_records::LrpRefusal;
use std::alloc::{AllocError, Global};
use task_records::TaskRefusal;

/// Why a command was refused, as an answer's line says it.
pub fn why_text(alloc: Global, why: &BoardRefusal) -> Result<String, AllocError>
    ensures { IfOk result (λ s. string_bytes s ≡ why_text why.now) }
{
    match why {
        BoardRefusal::Exists => String::from_str(alloc, "exists"),
        BoardRefusal::Unknown => String::from_str(alloc, "unknown"),
        BoardRefusal::NotWanted => String::from_str(alloc, "not wanted"),
        BoardRefusal::TooMany { limit } => format!(in alloc; "too many {limit}"),
        BoardRefusal::UnknownCell => String::from_str(alloc, "unknown cell"),
        BoardRefusal::StaleEpoch { now } => format!(in alloc; "stale epoch {now}"),
        BoardRefusal::BoardFull => String::from_str(alloc, "board full"),
        BoardRefusal::LeaseHolds { until } => format!(in alloc; "lease holds {until}"),
        BoardRefusal::Lrp(why) => lrp_why_text(alloc, why),
        BoardRefusal::Task(why) => task_why_text(alloc, why),
    }
}

fn lrp_why_text(alloc: Global, why: &LrpRefusal) -> Result<String, AllocError>
    ensures { IfOk result (λ s. string_bytes s ≡ lrp_why_text why.now) }
{
    match why {
        LrpRefusal::Held { by } => held_text(alloc, by),
        LrpRefusal::NotRunning => String::from_str(alloc, "not running"),
        LrpRefusal::WrongInstance { have } => wrong_instance_text(alloc, have),
        LrpRefusal::NotDue { at } => not_due_text(alloc, *at),
        LrpRefusal::GivenUp => String::from_str(alloc, "given up"),
        LrpRefusal::WrongState { state } => wrong_state_text(alloc, *state),
    }
}

fn task_why_text(alloc: Global, why: &TaskRefusal) -> Result<String, AllocError>
    ensures { IfOk result (λ s. string_bytes s ≡ task_why_text why.now) }
{
    match why {
        TaskRefusal::WrongState { state } => wrong_state_text(alloc, *state),
        TaskRefusal::WrongInstance { have } => wrong_instance_text(alloc, have),
        TaskRefusal::NotDue { at } => not_due_text(alloc, *at),
    }
}

/// Why a rep makes no call.
pub fn rep_why_text(why: RepRefusal) -> &'static str
    ensures { result.now ≡ rep_why_text why }
{
    match why {
        RepRefusal::Down => "down",
        RepRefusal::Store(why) => store_why_text(why),
    }
}

fn store_why_text(why: StoreRefusal) -> &'static str
    ensures { result.now ≡ store_why_text why }
{
    match why {
        StoreRefusal::NoMemoryLeft => "no memory left",
        StoreRefusal::NoDiskLeft => "no disk left",
        StoreRefusal::NoSlot => "no slot",
        StoreRefusal::Unknown => "no container",
        StoreRefusal::WrongState => "wrong state",
    }
}

fn held_text(alloc: Global, by: &Instance) -> Result<String, AllocError>
    ensures { IfOk result (λ s. string_bytes s ≡ held_text by.now) }
{
    let by = instance_text(alloc, by)?;
    format!(in alloc; "held {by}")
}

fn wrong_instance_text(alloc: Global, have: &Instance) -> Result<String, AllocError>
    ensures { IfOk result (λ s. string_bytes s ≡ wrong_instance_text have.now) }
{
    let have = instance_text(alloc, have)?;
    format!(in alloc; "wrong instance {have}")
}

fn not_due_text(alloc: Global, at: u64) -> Result<String, AllocError>
    ensures { IfOk result (λ s. string_bytes s ≡ not_due_text at) }
{
    format!(in alloc; "not due {at}")
}

fn wrong_state_text(alloc: Global, state: StateName) -> Result<String, AllocError>
    ensures { IfOk result (λ s. string_bytes s ≡ wrong_state_text state) }
{
    let word = state_word(state);
    format!(in alloc; "wrong state {word}")
}
