//! Indexes of instances as runs, as `3,5-7`.
ghost use Rattle.std.specs.Prelude.{◌≡◌, ◌+◌, ◌==◌, [], ◌∷◌, ◌++◌, map, IfOk, OnOk, string_bytes};
ghost use Rattle.std.specs.List.{list_any};
ghost use Rattle.text_table.specs.Texts.{entries_of};
ghost use Rattle.headroom_tables.specs.Runs.{covers, extended, followed, indexes_text, run_text, runs_of, single, with_index};

use crate::layout::{add_text, joined};
use std::alloc::{AllocError, Global};

/// Indexes that follow one another, from the first to the last.
#[derive(Clone, Copy)]
pub(crate) struct Run {
    pub(crate) first: u32,
    pub(crate) last: u32,
}

fn covers(index: u32, run: &Run) -> bool
    ensures { result ≡ covers index run.now }
{
    run.first <= index && index <= run.last
}

fn is_covered(runs: &[Run], index: u32) -> bool
    ensures { result ≡ list_any (covers index) runs.now }
{
    runs.iter().any(|run| covers(index, run))
}

// Whether an index is the one that follows a run.
fn follows(run: Run, index: u32) -> bool
    ensures { result ≡ (run.last + 1 == index) }
{
    u64::from(run.last) + 1 == u64::from(index)
}

// An index as a run of its own.
fn add_single(runs: &mut Vec<Run>, index: u32) -> Result<(), AllocError>
    ensures { OnOk result (runs.new.items ≡ runs.old.items ++ single index ∷ []) }
{
    runs.push(Run {
        first: index,
        last: index,
    })?;
    Ok(())
}

// A run and an index behind it.
fn add_followed(runs: &mut Vec<Run>, run: Run, index: u32) -> Result<(), AllocError>
    ensures { OnOk result (runs.new.items ≡ runs.old.items ++ followed run index) }
{
    if follows(run, index) {
        runs.push(Run {
            first: run.first,
            last: index,
        })?;
        return Ok(());
    }
    runs.push(run)?;
    add_single(runs, index)
}

// An index behind the last run.
#[tactic(auto, using(crate::proofs::LastRun::extended_last), unfolding(crate::specs::Runs::extended))]
fn extend(runs: &mut Vec<Run>, index: u32) -> Result<(), AllocError>
    ensures { OnOk result (runs.new.items ≡ extended runs.old.items index) }
{
    match runs.pop() {
        Some(last) => add_followed(runs, last, index),
        None => add_single(runs, index),
    }
}

// One index more, if no run has it.
fn add_index(runs: &mut Vec<Run>, index: u32) -> Result<(), AllocError>
    ensures { OnOk result (runs.new.items ≡ with_index runs.old.items index) }
{
    if is_covered(runs, index) {
        return Ok(());
    }
    extend(runs, index)
}

fn runs_of(alloc: Global, indexes: &[u32]) -> Result<Vec<Run>, AllocError>
    ensures { IfOk result (λ runs. runs.items ≡ runs_of indexes.now) }
{
    let mut runs = Vec::new(alloc);
    for index in indexes {
        add_index(&mut runs, *index)?;
    }
    Ok(runs)
}

fn run_text(alloc: Global, run: &Run) -> Result<String, AllocError>
    ensures { IfOk result (λ text. string_bytes text ≡ run_text run.now) }
{
    let first = run.first;
    let last = run.last;
    if first == last {
        return first.to_string(alloc);
    }
    format!(in alloc; "{first}-{last}")
}

fn run_parts(alloc: Global, runs: &[Run]) -> Result<Vec<String>, AllocError>
    ensures { IfOk result (λ parts. entries_of parts.items ≡ map run_text runs.now) }
{
    let mut parts = Vec::new(alloc);
    for run in runs {
        let part = run_text(alloc, run)?;
        add_text(&mut parts, part)?;
    }
    Ok(parts)
}

/// Indexes as runs, each index once.
pub(crate) fn indexes_text(alloc: Global, indexes: &[u32]) -> Result<String, AllocError>
    ensures { IfOk result (λ text. string_bytes text ≡ indexes_text indexes.now) }
{
    let runs = runs_of(alloc, indexes)?;
    let parts = run_parts(alloc, &runs)?;
    joined(alloc, ",", &parts)
}
