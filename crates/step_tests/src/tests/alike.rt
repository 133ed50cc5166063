//! The step in place beside the plain one.
ghost use Rattle.std.specs.Prelude.{◌≡◌};
ghost use Rattle.bbs_model.specs.Tables.{no_rows};
ghost use Rattle.bbs_model.specs.Valid.{IsValid};

use bbs_index::Index;
use bbs_laws::first_board_is_valid;
use bbs_model::{Command, Op, RowStore, Rows, Verdict};
use bbs_transitions::{apply, decide};
use commands::{all_names, beginning, commands_of};
use diego_names::List;
use instances::{crashes, end_of_a_process};
use plain_step::run_all;
use std::alloc::Global;
use std::process::Abort;
use std::test::Fail;
use suspicion::{domains, suspicions};
use tasks::two_tasks;

mod commands;
mod instances;
mod suspicion;
mod tasks;

fn first_board(alloc: Global) -> Rows
    ensures { IsValid result }
{
    first_board_is_valid();
    Rows {
        desired: List::new(alloc),
        actual: List::new(alloc),
        tasks: List::new(alloc),
        cells: List::new(alloc),
        domains: List::new(alloc),
        next: 0,
    }
}

// Does a command in place where it is legal.
fn step(index: &mut Index, command: &Command) -> Result<Verdict, Fail>
    requires { IsValid index.old.rows }
    ensures { IsValid index.new.rows }
{
    index.reserve(2)?;
    let verdict = decide(index, command);
    if verdict == Verdict::Ok {
        let _ = apply(index, command);
    }
    Ok(verdict)
}

// Does each command in place, and tells whether it came to that verdict.
fn come_to(index: &mut Index, commands: &[Command], verdicts: &[Verdict]) -> Result<bool, Fail>
    requires { IsValid index.old.rows }
    ensures { IsValid index.new.rows }
{
    let mut alike = commands.len() == verdicts.len();
    for (command, verdict) in commands.iter().zip(verdicts.iter()) {
        alike = step(index, command)? == *verdict && alike;
    }
    Ok(alike)
}

fn are_alike(one: &Rows, other: &Rows) -> bool {
    one.desired.items() == other.desired.items()
        && one.actual.items() == other.actual.items()
        && one.tasks.items() == other.tasks.items()
        && one.cells.items() == other.cells.items()
        && one.domains.items() == other.domains.items()
        && one.next == other.next
}

// Does the commands by both steps: each must come to the same, and the rows must be the same after them.
fn do_both(
    rt: &impl Abort,
    alloc: Global,
    index: &mut Index,
    rows: &mut Rows,
    commands: &[Command],
) -> Result<(), Fail>
    requires index { IsValid index.old.rows }
    requires rows { IsValid rows.old }
    ensures { IsValid rows.new }
{
    let verdicts = run_all(alloc, rows, commands)?;
    let same = come_to(index, commands, verdicts.as_slice())?;
    assert!(rt; same);
    let after = index.rows(alloc)?;
    assert!(rt; are_alike(&after, rows));
    Ok(())
}

// The same, the index made of the rows.
fn step_alike(
    rt: &impl Abort,
    alloc: Global,
    rows: &mut Rows,
    commands: &[Command],
) -> Result<(), Fail>
    requires { IsValid rows.old }
    ensures { IsValid rows.new }
{
    let mut index = Index::of(alloc, rows)?;
    do_both(rt, alloc, &mut index, rows, commands)
}

// Does the operations at these seconds by the plain step and in place from the same rows: each must
// come to the same, so many change the rows, and the rows are the same after them.
fn run_alike(
    rt: &impl Abort,
    alloc: Global,
    rows: &mut Rows,
    cases: &[(u32, Op)],
    changes: u64,
) -> Result<(), Fail>
    requires { IsValid rows.old }
    ensures { IsValid rows.new }
{
    let next = rows.next;
    let commands = commands_of(alloc, cases)?;
    step_alike(rt, alloc, rows, commands.as_slice())?;
    assert_eq!(rt; rows.next.wrapping_sub(next), changes);
    Ok(())
}

fn all_run_alike(rt: &impl Abort, alloc: Global, rows: &mut Rows) -> Result<(), Fail>
    requires { IsValid rows.old }
{
    let n = all_names()?;
    run_alike(rt, alloc, rows, &beginning(&n), 5)?;
    run_alike(rt, alloc, rows, &crashes(&n), 13)?;
    run_alike(rt, alloc, rows, &two_tasks(&n), 10)?;
    run_alike(rt, alloc, rows, &end_of_a_process(&n), 8)?;
    run_alike(rt, alloc, rows, &suspicions(&n), 8)?;
    run_alike(rt, alloc, rows, &domains(n.web), 3)?;
    Ok(())
}

#[test]
fn the_step_in_place_does_what_the_plain_one_does(rt: HostRuntime) -> Result<(), Fail> {
    let mut rows = first_board(rt.alloc());
    all_run_alike(&rt, rt.alloc(), &mut rows)
}
