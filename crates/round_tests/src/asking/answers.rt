//! Answers of cells, and rows that name their containers. An answer is written down as the cell, its epoch and
//! its containers; lists are made of it where it is asked.
ghost use Rattle.bbs_model.specs.Valid.{IsValid};

use super::{are_asked, first, first_board};
use bbs_model::{Command, Op, Rows};
use cell_records::{Amounts, Answer, Container, ContainerState, JobName};
use convergence::{plan, strays};
use crash_backoff::Moment;
use diego_names::{Instance, List, Name, OutOfMemory};
use plain_step::run_all;
use std::alloc::Global;

/// A container of the first instance of a process.
pub fn held(process: Name, epoch: u64, number: u32, state: ContainerState) -> Container {
    Container {
        instance: Instance { epoch, number },
        job: JobName::Lrp(first(process)),
        memory: 64,
        disk: 128,
        state,
    }
}

/// A container of a task.
pub fn held_task(name: Name, epoch: u64, number: u32, state: ContainerState) -> Container {
    Container {
        instance: Instance { epoch, number },
        job: JobName::Task(name),
        memory: 64,
        disk: 128,
        state,
    }
}

// Items in a list.
fn listed<X: Copy>(alloc: Global, of: &[X]) -> Result<List<X>, OutOfMemory> {
    let mut items = List::new(alloc);
    for item in of {
        items.push(*item)?;
    }
    Ok(items)
}

// What a cell with these containers answers.
fn answer(
    alloc: Global,
    cell: Name,
    epoch: u64,
    held: &[Container],
) -> Result<Answer, OutOfMemory> {
    let containers = listed(alloc, held)?;
    let totals = Amounts {
        memory: 1024,
        disk: 2048,
        containers: 16,
    };
    let (zone, tag, evacuating, last) = (cell, None, false, 9);
    Ok(Answer {
        cell,
        zone,
        tag,
        epoch,
        evacuating,
        totals,
        free: totals,
        last,
        containers,
    })
}

// Adds what a cell answers.
fn add_answer(
    alloc: Global,
    answers: &mut List<Answer>,
    told: &(Name, u64, &[Container]),
) -> Result<(), OutOfMemory> {
    let (cell, epoch, held) = told;
    answers.push(answer(alloc, *cell, *epoch, held)?)
}

// What these cells answer, one after another.
fn answers_of(
    alloc: Global,
    answers: &mut List<Answer>,
    told: &[(Name, u64, &[Container])],
) -> Result<(), OutOfMemory> {
    for one in told {
        add_answer(alloc, answers, one)?;
    }
    Ok(())
}

// Whether a plan of rows and answers asks for these at moment 1.
fn plans_by(
    alloc: Global,
    rows: &Rows,
    answers: &[Answer],
    asked: &[Op],
) -> Result<bool, OutOfMemory> {
    let now = Moment(1);
    let planned = plan(alloc, rows, answers, now)?;
    Ok(are_asked(planned.items(), now, asked))
}

// Whether a plan of rows asks for these at moment 1 once these cells have answered.
fn plans_of(
    alloc: Global,
    rows: &Rows,
    told: &[(Name, u64, &[Container])],
    asked: &[Op],
) -> Result<bool, OutOfMemory> {
    let mut answers = List::new(alloc);
    match answers_of(alloc, &mut answers, told) {
        Err(why) => Err(why),
        Ok(()) => plans_by(alloc, rows, answers.items(), asked),
    }
}

/// Whether a plan asks for these at moment 1 once those were done and these cells have answered.
pub fn plans(
    alloc: Global,
    done: &[Command],
    told: &[(Name, u64, &[Container])],
    asked: &[Op],
) -> Result<bool, OutOfMemory> {
    let mut rows = first_board(alloc);
    match run_all(alloc, &mut rows, done) {
        Err(why) => Err(why),
        Ok(_) => plans_of(alloc, &rows, told, asked),
    }
}

// Whether these are the strays of rows and answers.
fn stray_by(
    alloc: Global,
    rows: &Rows,
    answers: &[Answer],
    found: &[(Name, Instance)],
) -> Result<bool, OutOfMemory>
    requires { IsValid rows.now }
{
    let all = strays(alloc, rows, answers)?;
    Ok(all.items() == found)
}

// Whether these are the strays of rows once these cells have answered.
fn stray_of(
    alloc: Global,
    rows: &Rows,
    told: &[(Name, u64, &[Container])],
    found: &[(Name, Instance)],
) -> Result<bool, OutOfMemory>
    requires { IsValid rows.now }
{
    let mut answers = List::new(alloc);
    match answers_of(alloc, &mut answers, told) {
        Err(why) => Err(why),
        Ok(()) => stray_by(alloc, rows, answers.items(), found),
    }
}

/// Whether these are the strays once those were done and these cells have answered.
pub fn stray(
    alloc: Global,
    done: &[Command],
    told: &[(Name, u64, &[Container])],
    found: &[(Name, Instance)],
) -> Result<bool, OutOfMemory> {
    let mut rows = first_board(alloc);
    match run_all(alloc, &mut rows, done) {
        Err(why) => Err(why),
        Ok(_) => stray_of(alloc, &rows, told, found),
    }
}
