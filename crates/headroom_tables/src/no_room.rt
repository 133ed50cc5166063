//! The jobs without room: the instances of one process in one row.
ghost use Rattle.std.specs.Prelude.{◌≡◌, [], ◌∷◌, ◌++◌, IfOk, OnOk, string_bytes};
ghost use Rattle.std.specs.List.{list_any};
ghost use Rattle.text_table.specs.Texts.{texts_of};
ghost use Rattle.headroom_tables.specs.NoRoom.{alike, first_rows, index_of, indexes_of, instances_text, job_row, no_room_row, no_room_table, same_work, work_of};

use crate::entries::{Entry, waited_text};
use crate::layout::{Heading, add_row, add_table};
use crate::runs::indexes_text;
use cell_records::JobName;
use diego_names::Name;
use forecast_records::Unplaced;
use std::alloc::{AllocError, Global};
use text_table::Side;

// The process of an instance, or the task.
fn work_of(job: &JobName) -> &Name
    ensures { result.now ≡ work_of job.now }
{
    match job {
        JobName::Lrp(key) => &key.process,
        JobName::Task(name) => name,
    }
}

fn index_of(job: &JobName) -> u32
    ensures { result ≡ index_of job.now }
{
    match job {
        JobName::Lrp(key) => key.index,
        JobName::Task(_) => 0,
    }
}

// Whether both are instances of one process, or one task.
fn same_work(a: &JobName, b: &JobName) -> bool
    ensures { result ≡ same_work a.now b.now }
{
    match a {
        JobName::Lrp(one) => match b {
            JobName::Lrp(other) => one.process == other.process,
            JobName::Task(_) => false,
        },
        JobName::Task(one) => match b {
            JobName::Lrp(_) => false,
            JobName::Task(other) => *one == *other,
        },
    }
}

// Whether both stand in one row.
fn alike(a: &Unplaced, b: &Unplaced) -> bool
    ensures { result ≡ alike a.now b.now }
{
    same_work(&a.job, &b.job) && a.waited == b.waited
}

fn is_any_alike(job: &Unplaced, others: &[Unplaced]) -> bool
    ensures { result ≡ list_any (alike job.now) others.now }
{
    others.iter().any(|other| alike(job, other))
}

// Which instances stand in the job's row.
fn indexes_of(alloc: Global, jobs: &[Unplaced], job: &Unplaced) -> Result<Vec<u32>, AllocError>
    ensures { IfOk result (λ indexes. indexes.items ≡ indexes_of jobs.now job.now) }
{
    jobs.iter()
        .filter(|other| alike(job, other))
        .map(|other| index_of(&other.job))
        .collect(alloc)
}

// A task has no index.
fn instances_text(alloc: Global, job: &JobName, indexes: &[u32]) -> Result<String, AllocError>
    ensures { IfOk result (λ text. string_bytes text ≡ instances_text job.now indexes.now) }
{
    match job {
        JobName::Lrp(_) => indexes_text(alloc, indexes),
        JobName::Task(_) => String::from_str(alloc, "-"),
    }
}

// The row of a job, with the words for the instances that stand in it.
#[tactic(auto, unfolding(crate::specs::NoRoom::no_room_row))]
fn add_named<'a>(
    rows: &mut Vec<Vec<String>>,
    alloc: Global,
    job: &'a Unplaced,
    instances: &'a str,
) -> Result<(), AllocError>
    ensures { OnOk result (texts_of rows.new.items
        ≡ texts_of rows.old.items ++ no_room_row job.now instances.now ∷ []) }
{
    add_row(
        rows,
        alloc,
        &[
            Entry::Name(work_of(&job.job)),
            Entry::Text(instances),
            Entry::Amount(u64::from(job.memory)),
            Entry::Amount(u64::from(job.disk)),
            Entry::Tag(&job.tag),
            Entry::Lacks(&job.reasons),
            Entry::Number(job.reasons.other_tag),
            Entry::Amount(u64::from(job.most_free.memory)),
            Entry::Bound(job),
            Entry::Text(waited_text(job.waited)),
        ],
    )
}

// The job's row.
fn add_job(
    rows: &mut Vec<Vec<String>>,
    alloc: Global,
    jobs: &[Unplaced],
    job: &Unplaced,
) -> Result<(), AllocError>
    ensures { OnOk result (texts_of rows.new.items
        ≡ texts_of rows.old.items ++ job_row jobs.now job.now ∷ []) }
{
    let indexes = indexes_of(alloc, jobs, job)?;
    let instances = instances_text(alloc, &job.job, &indexes)?;
    add_named(rows, alloc, job, instances.as_str())
}

// The job's row, if it is the first of those that stand there.
fn add_first(
    rows: &mut Vec<Vec<String>>,
    alloc: Global,
    jobs: &[Unplaced],
    before: &[Unplaced],
    job: &Unplaced,
) -> Result<(), AllocError>
    ensures { OnOk result (texts_of rows.new.items
        ≡ texts_of rows.old.items ++ first_rows jobs.now before.now job.now) }
{
    if is_any_alike(job, before) {
        return Ok(());
    }
    add_job(rows, alloc, jobs, job)
}

/// The jobs without room.
pub(crate) fn add_no_room(
    text: &mut Vec<u8>,
    alloc: Global,
    jobs: &[Unplaced],
) -> Result<(), AllocError>
    ensures { OnOk result (text.new.items ≡ text.old.items ++ no_room_table jobs.now) }
{
    let mut rows = Vec::new(alloc);
    for (at, job) in jobs.iter().enumerate() {
        add_first(&mut rows, alloc, jobs, &jobs[..at], job)?;
    }
    add_table(
        text,
        alloc,
        &[
            Heading(Side::Left, "NO ROOM FOR"),
            Heading(Side::Left, "INSTANCES"),
            Heading(Side::Right, "MEMORY"),
            Heading(Side::Right, "DISK"),
            Heading(Side::Left, "TAG"),
            Heading(Side::Left, "CELLS LACK"),
            Heading(Side::Right, "OTHER TAG"),
            Heading(Side::Right, "MOST FREE"),
            Heading(Side::Left, "AS LARGE"),
            Heading(Side::Left, "WAITED"),
        ],
        rows,
    )
}
