//! How many containers cells have.
ghost use Rattle.std.specs.Prelude.{◌≡◌, filter, length, sum_by};
ghost use Rattle.std.specs.List.{flat_map};
ghost use Rattle.auctioneer.specs.Asked.{AreAnswers, IsSoundAnswer};
ghost use Rattle.site_answers.specs.Counting.{count_on, is_standing};
ghost use Rattle.site_answers.specs.Losses.{is_task, tasks_lost, tasks_on};
ghost use Rattle.site_answers.specs.Zones.{cells_in};
ghost use Rattle.what_if.specs.Stays.{stays_on};

use cell_records::{Answer, Container, JobName};
use diego_names::Name;
use site_spread::{Group, is_in};
use what_if::{Site, has_ended, is_lost};

fn is_task(job: &JobName) -> bool
    ensures { result ≡ is_task job.now }
{
    match job {
        JobName::Lrp(_) => false,
        JobName::Task(_) => true,
    }
}

// The containers of tasks on the cell.
fn tasks_on(answer: &Answer) -> u32
    requires { IsSoundAnswer answer.now }
    ensures { result ≡ length (tasks_on answer.now) }
{
    // They are at most as many as the cell may have, and a number that was read is known to be in range.
    let _most = answer.totals.containers;
    let containers = answer.containers.items();
    containers
        .iter()
        .filter(|container| is_task(&container.job))
        .count() as u32
}

// Whether the container is of an instance and has not ended.
fn is_standing(container: &Container) -> bool
    ensures { result ≡ is_standing container.now }
{
    !has_ended(&container.state) && !is_task(&container.job)
}

fn standing_on(answer: &Answer) -> u32
    requires { IsSoundAnswer answer.now }
    ensures { result ≡ length (filter is_standing answer.now.containers) }
{
    let _most = answer.totals.containers;
    let containers = answer.containers.items();
    containers
        .iter()
        .filter(|container| is_standing(container))
        .count() as u32
}

// The containers of instances on the cell that have not ended.
fn instances_on(answer: &Answer) -> u32
    requires { IsSoundAnswer answer.now }
    ensures { result ≡ length (stays_on answer.now) }
{
    standing_on(answer)
}

// What is counted of cells.
#[derive(Clone, Copy)]
pub(crate) enum Counted<'a> {
    Instances,
    InstancesIn(&'a Group),
    Tasks,
    TasksLost(&'a [Name]),
}

// How many of them the cell has.
fn count_on(counted: &Counted, answer: &Answer) -> u32
    requires { IsSoundAnswer answer.now }
    ensures { result ≡ count_on counted.now answer.now }
{
    match counted {
        Counted::Instances => instances_on(answer),
        Counted::InstancesIn(group) => {
            if is_in(group, &answer.zone, &answer.tag) {
                instances_on(answer)
            } else {
                0
            }
        }
        Counted::Tasks => tasks_on(answer),
        Counted::TasksLost(lost) => {
            if is_lost(lost, &answer.cell) {
                tasks_on(answer)
            } else {
                0
            }
        }
    }
}

// How many of them the cells have.
fn count_all(cells: &[Answer], counted: &Counted) -> u64
    requires { AreAnswers cells.now }
    ensures { result ≡ sum_by (count_on counted.now) cells.now }
{
    let mut count: u64 = 0;
    for answer in cells {
        count += u64::from(count_on(counted, answer));
    }
    count
}

// The containers of instances that have not ended, on cells that told their state.
pub(crate) fn instances_there(site: &Site) -> u64
    requires { AreAnswers site.now.cells }
    ensures { result ≡ length (flat_map stays_on site.now.cells) }
{
    count_all(site.cells.items(), &Counted::Instances)
}

// Those on the cells of a zone and tag.
pub(crate) fn instances_of_group(site: &Site, group: &Group) -> u64
    requires { AreAnswers site.now.cells }
    ensures { result ≡ length (flat_map stays_on (cells_in site.now group.now)) }
{
    count_all(site.cells.items(), &Counted::InstancesIn(group))
}

// The containers of tasks on cells that told their state.
pub(crate) fn tasks_there(site: &Site) -> u64
    requires { AreAnswers site.now.cells }
    ensures { result ≡ length (flat_map tasks_on site.now.cells) }
{
    count_all(site.cells.items(), &Counted::Tasks)
}

// Those on the lost cells.
pub(crate) fn tasks_lost(site: &Site, lost: &[Name]) -> u64
    requires { AreAnswers site.now.cells }
    ensures { result ≡ tasks_lost site.now lost.now }
{
    count_all(site.cells.items(), &Counted::TasksLost(lost))
}
