//! Processes that run nowhere in the meantime, for one loss after another.
ghost use Rattle.std.specs.Prelude.{◌≡◌, [], filter, map, not, IfOk};
ghost use Rattle.site_answers.specs.Losses.{dark_of_many, process_of};
ghost use Rattle.site_answers.specs.Processes.{goes_dark, AreCounts, AreProcesses};
ghost use Rattle.what_if.specs.Baselines.{IsBaseline};
ghost use Rattle.what_if.specs.Holders.{IsHolders};
ghost use Rattle.what_if.specs.Stays.{stays};
ghost use Rattle.what_if.specs.Taken.{AreTaken};

use crate::dark::{held_processes, of_many, process_names, process_of, processes_of, times_of};
use diego_names::{Name, OutOfMemory};
use site_spread::count_in;
use std::alloc::Global;
use std::collections::HashMap;
use what_if::{Baseline, Holders, Site, Wanted};

/// The processes of a site, as they are looked up for one loss after another.
#[derive(Drop)]
pub struct Processes {
    // Those of which two instances or more are wanted, by name.
    pub(crate) many: Vec<Name>,
    // How many instances of each are held while nothing is lost.
    pub(crate) held: HashMap<Name, u64>,
}

/// The processes of the site, where the holders are those while nothing is lost. It costs a few look-ups for
/// each instance that is wanted.
pub fn processes_in(alloc: Global, site: &Site, before: &Holders) -> Result<Processes, OutOfMemory>
    requires { IsHolders (stays site.now []) before.now }
    ensures { IfOk result (AreProcesses site.now) }
{
    let names = process_names(alloc, site)?;
    let many = of_many(alloc, site, &names)?;
    let list = held_processes(alloc, site, before)?;
    let held = times_of(alloc, &list)?;
    Ok(Processes { many, held })
}

// The processes of those that have not crashed.
fn displaced_among(alloc: Global, taken: &[Wanted]) -> Result<Vec<Name>, OutOfMemory>
    ensures { IfOk result (λ names. names.items
        ≡ map process_of (filter (λ w. not w.crashed) taken.now)) }
{
    let names = taken
        .iter()
        .filter(|wanted| !wanted.crashed)
        .map(process_of)
        .collect(alloc)?;
    Ok(names)
}

// How many instances of each process a loss displaces, and how many it takes.
#[derive(Drop)]
pub(crate) struct Counts {
    pub(crate) displaced: HashMap<Name, u64>,
    pub(crate) taken: HashMap<Name, u64>,
}

fn counts_of_taken(alloc: Global, taken: &[Wanted]) -> Result<Counts, OutOfMemory>
    ensures { IfOk result (AreCounts taken.now) }
{
    let displaced = displaced_among(alloc, taken)?;
    let all = processes_of(alloc, taken)?;
    let times_displaced = times_of(alloc, &displaced)?;
    let times_taken = times_of(alloc, &all)?;
    Ok(Counts {
        displaced: times_displaced,
        taken: times_taken,
    })
}

// Whether the process has displaced instances and none that is held.
fn goes_dark(processes: &Processes, counts: &Counts, process: &Name) -> bool
    ensures { result ≡ goes_dark processes.now counts.now process.now }
{
    0 < count_in(&counts.displaced, process)
        && count_in(&counts.taken, process) == count_in(&processes.held, process)
}

fn dark_by_counts(
    alloc: Global,
    processes: &Processes,
    counts: &Counts,
) -> Result<Vec<Name>, OutOfMemory>
    ensures { IfOk result (λ dark. dark.items
        ≡ filter (goes_dark processes.now counts.now) processes.now.many.items) }
{
    let dark = processes
        .many
        .iter()
        .filter(|name| goes_dark(processes, counts, name))
        .copied()
        .collect(alloc)?;
    Ok(dark)
}

/// The processes that run nowhere in the meantime and of which two instances or more are wanted, by name, where
/// the loss takes these instances.
///
/// It costs a look-up for each process, and a few for each of the instances.
pub fn dark_with(
    alloc: Global,
    base: &Baseline,
    processes: &Processes,
    lost: &[Name],
    taken: &[Wanted],
) -> Result<Vec<Name>, OutOfMemory>
    requires base { IsBaseline base.now }
    requires processes { AreProcesses base.now.site.now processes.now }
    requires taken { AreTaken base.now.site.now lost.now taken.now }
    ensures { IfOk result (λ many. many.items ≡ dark_of_many base.now.site.now lost.now) }
{
    let counts = counts_of_taken(alloc, taken)?;
    let dark = dark_by_counts(alloc, processes, &counts)?;
    Ok(dark)
}
