//! Processes that run nowhere in the meantime.
ghost use Rattle.std.specs.Prelude.{◌≡◌, ℕ, List, filter, is_some, map, nat_le, unwrap_or, IfOk};
ghost use Rattle.std.specs.HashMap.{get};
ghost use Rattle.auctioneer.specs.Stands.{same_name};
ghost use Rattle.site_answers.specs.Dark.{is_dark_by, was_displaced, AreShares};
ghost use Rattle.site_answers.specs.Losses.{dark_of, dark_of_many, is_of_many, process_of, times};
ghost use Rattle.site_spread.specs.Spread.{processes};
ghost use Rattle.what_if.specs.Holders.{found};
ghost use Rattle.what_if.specs.Scenes.{IsScene};

use diego_names::{Name, OutOfMemory};
use site_spread::{count_in, counts_of, processes};
use std::alloc::Global;
use std::collections::HashMap;
use what_if::{Holders, Scene, Site, Wanted, does_wait};

pub(crate) fn process_of(wanted: &Wanted) -> Name
    ensures { result ≡ process_of wanted.now }
{
    wanted.key.process
}

pub(crate) fn processes_of(alloc: Global, list: &[Wanted]) -> Result<Vec<Name>, OutOfMemory>
    ensures { IfOk result (λ names. names.items ≡ map process_of list.now) }
{
    let names = list.iter().map(process_of).collect(alloc)?;
    Ok(names)
}

// How often each name is among these.
pub(crate) fn times_of(alloc: Global, names: &[Name]) -> Result<HashMap<Name, u64>, OutOfMemory>
    ensures { IfOk result (λ counts. (name : List ℕ)
        → unwrap_or (get same_name counts name) 0 ≡ times name names.now) }
{
    let counts = counts_of(alloc, names)?;
    Ok(counts)
}

// Whether the instance waits with the loss, and a cell holds it without.
fn was_displaced(scene: &Scene, wanted: &Wanted) -> bool
    ensures { result ≡ was_displaced scene.now wanted.now }
{
    does_wait(scene.after, wanted) && scene.before.holder(&wanted.key).is_some()
}

// The process of each instance that waits because of the loss.
fn displaced_processes(alloc: Global, scene: &Scene) -> Result<Vec<Name>, OutOfMemory>
    ensures { IfOk result (λ names. names.items
        ≡ map process_of (filter (was_displaced scene.now) scene.now.site.now.wanted)) }
{
    let names = scene
        .site
        .wanted
        .items()
        .iter()
        .filter(|wanted| was_displaced(scene, wanted))
        .map(process_of)
        .collect(alloc)?;
    Ok(names)
}

// The process of each instance that is wanted and held.
pub(crate) fn held_processes(
    alloc: Global,
    site: &Site,
    holders: &Holders,
) -> Result<Vec<Name>, OutOfMemory>
    ensures { IfOk result (λ names. names.items
        ≡ map process_of (filter (λ w. is_some (found holders.now w.key)) site.now.wanted)) }
{
    let names = site
        .wanted
        .items()
        .iter()
        .filter(|wanted| holders.holder(&wanted.key).is_some())
        .map(process_of)
        .collect(alloc)?;
    Ok(names)
}

// How many instances of each process are displaced, and how many are held.
#[derive(Drop)]
pub(crate) struct Shares {
    pub(crate) displaced: HashMap<Name, u64>,
    pub(crate) held: HashMap<Name, u64>,
}

fn shares_of(alloc: Global, scene: &Scene) -> Result<Shares, OutOfMemory>
    requires { IsScene scene.now }
    ensures { IfOk result (AreShares scene.now.site.now scene.now.lost.now) }
{
    let displaced = displaced_processes(alloc, scene)?;
    let held = held_processes(alloc, scene.site, scene.after)?;
    let times_displaced = times_of(alloc, &displaced)?;
    let times_held = times_of(alloc, &held)?;
    Ok(Shares {
        displaced: times_displaced,
        held: times_held,
    })
}

// Whether the process has displaced instances and none that is held.
fn is_dark(shares: &Shares, process: &Name) -> bool
    ensures { result ≡ is_dark_by shares.now process.now }
{
    0 < count_in(&shares.displaced, process) && count_in(&shares.held, process) == 0
}

fn dark_among(alloc: Global, shares: &Shares, names: &[Name]) -> Result<Vec<Name>, OutOfMemory>
    ensures { IfOk result (λ dark. dark.items ≡ filter (is_dark_by shares.now) names.now) }
{
    let dark = names
        .iter()
        .filter(|name| is_dark(shares, name))
        .copied()
        .collect(alloc)?;
    Ok(dark)
}

// The names of the processes that are wanted, each once.
pub(crate) fn process_names(alloc: Global, site: &Site) -> Result<Vec<Name>, OutOfMemory>
    ensures { IfOk result (λ names. names.items ≡ map process_of (processes site.now)) }
{
    let list = processes(alloc, site)?;
    let names = processes_of(alloc, &list)?;
    Ok(names)
}

// The processes that run nowhere in the meantime, by name.
pub(crate) fn dark_of(alloc: Global, scene: &Scene) -> Result<Vec<Name>, OutOfMemory>
    requires { IsScene scene.now }
    ensures { IfOk result (λ dark. dark.items ≡ dark_of scene.now.site.now scene.now.lost.now) }
{
    let shares = shares_of(alloc, scene)?;
    let names = process_names(alloc, scene.site)?;
    let dark = dark_among(alloc, &shares, &names)?;
    Ok(dark)
}

fn counted_twice(
    alloc: Global,
    wanted: &HashMap<Name, u64>,
    names: &[Name],
) -> Result<Vec<Name>, OutOfMemory>
    ensures { IfOk result (λ many. many.items
        ≡ filter (λ n. nat_le 2 (unwrap_or (get same_name wanted.now n) 0)) names.now) }
{
    let many = names
        .iter()
        .filter(|name| 2 <= count_in(wanted, name))
        .copied()
        .collect(alloc)?;
    Ok(many)
}

// Those of which two instances or more are wanted.
pub(crate) fn of_many(alloc: Global, site: &Site, names: &[Name]) -> Result<Vec<Name>, OutOfMemory>
    ensures { IfOk result (λ many. many.items ≡ filter (is_of_many site.now.wanted) names.now) }
{
    let processes = processes_of(alloc, site.wanted.items())?;
    let wanted = times_of(alloc, &processes)?;
    let many = counted_twice(alloc, &wanted, names)?;
    Ok(many)
}

/// The processes that run nowhere in the meantime and of which two instances or more are wanted, by name.
///
/// It costs a few look-ups for each instance that is wanted.
pub fn dark_of_many(alloc: Global, scene: &Scene) -> Result<Vec<Name>, OutOfMemory>
    requires { IsScene scene.now }
    ensures { IfOk result (λ many. many.items
        ≡ dark_of_many scene.now.site.now scene.now.lost.now) }
{
    let dark = dark_of(alloc, scene)?;
    let many = of_many(alloc, scene.site, &dark)?;
    Ok(many)
}
