//! What happens where each zone, each cell or each pair of cells goes alone.
ghost use Rattle.std.specs.Prelude.{◌≡◌, filter, map, IfOk};
ghost use Rattle.loss_cases.specs.Cases.{each_from, each_lost, is_told};
ghost use Rattle.what_if.specs.Sites.{IsSite};

use crate::trying::try_losses;
use crate::verdicts::{count_room, count_short, count_unplaced, is_room, worst};
use diego_names::{List, OutOfMemory};
use dump_lines::Each;
use forecast_records::{Case, EachLost, Verdict};
use std::alloc::Global;
use what_if::Site;

fn verdicts_of(alloc: Global, cases: &[Case]) -> Result<Vec<Verdict>, OutOfMemory>
    ensures { IfOk result (λ verdicts. verdicts.items ≡ map (λ c. c.verdict) cases.now) }
{
    let verdicts = cases.iter().map(|case| case.verdict).collect(alloc)?;
    Ok(verdicts)
}

// Whether a case is told: of pairs those alone that don't find room.
fn is_told(of: Each, case: &Case) -> bool
    ensures { result ≡ is_told of case.now }
{
    match of {
        Each::Zone | Each::Cell => true,
        Each::Pair => !is_room(case.verdict),
    }
}

// The cases that are told.
fn told_of(of: Each, cases: Vec<Case>) -> Vec<Case>
    ensures { result.items ≡ filter (is_told of) cases.items }
{
    let mut told = cases;
    told.retain(|case| is_told(of, case));
    told
}

// So many losses of each verdict, and the cases that are told.
fn each_from(of: Each, verdicts: &[Verdict], told: Vec<Case>) -> EachLost
    ensures { result ≡ each_from of verdicts.now told.items }
{
    EachLost {
        of,
        room: count_room(verdicts),
        unplaced: count_unplaced(verdicts),
        short: count_short(verdicts),
        cases: List::from(told),
        verdict: worst(verdicts),
    }
}

/// What happens where each zone, each cell or each pair of cells goes alone, by name. Of pairs that is
/// each cell that told its state, and then each two of one tag of which either can go alone.
///
/// What stands and waits is looked up once for all losses. A loss then costs what its cells hold, an
/// auction of what waits, a look at each container of an open cell, and one at each process. Zones and
/// cells are a loss each. Of `n` cells that can each go, pairs are `n (n - 1) / 2` losses more.
pub fn lose_each(alloc: Global, site: &Site, of: Each) -> Result<EachLost, OutOfMemory>
    requires { IsSite site.now }
    ensures { IfOk result (λ done. done ≡ each_lost site.now of) }
{
    let mut cases = Vec::new(alloc);
    try_losses(alloc, site, of, &mut cases)?;
    let verdicts = verdicts_of(alloc, cases.as_slice())?;
    let told = told_of(of, cases);
    Ok(each_from(of, verdicts.as_slice(), told))
}
