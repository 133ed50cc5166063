//! What is counted of the jobs without room.
ghost use Rattle.std.specs.Prelude.{◌≡◌, IfOk, map};
ghost use Rattle.loss_cases.specs.Cases.{displaced_left_in, tags_left_in, waiting_left_in};

use diego_names::{Name, OutOfMemory};
use forecast_records::Unplaced;
use site_spread::keys_in_order;
use std::alloc::Global;

// How many displaced jobs are without room.
pub(crate) fn displaced_left_in(without: &[Unplaced]) -> u64
    ensures { result ≡ displaced_left_in without.now }
{
    without.iter().filter(|job| !job.waited).count() as u64
}

// How many jobs without room waited before the loss.
pub(crate) fn waiting_left_in(without: &[Unplaced]) -> u64
    ensures { result ≡ waiting_left_in without.now }
{
    without.iter().filter(|job| job.waited).count() as u64
}

// The tag of each.
fn tags_of_all(alloc: Global, without: &[Unplaced]) -> Result<Vec<Option<Name>>, OutOfMemory>
    ensures { IfOk result (λ tags. tags.items ≡ map (λ u. u.tag) without.now) }
{
    Ok(without.iter().map(|job| job.tag).collect(alloc)?)
}

// Their tags, each once, none first.
pub(crate) fn tags_left_in(
    alloc: Global,
    without: &[Unplaced],
) -> Result<Vec<Option<Name>>, OutOfMemory>
    ensures { IfOk result (λ tags. tags.items ≡ tags_left_in without.now) }
{
    let tags = tags_of_all(alloc, without)?;
    keys_in_order(alloc, &tags)
}
