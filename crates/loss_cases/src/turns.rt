//! How many cells of each tag can go one after another.
ghost use Rattle.std.specs.Prelude.{◌≡◌, not, IfOk, map};
ghost use Rattle.std.specs.List.{find};
ghost use Rattle.what_if.specs.Baselines.{IsBaseline};
ghost use Rattle.what_if.specs.Plans.{planned};
ghost use Rattle.what_if.specs.Sites.{IsSite};
ghost use Rattle.loss_cases.specs.Turns.{
  all_went,
  in_turn,
  least_from,
  least_survived,
  left_by,
  one_too_many,
  turn_of,
  turns,
  turns_in,
  verdict_at_least,
  word_of,
};
ghost use Rattle.loss_cases.specs.Cases.{worst};

use crate::cells::{TaggedCell, as_named, by_load, by_name, tagged_cells, tags_of, with_tag};
use crate::left::displaced_left_in;
use crate::verdicts::worse;
use diego_names::{List, Name, OutOfMemory};
use dump_lines::TurnOrder;
use forecast_records::{Turn, TurnWord, TurnsTaken, Unplaced, Verdict};
use std::alloc::Global;
use what_if::{Baseline, Plan, Site, baseline_of, plan_with, taken_by};

fn word_of(order: &TurnOrder) -> TurnWord
    ensures { result ≡ word_of order.now }
{
    match order {
        TurnOrder::Fullest => TurnWord::Fullest,
        TurnOrder::ByName => TurnWord::Name,
        TurnOrder::Given(_) => TurnWord::Given,
    }
}

// The cells that told their state, in the order in which they go.
fn in_turn(alloc: Global, site: &Site, order: &TurnOrder) -> Result<Vec<TaggedCell>, OutOfMemory>
    requires { IsSite site.now }
    ensures { IfOk result (λ cells. cells.items ≡ in_turn site.now order.now) }
{
    let cells = tagged_cells(alloc, site)?;
    match order {
        TurnOrder::Fullest => Ok(by_load(cells)),
        TurnOrder::ByName => Ok(by_name(cells)),
        TurnOrder::Given(names) => as_named(alloc, cells.as_slice(), names.items()),
    }
}

// The first displaced job without room.
fn first_displaced(without: &[Unplaced]) -> Option<Unplaced>
    ensures { result ≡ find (λ u. not u.waited) without.now }
{
    for job in without {
        if !job.waited {
            return Some(*job);
        }
    }
    None
}

// All of the tag's cells went.
fn all_went(tag: Option<Name>, cells: u64, gone: List<Name>) -> Turn
    ensures { result ≡ all_went tag cells gone }
{
    let survived = gone.len() as u64;
    Turn {
        tag,
        cells,
        survived,
        lost: gone,
        unplaced: 0,
        first: None,
        verdict: Verdict::Room,
    }
}

// What a loss leaves: the displaced jobs without room, the first of them, and the verdict.
#[derive(Clone, Copy)]
pub(crate) struct Leaves {
    unplaced: u64,
    first: Option<Unplaced>,
    verdict: Verdict,
}

fn leaves_of(plan: &Plan) -> Leaves
    ensures { result ≡ left_by plan.now }
{
    let without = plan.without_room.items();
    Leaves {
        unplaced: displaced_left_in(without),
        first: first_displaced(without),
        verdict: plan.verdict,
    }
}

fn left_by(alloc: Global, base: &Baseline, lost: &[Name]) -> Result<Leaves, OutOfMemory>
    requires { IsBaseline base.now }
    ensures { IfOk result (λ left. left ≡ left_by (planned base.now.site.now lost.now)) }
{
    let taken = taken_by(alloc, base, lost)?;
    let plan = plan_with(alloc, base, lost, &taken)?;
    let left = leaves_of(&plan);
    Ok(left)
}

// The last of the cells that went was too much.
fn one_too_many(
    tag: Option<Name>,
    cells: u64,
    survived: u64,
    gone: List<Name>,
    left: Leaves,
) -> Turn
    ensures { result ≡ one_too_many tag cells survived gone left }
{
    Turn {
        tag,
        cells,
        survived,
        lost: gone,
        unplaced: left.unplaced,
        first: left.first,
        verdict: left.verdict,
    }
}

// How many cells of the tag can go, in this order.
fn turn_of(
    alloc: Global,
    base: &Baseline,
    tag: Option<Name>,
    cells: &[TaggedCell],
) -> Result<Turn, OutOfMemory>
    requires { IsBaseline base.now }
    ensures { IfOk result (λ turn. turn ≡ turn_of base.now.site.now tag cells.now) }
{
    let count = cells.len() as u64;
    let mut gone = List::new(alloc);
    for cell in cells {
        let survived = gone.len() as u64;
        gone.push(cell.cell)?;
        let left = left_by(alloc, base, gone.items())?;
        if left.unplaced > 0 {
            return Ok(one_too_many(tag, count, survived, gone, left));
        }
    }
    Ok(all_went(tag, count, gone))
}

// How many cells of each tag can go, by tag.
fn turns_in(alloc: Global, base: &Baseline, cells: &[TaggedCell]) -> Result<List<Turn>, OutOfMemory>
    requires { IsBaseline base.now }
    ensures { IfOk result (λ turns. turns ≡ turns_in base.now.site.now cells.now) }
{
    let tags = tags_of(alloc, cells)?;
    let mut turns = List::new(alloc);
    for tag in &tags {
        let own = with_tag(alloc, *tag, cells)?;
        turns.push(turn_of(alloc, base, *tag, own.as_slice())?)?;
    }
    Ok(turns)
}

// The same, where nothing is looked up yet.
fn all_turns(alloc: Global, site: &Site, cells: &[TaggedCell]) -> Result<List<Turn>, OutOfMemory>
    requires { IsSite site.now }
    ensures { IfOk result (λ turns. turns ≡ turns_in site.now cells.now) }
{
    let base = baseline_of(alloc, site)?;
    let turns = turns_in(alloc, &base, cells)?;
    Ok(turns)
}

// The least that one survives, and at most so many.
fn least_from(most: u64, turns: &[Turn]) -> u64
    ensures { result ≡ least_from most turns.now }
{
    let mut least = most;
    for turn in turns {
        least = least.min(turn.survived);
    }
    least
}

// The least that a tag survives, and 0 where there is none.
fn least_survived(turns: &[Turn]) -> u64
    ensures { result ≡ least_survived turns.now }
{
    if turns.is_empty() {
        return 0;
    }
    least_from(turns[0].survived, turns)
}

// Room where the tag survives so many losses.
fn verdict_at_least(at_least: u32, turn: &Turn) -> Verdict
    ensures { result ≡ verdict_at_least at_least turn.now }
{
    if u64::from(at_least) <= turn.survived {
        Verdict::Room
    } else {
        turn.verdict
    }
}

// The worst of the tags that survive too few.
fn verdict_of(at_least: u32, turns: &[Turn]) -> Verdict
    ensures { result ≡ worst (map (verdict_at_least at_least) turns.now) }
{
    let mut verdict = Verdict::Room;
    for turn in turns {
        verdict = worse(verdict, verdict_at_least(at_least, turn));
    }
    verdict
}

/// For each tag its cells that told their state go one after another, up to the first loss that
/// leaves a displaced job without room. The verdict is `Room` if each tag survives `at_least` losses
/// or has no more cells. Else it is the worst of the tags that survive fewer.
pub fn lose_in_turn(
    alloc: Global,
    site: &Site,
    order: &TurnOrder,
    at_least: u32,
) -> Result<TurnsTaken, OutOfMemory>
    requires { IsSite site.now }
    ensures { IfOk result (λ taken. taken ≡ turns site.now order.now at_least) }
{
    let cells = in_turn(alloc, site, order)?;
    let turns = all_turns(alloc, site, cells.as_slice())?;
    let survived = least_survived(turns.items());
    let verdict = verdict_of(at_least, turns.items());
    Ok(TurnsTaken {
        order: word_of(order),
        at_least,
        survived,
        turns,
        verdict,
    })
}
