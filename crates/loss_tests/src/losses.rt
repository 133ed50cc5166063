//! Cells that go alone, in pairs and one after another: what is told was worked out by hand.
ghost use Rattle.what_if.specs.Sites.{IsSite};

use crate::dumps::{
    A_0, A_1, EMPTY, NO_A, S_0, S_1, SILENT, WEB_0, WEB_1, names_of, rank, site_of,
};
use diego_names::Name;
use dump_lines::{Each, TurnOrder};
use forecast_records::{EachLost, TurnsTaken};
use loss_cases::{lose_each, lose_in_turn};
use std::alloc::Global;
use std::test::Fail;
use what_if::Site;

// Of each verdict so many, the cases that are told, what they displace in all, the verdict.
fn counts_of(told: &EachLost) -> [u64; 6] {
    let cases = told.cases.items();
    [
        told.room,
        told.unplaced,
        told.short,
        cases.len() as u64,
        cases
            .iter()
            .fold(0, |sum, case| case.displaced.saturating_add(sum)),
        rank(told.verdict),
    ]
}

fn each_of(alloc: Global, site: &Site, of: Each) -> Option<[u64; 6]>
    requires { IsSite site.now }
{
    match lose_each(alloc, site, of) {
        Ok(told) => Some(counts_of(&told)),
        Err(_) => None,
    }
}

fn each(alloc: Global, lines: &[&str], of: Each) -> Option<[u64; 6]> {
    match site_of(alloc, lines) {
        Some(site) => each_of(alloc, &site, of),
        None => None,
    }
}

// The least that a tag survives, how many tags there are, what they survive in all, the verdict.
fn turns_of(taken: &TurnsTaken) -> [u64; 4] {
    let turns = taken.turns.items();
    [
        taken.survived,
        turns.len() as u64,
        turns
            .iter()
            .fold(0, |sum, turn| turn.survived.saturating_add(sum)),
        rank(taken.verdict),
    ]
}

fn in_turn_of(alloc: Global, site: &Site, order: &TurnOrder, at_least: u32) -> Option<[u64; 4]>
    requires { IsSite site.now }
{
    match lose_in_turn(alloc, site, order, at_least) {
        Ok(taken) => Some(turns_of(&taken)),
        Err(_) => None,
    }
}

fn in_turn(alloc: Global, lines: &[&str], order: &TurnOrder, at_least: u32) -> Option<[u64; 4]> {
    match site_of(alloc, lines) {
        Some(site) => in_turn_of(alloc, &site, order, at_least),
        None => None,
    }
}

fn in_order_given(
    alloc: Global,
    lines: &[&str],
    cells: &[Name],
    at_least: u32,
) -> Option<[u64; 4]> {
    match names_of(alloc, cells) {
        Ok(names) => in_turn(alloc, lines, &TurnOrder::Given(names), at_least),
        Err(_) => None,
    }
}

// What runs on i1 or i2 has no room elsewhere. Two cells without a tag leave a third one with room, and
// i1 and i2 can't go alone, so that they aren't tried together.
#[test]
fn each_goes_alone(rt: HostRuntime) -> Result<(), Fail> {
    let lines = [A_0, A_1, NO_A, S_0, S_1];
    for (of, wanted) in [
        (Each::Zone, [0, 0, 2, 2, 4, 2]),
        (Each::Cell, [3, 0, 2, 5, 4, 2]),
        (Each::Pair, [6, 0, 2, 2, 2, 2]),
    ] {
        assert_eq!(rt; each(rt.alloc(), &lines, of), Some(wanted));
    }
    Ok(())
}

// A silent cell and its zone go like others, and what a row says is there has to go elsewhere. No pair
// has it.
#[test]
fn a_silent_cell_can_be_lost(rt: HostRuntime) -> Result<(), Fail> {
    let lines = [WEB_0, WEB_1, EMPTY, SILENT];
    for (of, wanted) in [
        (Each::Zone, [3, 0, 0, 3, 3, 0]),
        (Each::Cell, [4, 0, 0, 4, 3, 0]),
        (Each::Pair, [6, 0, 0, 0, 0, 0]),
    ] {
        assert_eq!(rt; each(rt.alloc(), &lines, of), Some(wanted));
    }
    Ok(())
}

// Of the cells without a tag c1 and c2 can go, and then c3 can't. Of the other tag none can.
#[test]
fn cells_go_one_after_another(rt: HostRuntime) -> Result<(), Fail> {
    let lines = [A_0, A_1, NO_A, S_0, S_1];
    let none = in_turn(rt.alloc(), &lines, &TurnOrder::Fullest, 0);
    assert_eq!(rt; none, Some([0, 2, 2, 0]));
    let one = in_turn(rt.alloc(), &lines, &TurnOrder::ByName, 1);
    assert_eq!(rt; one, Some([0, 2, 2, 2]));
    Ok(())
}

// A tag whose cells all went has no more to survive, whatever is asked for. The silent cell is passed over.
#[test]
fn cells_that_are_given_go_in_that_order(rt: HostRuntime) -> Result<(), Fail> {
    let (c1, c3, c4) = (Name::read(b"c1")?, Name::read(b"c3")?, Name::read(b"c4")?);
    let lines = [WEB_0, WEB_1, EMPTY, SILENT];
    let given = in_order_given(rt.alloc(), &lines, &[c4, c3, c1], 3);
    assert_eq!(rt; given, Some([2, 1, 2, 0]));
    let all = in_turn(rt.alloc(), &lines, &TurnOrder::Fullest, 3);
    assert_eq!(rt; all, Some([2, 1, 2, 2]));
    Ok(())
}
