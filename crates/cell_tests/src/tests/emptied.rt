//! Cells that are emptied.
use super::names::{Names, claim, start, up};
use super::stories::{
    NONE, RESERVED, RUNNING, States, Story, behind, behind_two, draining, nothing, one_end, row,
    step, tell, three_ends, two_ends,
};
use super::{Site, done, same, site_of, take_done};
use crate::Turn;
use bbs_model::{Change, Event, Port, Row};
use cell_records::ContainerState;
use cell_rep::{CallEnd, Wire};
use crash_backoff::Moment;
use diego_names::{Instance, OutOfMemory};
use evacuation::drained;
use event_hub::Subscription;
use lrp_records::{Actual, LrpState, Presence};
use std::alloc::Global;
use std::process::Abort;
use std::test::Fail;

// The row of an instance that waits, and its row on the cell that was emptied.
fn waits(names: &Names) -> Actual {
    Actual {
        key: names.key(),
        presence: Presence::Ordinary,
        state: LrpState::Unclaimed,
        count: 0,
        since: Moment(0),
        error: false,
        domain: Some(names.web),
    }
}

fn runs_on(names: &Names) -> Actual {
    let instance = Instance {
        epoch: 0,
        number: 1,
    };
    Actual {
        presence: Presence::Evacuating,
        state: LrpState::Running {
            instance,
            cell: names.cell,
        },
        ..waits(names)
    }
}

// A round places an instance on the cell, where it runs; and the cell is emptied.
fn empty_running<P: Port, W: Wire>(
    rt: &impl Abort,
    alloc: Global,
    site: &mut Site<P, W>,
    names: &Names,
) -> Result<(), OutOfMemory> {
    let turns = [
        names.join(),
        names.desire(),
        names.make(),
        start(names.lrp()),
        up(),
    ];
    take_done(rt, alloc, site, &turns)?;
    let ends = [done(5), done(6)];
    step(rt, alloc, site, &Turn::Evacuate, &ends, &draining(RUNNING))
}

fn has_rows<P: Port>(alloc: Global, port: &mut P, rows: &[Actual]) -> Result<bool, OutOfMemory> {
    Ok(port.rows(alloc)?.actual.items() == rows)
}

// The changes that two polls hear, of six items and of one more.
fn hears_both<P: Port>(alloc: Global, port: &mut P, events: &[Event]) -> Result<bool, OutOfMemory> {
    let mut reader = Subscription::new(0);
    let before = reader.poll(alloc, port, 6)?;
    let heard = reader.poll(alloc, port, 1)?;
    Ok(before.len() == 6 && heard.items() == events && reader.at() == 7)
}

fn changed(change: Change, row: Actual) -> Event {
    Event {
        change,
        row: Row::Actual(row),
    }
}

fn runs_there<P: Port + Drop, W: Wire + Drop>(
    rt: &impl Abort,
    alloc: Global,
    mut site: Site<P, W>,
    names: &Names,
) -> Result<(), OutOfMemory> {
    empty_running(rt, alloc, &mut site, names)?;
    assert!(rt; !drained(&site.rep));
    let rows = [waits(names), runs_on(names)];
    assert!(rt; has_rows(alloc, &mut site.port, &rows)?);
    let events = [
        changed(Change::Created, runs_on(names)),
        changed(Change::Changed, waits(names)),
    ];
    assert!(rt; hears_both(alloc, &mut site.port, &events)?);
    Ok(())
}

#[test]
fn what_runs_on_an_emptied_cell_runs_on(rt: HostRuntime) -> Result<(), Fail> {
    let names = Names::read()?;
    let site = site_of(rt.alloc(), names.cell, None, None)?;
    Ok(runs_there(&rt, rt.alloc(), site, &names)?)
}

// A task's container stays RESERVED: only what is an instance's is given back or placed anew.
fn beside_a_task(names: &Names, first: &Turn, states: States) -> Story {
    let before = behind_two(first, &claim(names.task()));
    let mut story = row(before, &Turn::Evacuate, one_end(done(6)), draining(states));
    story.ends = three_ends(done(6), done(7), same(8));
    story
}

#[test]
fn an_emptied_cell_gives_back_what_does_not_run(rt: HostRuntime) -> Result<(), Fail> {
    let names = Names::read()?;
    let (first, again) = (
        two_ends(done(4), CallEnd::Idle),
        two_ends(same(5), CallEnd::Idle),
    );
    let both = [
        Some(ContainerState::Running),
        Some(ContainerState::Reserved),
    ];
    let stories = [
        beside_a_task(&names, &claim(names.lrp()), RESERVED),
        beside_a_task(&names, &names.run(), both),
        row(nothing(), &Turn::Evacuate, first, draining(NONE)),
        row(behind(&Turn::Drain), &Turn::Evacuate, again, draining(NONE)),
    ];
    Ok(tell(&rt, rt.alloc(), &names, &stories)?)
}
