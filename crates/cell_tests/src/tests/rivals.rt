//! Two cells and one instance.
use super::names::{Names, claim, settle};
use super::{Site, done, refused, same, site_of, take, take_done};
use crate::Turn;
use bbs_model::{BoardRefusal, Op, Port, Reply};
use cell_rep::{CallEnd, CellRep, Delivery, Wire};
use diego_names::{Instance, OutOfMemory};
use lrp_records::LrpRefusal;
use std::alloc::Global;
use std::mem::swap;
use std::process::Abort;
use std::test::Fail;

// The first container of the cell that joined as the first transition, or as the second, has the row.
fn held_by(epoch: u64) -> BoardRefusal {
    BoardRefusal::Lrp(LrpRefusal::Held {
        by: Instance { epoch, number: 1 },
    })
}

// Another cell joins, and then the cell of the site; and an instance waits.
fn both_join<P: Port, W: Wire>(
    rt: &impl Abort,
    alloc: Global,
    site: &mut Site<P, W>,
    other: &mut CellRep,
    names: &Names,
) -> Result<(), OutOfMemory> {
    swap(&mut site.rep, other);
    take_done(rt, alloc, site, &[names.join()])?;
    swap(&mut site.rep, other);
    take_done(
        rt,
        alloc,
        site,
        &[names.join(), names.desire(), names.make()],
    )
}

// The first that claims has the row; the other keeps nothing.
fn both_claim<P: Port + Drop, W: Wire + Drop>(
    rt: &impl Abort,
    alloc: Global,
    mut site: Site<P, W>,
    mut other: CellRep,
    names: &Names,
    is_second_first: bool,
) -> Result<(), OutOfMemory> {
    both_join(rt, alloc, &mut site, &mut other, names)?;
    if !is_second_first {
        swap(&mut site.rep, &mut other);
    }
    let epoch = u64::from(is_second_first);
    let turns = [claim(names.lrp())];
    take(rt, alloc, &mut site, &turns, &[done(4)])?;
    swap(&mut site.rep, &mut other);
    take(rt, alloc, &mut site, &turns, &[refused(held_by(epoch), 5)])?;
    assert_eq!(rt;
        (
            site.rep.containers(alloc)?.len(),
            other.containers(alloc)?.len()
        ),
        (0, 1)
    );
    Ok(())
}

// Two claims, by the second cell first or by the first.
fn claims_in_order(
    rt: &impl Abort,
    alloc: Global,
    names: &Names,
    is_second_first: bool,
) -> Result<(), OutOfMemory> {
    let site = site_of(alloc, names.cell, None, None)?;
    let other = CellRep::new(names.job);
    both_claim(rt, alloc, site, other, names, is_second_first)
}

#[test]
fn the_second_of_two_claims_is_refused(rt: HostRuntime) -> Result<(), Fail> {
    let names = Names::read()?;
    claims_in_order(&rt, rt.alloc(), &names, true)?;
    Ok(claims_in_order(&rt, rt.alloc(), &names, false)?)
}

// A round could not place the instance. The second cell claims it, does not hear of it, and claims it again; then
// the first does.
fn claim_unheard<P: Port + Drop, W: Wire + Drop>(
    rt: &impl Abort,
    alloc: Global,
    mut site: Site<P, W>,
    mut other: CellRep,
    names: &Names,
) -> Result<(), OutOfMemory> {
    both_join(rt, alloc, &mut site, &mut other, names)?;
    let place_fail = Turn::Board(Op::PlaceFail { key: names.key() });
    let unheard = CallEnd::ReplyLost(Ok(Reply::Ok { place: 5, stamp: 5 }));
    take(rt, alloc, &mut site, &[place_fail], &[done(4)])?;
    let turns = [claim(names.lrp()), claim(names.lrp())];
    take(rt, alloc, &mut site, &turns, &[unheard, same(6)])?;
    swap(&mut site.rep, &mut other);
    let turns = [claim(names.lrp())];
    take(rt, alloc, &mut site, &turns, &[refused(held_by(1), 6)])?;
    assert_eq!(rt;
        (
            site.rep.containers(alloc)?.len(),
            other.containers(alloc)?.len()
        ),
        (0, 1)
    );
    Ok(())
}

// Each cell has made one delivery, for its join.
#[test]
fn a_claim_stands_though_its_reply_was_lost(rt: HostRuntime) -> Result<(), Fail> {
    let alloc = rt.alloc();
    let names = Names::read()?;
    let lost = Some((3, Delivery::ReplyLost));
    let other = CellRep::new(names.job);
    let site = site_of(alloc, names.cell, None, lost)?;
    Ok(claim_unheard(&rt, alloc, site, other, &names)?)
}

// What runs has the row, whoever claimed it.
fn run_over<P: Port + Drop, W: Wire + Drop>(
    rt: &impl Abort,
    alloc: Global,
    mut site: Site<P, W>,
    mut other: CellRep,
    names: &Names,
) -> Result<(), OutOfMemory> {
    both_join(rt, alloc, &mut site, &mut other, names)?;
    take_done(rt, alloc, &mut site, &[claim(names.lrp())])?;
    swap(&mut site.rep, &mut other);
    take_done(rt, alloc, &mut site, &[names.run()])?;
    swap(&mut site.rep, &mut other);
    take(rt, alloc, &mut site, &[settle()], &[refused(held_by(0), 6)])?;
    assert_eq!(rt;
        (
            site.rep.containers(alloc)?.len(),
            other.containers(alloc)?.len()
        ),
        (0, 1)
    );
    Ok(())
}

#[test]
fn a_run_takes_over_what_another_has_claimed(rt: HostRuntime) -> Result<(), Fail> {
    let alloc = rt.alloc();
    let names = Names::read()?;
    let other = CellRep::new(names.job);
    let site = site_of(alloc, names.cell, None, None)?;
    Ok(run_over(&rt, alloc, site, other, &names)?)
}
