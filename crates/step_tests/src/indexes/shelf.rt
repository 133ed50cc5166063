ghost use Rattle.std.specs.FinMap.{nat_cmp-IsAntisymmetric};
ghost use Rattle.std.specs.Cmp.{nat_cmp_total};

use crate::rows::unclaimed;
use bbs_index::Shelf;
use bbs_model::Rowed;
use diego_names::Name;
use lrp_records::{Actual, Desired, Presence};
use std::alloc::Global;
use std::process::Abort;
use std::test::Fail;

fn desired(process: &[u8], instances: u32) -> Result<Desired, Fail> {
    let process = Name::read(process)?;
    Ok(Desired {
        process,
        domain: process,
        instances,
        memory: 64,
        disk: 128,
        tag: None,
        route: None,
        port: 8080,
    })
}

fn add(shelf: &mut Shelf<Desired>, row: Desired) -> Result<(), Fail> {
    shelf.reserve(1)?;
    shelf.put(row);
    Ok(())
}

// Checks that these are the three rows, in the order of their keys.
fn are_in_order(rt: &impl Abort, rows: &[Desired]) {
    assert_eq!(rt; rows.len(), 3);
    for (row, wanted) in rows.iter().zip([("api", 2), ("cron", 3), ("web", 1)]) {
        assert_eq!(rt; (row.process.as_str(), row.instances), wanted);
    }
}

fn come_in_order(rt: &impl Abort, alloc: Global, shelf: &mut Shelf<Desired>) -> Result<(), Fail> {
    add(shelf, desired(b"web", 1)?)?;
    add(shelf, desired(b"api", 2)?)?;
    add(shelf, desired(b"cron", 3)?)?;
    are_in_order(rt, shelf.rows(alloc)?.as_slice());
    Ok(())
}

#[test]
fn rows_come_out_in_the_order_of_their_keys(rt: HostRuntime) -> Result<(), Fail> {
    let mut shelf = Shelf::new(rt.alloc());
    come_in_order(&rt, rt.alloc(), &mut shelf)
}

fn takes_the_place(rt: &impl Abort, shelf: &mut Shelf<Desired>) -> Result<(), Fail> {
    let row = desired(b"web", 1)?;
    add(shelf, row)?;
    let spare = shelf.spare();
    add(shelf, desired(b"web", 5)?)?;
    assert_eq!(rt; shelf.len(), 1);
    assert!(rt; spare <= shelf.spare());
    assert_eq!(rt;
        shelf.get(&row.process).map(|found| found.instances),
        Some(5)
    );
    Ok(())
}

#[test]
fn a_put_at_a_known_key_takes_the_place_of_the_row_there(rt: HostRuntime) -> Result<(), Fail> {
    let mut shelf = Shelf::new(rt.alloc());
    takes_the_place(&rt, &mut shelf)
}

fn loses_one(rt: &impl Abort, shelf: &mut Shelf<Desired>) -> Result<(), Fail> {
    let gone = desired(b"web", 1)?;
    let kept = desired(b"api", 2)?;
    add(shelf, gone)?;
    add(shelf, kept)?;
    shelf.remove(&gone.process);
    shelf.remove(&gone.process);
    assert_eq!(rt; shelf.len(), 1);
    assert_eq!(rt; shelf.get(&gone.process), None);
    assert_eq!(rt; shelf.get(&kept.process), Some(kept));
    Ok(())
}

#[test]
fn a_removal_takes_one_row(rt: HostRuntime) -> Result<(), Fail> {
    let mut shelf = Shelf::new(rt.alloc());
    loses_one(&rt, &mut shelf)
}

fn put_each(shelf: &mut Shelf<Actual>) -> Result<(), Fail> {
    let ordinary = unclaimed(Name::read(b"web")?, 0, 0);
    let evacuating = Actual {
        presence: Presence::Evacuating,
        ..ordinary
    };
    let suspect = Actual {
        presence: Presence::Suspect,
        ..ordinary
    };
    shelf.reserve(3)?;
    shelf.put(suspect);
    shelf.put(evacuating);
    shelf.put(ordinary);
    Ok(())
}

// Checks that these are an ORDINARY row, an EVACUATING and a SUSPECT one.
fn are_three(rt: &impl Abort, rows: &[Actual]) {
    assert_eq!(rt; rows.len(), 3);
    for (row, wanted) in rows.iter().zip([0, 1, 2]) {
        assert_eq!(rt; row.presence.rank(), wanted);
    }
}

fn keeps_each(rt: &impl Abort, alloc: Global, shelf: &mut Shelf<Actual>) -> Result<(), Fail> {
    put_each(shelf)?;
    are_three(rt, shelf.rows(alloc)?.as_slice());
    Ok(())
}

#[test]
fn an_instance_keeps_each_of_its_rows(rt: HostRuntime) -> Result<(), Fail> {
    let mut shelf = Shelf::new(rt.alloc());
    keeps_each(&rt, rt.alloc(), &mut shelf)
}

// A row that is its own number, beside another.
#[derive(Clone, Copy)]
pub(crate) struct Numbered {
    pub(crate) number: u32,
    pub(crate) other: u32,
}

impl Rowed for Numbered {
    type Key = u32;

    ghost key = { λ row. row.number };

    ghost ordered = { record { total = nat_cmp_total; exact = nat_cmp-IsAntisymmetric } };

    fn key(&self) -> u32 {
        self.number
    }
}

fn fill(shelf: &mut Shelf<Numbered>) -> Result<(), Fail> {
    for count in 0..50_000u32 {
        let number = count * 7 % 50_000;
        shelf.reserve(1)?;
        shelf.put(Numbered {
            number,
            other: count,
        });
    }
    Ok(())
}

// Checks that each row stands at its own place, beside its count.
fn are_all(rt: &impl Abort, rows: &[Numbered]) {
    assert_eq!(rt; rows.len(), 50_000);
    for (place, row) in rows.iter().enumerate() {
        assert_eq!(rt; row.number as usize, place);
        assert_eq!(rt; u64::from(row.other) * 7 % 50_000, u64::from(row.number));
    }
}

fn go_in_and_out(rt: &impl Abort, alloc: Global, shelf: &mut Shelf<Numbered>) -> Result<(), Fail> {
    fill(shelf)?;
    assert_eq!(rt; shelf.len(), 50_000);
    are_all(rt, shelf.rows(alloc)?.as_slice());
    for number in 0..50_000u32 {
        shelf.remove(&number);
    }
    assert_eq!(rt; shelf.len(), 0);
    Ok(())
}

#[test]
fn fifty_thousand_rows_go_in_and_out(rt: HostRuntime) -> Result<(), Fail> {
    let mut shelf = Shelf::new(rt.alloc());
    go_in_and_out(&rt, rt.alloc(), &mut shelf)
}
