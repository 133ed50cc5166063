//! Turns at a list of numbers.
mod numbers;
mod runs;

use crate::desk::Desk;
use numbers::{Entry, Numbers};
use runs::{heard, in_order, run_all, run_two};
use std::test::Fail;

#[test]
fn two_threads_take_a_thousand_turns_each(rt: HostRuntime) -> Result<(), Fail> {
    let entries = run_two(&rt, rt.alloc(), 1000, 0).ok_or("out of memory")?;
    assert_eq!(rt; entries.len(), 2000);
    assert!(rt; in_order(&entries, 1, 1000) && in_order(&entries, 2, 1000));
    Ok(())
}

#[test]
fn the_words_wrap(rt: HostRuntime) -> Result<(), Fail> {
    let entries = run_two(&rt, rt.alloc(), 10, u64::MAX - 6).ok_or("out of memory")?;
    assert_eq!(rt; entries.len(), 20);
    assert!(rt; in_order(&entries, 1, 10) && in_order(&entries, 2, 10));
    Ok(())
}

#[test]
fn four_threads_at_once(rt: HostRuntime) -> Result<(), Fail> {
    let entries = run_all(&rt, rt.alloc(), 4, 100).ok_or("out of memory")?;
    assert_eq!(rt; entries.len(), 400);
    for number in 0..4 {
        assert!(rt; in_order(&entries, number, 100));
    }
    Ok(())
}

#[test]
fn one_seat_is_closed_at_once(rt: HostRuntime) -> Result<(), Fail> {
    let numbers = Numbers::new(rt.alloc(), 0)?;
    let (desk, passes) = Desk::start(rt.alloc(), numbers, 1).map_err(|_| "out of memory")?;
    assert_eq!(rt; desk.close(passes).entries.len(), 0);
    Ok(())
}

#[test]
fn as_many_seats_as_there_may_be(rt: HostRuntime) -> Result<(), Fail> {
    let numbers = Numbers::new(rt.alloc(), 0)?;
    let (desk, passes) = Desk::start(rt.alloc(), numbers, 4096).map_err(|_| "out of memory")?;
    assert_eq!(rt; passes.len(), 4096);
    assert_eq!(rt; passes[4095].number(), 4095);
    assert_eq!(rt; desk.close(passes).entries.len(), 0);
    Ok(())
}

#[test]
fn what_was_heard_comes_first(rt: HostRuntime) -> Result<(), Fail> {
    let (first, count) = heard(&rt, rt.alloc()).ok_or("out of memory")?;
    assert_eq!(rt; first, Some(Entry { by: 1, value: 7 }));
    assert_eq!(rt; count, 2);
    Ok(())
}
