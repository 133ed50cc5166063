ghost use Rattle.std.specs.Prelude.{◌≤◌};

use super::shelf::Numbered;
use bbs_index::{Order, Shelf};
use std::alloc::Global;
use std::cmp::Ordering;
use std::process::Abort;
use std::test::Fail;

fn add(shelf: &mut Shelf<Numbered>, number: u32) -> Result<(), Fail> {
    shelf.reserve(1)?;
    shelf.put(Numbered { number, other: 0 });
    Ok(())
}

fn add_all(shelf: &mut Shelf<Numbered>, keys: &[u32]) -> Result<(), Fail> {
    for key in keys {
        add(shelf, *key)?;
    }
    Ok(())
}

// Makes the order that of the rows by their keys.
fn put_in_order(shelf: &Shelf<Numbered>, order: &mut Order) -> Result<(), Fail> {
    if shelf.len() > 100_000 {
        return Err(Fail::from("a test has few rows"));
    }
    order.reserve(shelf.len())?;
    shelf.order_into(order);
    Ok(())
}

// The keys of the rows by the numbers of the order.
fn keys_along(alloc: Global, shelf: &Shelf<Numbered>, order: &[u32]) -> Result<Vec<u32>, Fail> {
    shelf.may_be_in_order();
    let mut keys = Vec::new(alloc);
    for number in order {
        let number = *number as usize;
        if shelf.len() <= number {
            return Err(Fail::from("each number is that of a row"));
        }
        keys.push(shelf.at(number).number)?;
    }
    Ok(keys)
}

// Whether the rows are put in the order of these keys.
fn is_put_in(
    alloc: Global,
    shelf: &Shelf<Numbered>,
    order: &mut Order,
    wanted: &[u32],
) -> Result<bool, Fail> {
    put_in_order(shelf, order)?;
    let keys = keys_along(alloc, shelf, order.numbers())?;
    Ok(keys.as_slice() == wanted)
}

fn fill_and_order(
    alloc: Global,
    shelf: &mut Shelf<Numbered>,
    order: &mut Order,
    keys: &[u32],
    wanted: &[u32],
) -> Result<bool, Fail> {
    add_all(shelf, keys)?;
    is_put_in(alloc, shelf, order, wanted)
}

// Whether rows that come with the first keys are put in the order of the second ones.
fn come_in(alloc: Global, order: &mut Order, keys: &[u32], wanted: &[u32]) -> Result<bool, Fail> {
    let mut shelf = Shelf::new(alloc);
    fill_and_order(alloc, &mut shelf, order, keys, wanted)
}

fn compare(rt: &impl Abort, shelf: &mut Shelf<Numbered>) -> Result<(), Fail> {
    add_all(shelf, &[20, 10])?;
    shelf.may_be_in_order();
    if shelf.len() != 2 {
        return Err(Fail::from("two keys are two rows"));
    }
    assert_eq!(rt; shelf.compare(0, 1), Ordering::Greater);
    assert_eq!(rt; shelf.compare(1, 0), Ordering::Less);
    assert_eq!(rt; shelf.compare(1, 1), Ordering::Equal);
    Ok(())
}

#[test]
fn keys_of_two_numbers_compare_where_they_lie(rt: HostRuntime) -> Result<(), Fail> {
    let mut shelf = Shelf::new(rt.alloc());
    compare(&rt, &mut shelf)
}

fn all_come_in(rt: &impl Abort, alloc: Global, order: &mut Order) -> Result<(), Fail> {
    assert!(rt; come_in(alloc, order, &[], &[])?);
    assert!(rt; come_in(alloc, order, &[7], &[7])?);
    assert!(rt; come_in(alloc, order, &[3, 1, 0, 2], &[0, 1, 2, 3])?);
    assert!(rt; come_in(alloc, order, &[10, 20, 30, 25, 5], &[5, 10, 20, 25, 30])?);
    Ok(())
}

#[test]
fn rows_are_ordered_by_their_keys(rt: HostRuntime) -> Result<(), Fail> {
    let mut order = Order::new(rt.alloc());
    all_come_in(&rt, rt.alloc(), &mut order)
}

fn follow_those_that_come(
    rt: &impl Abort,
    alloc: Global,
    shelf: &mut Shelf<Numbered>,
    order: &mut Order,
) -> Result<(), Fail> {
    add_all(shelf, &[3, 1, 2])?;
    assert!(rt; is_put_in(alloc, shelf, order, &[1, 2, 3])?);
    assert!(rt; is_put_in(alloc, shelf, order, &[1, 2, 3])?);
    add(shelf, 0)?;
    assert!(rt; is_put_in(alloc, shelf, order, &[0, 1, 2, 3])?);
    Ok(())
}

#[test]
fn an_order_follows_rows_that_come(rt: HostRuntime) -> Result<(), Fail> {
    let alloc = rt.alloc();
    let (mut shelf, mut order) = (Shelf::new(alloc), Order::new(alloc));
    follow_those_that_come(&rt, alloc, &mut shelf, &mut order)
}

// The last row takes the number of the one that goes.
fn follow_those_that_go(
    rt: &impl Abort,
    alloc: Global,
    shelf: &mut Shelf<Numbered>,
    order: &mut Order,
) -> Result<(), Fail> {
    add_all(shelf, &[3, 1, 2])?;
    assert!(rt; is_put_in(alloc, shelf, order, &[1, 2, 3])?);
    shelf.remove(&3);
    assert!(rt; is_put_in(alloc, shelf, order, &[1, 2])?);
    add(shelf, 0)?;
    assert!(rt; is_put_in(alloc, shelf, order, &[0, 1, 2])?);
    shelf.remove(&1);
    shelf.remove(&2);
    assert!(rt; is_put_in(alloc, shelf, order, &[0])?);
    shelf.remove(&0);
    assert!(rt; is_put_in(alloc, shelf, order, &[])?);
    Ok(())
}

#[test]
fn an_order_follows_rows_that_go(rt: HostRuntime) -> Result<(), Fail> {
    let alloc = rt.alloc();
    let (mut shelf, mut order) = (Shelf::new(alloc), Order::new(alloc));
    follow_those_that_go(&rt, alloc, &mut shelf, &mut order)
}

// Adds the rows of these counts.
fn add_many(shelf: &mut Shelf<Numbered>, from: u32, to: u32) -> Result<(), Fail>
    requires { to ≤ 50000 }
{
    for count in from..to {
        add(shelf, count * 7 % 50_000)?;
    }
    Ok(())
}

// Whether each key stands at its own place, and there are so many.
fn are_all(keys: &[u32], count: usize) -> bool {
    for (place, key) in keys.iter().enumerate() {
        if *key as usize != place {
            return false;
        }
    }
    keys.len() == count
}

fn order_again(
    rt: &impl Abort,
    alloc: Global,
    shelf: &mut Shelf<Numbered>,
    order: &mut Order,
) -> Result<(), Fail> {
    add_many(shelf, 0, 40_000)?;
    put_in_order(shelf, order)?;
    add_many(shelf, 40_000, 50_000)?;
    put_in_order(shelf, order)?;
    let keys = keys_along(alloc, shelf, order.numbers())?;
    assert!(rt; are_all(&keys, 50_000));
    Ok(())
}

#[test]
fn many_rows_are_ordered_again_with_those_that_came(rt: HostRuntime) -> Result<(), Fail> {
    let alloc = rt.alloc();
    let (mut shelf, mut order) = (Shelf::new(alloc), Order::new(alloc));
    order_again(&rt, alloc, &mut shelf, &mut order)
}
