//! Assertions as calls. A branch that ends within a test is dear to prove, dearer the more it has at hand; here each
//! stands once, over plain values.
ghost use Rattle.std.specs.Prelude.{◌≡◌, true};

use bbs_model::Item;
use std::process::Abort;

pub fn holds(rt: &impl Abort, it: bool)
    ensures { it ≡ true }
{
    assert!(rt; it);
}

/// The same of a row of a table that the number tells.
pub fn holds_at(rt: &impl Abort, row: u64, it: bool) {
    assert!(rt; it, "at {row}");
}

pub fn is_number(rt: &impl Abort, got: u64, wanted: u64) {
    assert_eq!(rt; got, wanted);
}

pub fn is_number_at(rt: &impl Abort, row: u64, got: u64, wanted: u64) {
    assert_eq!(rt; got, wanted, "at {row}");
}

pub fn are_numbers(rt: &impl Abort, got: &[u64], wanted: &[u64]) {
    assert_eq!(rt; got, wanted);
}

pub fn are_items(rt: &impl Abort, log: &[Item], items: &[Item]) {
    assert_eq!(rt; log, items);
}
