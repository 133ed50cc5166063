//! Assertions as calls. A branch that ends within a test is dear to prove, dearer the more it has at hand; here each
//! stands once, over plain values.
ghost use Rattle.std.specs.Prelude.{◌≡◌, true};

use bbs_model::CallFault;
use fenced_board::FencedReply;
use locket::{LockFault, LockItem, LockReply, LockVerdict};
use std::process::Abort;

pub fn holds(rt: &impl Abort, it: bool)
    ensures { it ≡ true }
{
    assert!(rt; it);
}

pub fn is_number(rt: &impl Abort, got: u64, wanted: u64) {
    assert_eq!(rt; got, wanted);
}

/// This number, of a row of a table that the first one tells.
pub fn is_number_at(rt: &impl Abort, row: u64, got: u64, wanted: u64) {
    assert_eq!(rt; got, wanted, "at {row}");
}

pub fn are_numbers(rt: &impl Abort, got: &[u64], wanted: &[u64]) {
    assert_eq!(rt; got, wanted);
}

pub fn are_bytes(rt: &impl Abort, got: &[u8], wanted: &[u8]) {
    assert_eq!(rt; got, wanted);
}

/// How a call has ended.
pub type End = Result<LockReply, LockFault>;

pub fn is_end(rt: &impl Abort, got: End, wanted: End) {
    assert_eq!(rt; got, wanted);
}

pub fn is_verdict(rt: &impl Abort, row: usize, got: LockVerdict, wanted: LockVerdict) {
    assert_eq!(rt; got, wanted, "at {row}");
}

pub fn are_items(rt: &impl Abort, log: &[LockItem], items: &[LockItem]) {
    assert_eq!(rt; log, items);
}

/// How a call behind a fence has ended.
pub fn is_fenced_end(
    rt: &impl Abort,
    got: Result<FencedReply, CallFault>,
    wanted: Result<FencedReply, CallFault>,
) {
    assert_eq!(rt; got, wanted);
}
