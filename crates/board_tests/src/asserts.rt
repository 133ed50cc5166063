//! Assertions as calls. A branch that ends within a test is dear to prove, dearer the more it has at hand; here each
//! stands once, over plain values.
ghost use Rattle.std.specs.Prelude.{◌≡◌, true};

use bbs_board::KeptIn;
use bbs_model::{CallFault, Command, Reply};
use std::process::Abort;

pub fn holds(rt: &impl Abort, it: bool)
    ensures { it ≡ true }
{
    assert!(rt; it);
}

pub fn is_number(rt: &impl Abort, got: u64, wanted: u64)
    ensures { got ≡ wanted }
{
    assert_eq!(rt; got, wanted);
}

pub fn are_bytes(rt: &impl Abort, got: &[u8], wanted: &[u8]) {
    assert_eq!(rt; got, wanted);
}

/// How a call ended.
pub fn is_end(rt: &impl Abort, got: Result<Reply, CallFault>, wanted: Result<Reply, CallFault>) {
    assert_eq!(rt; got, wanted);
}

/// How a checkpoint ended.
pub fn is_outcome(rt: &impl Abort, got: Result<(), CallFault>, wanted: Result<(), CallFault>) {
    assert_eq!(rt; got, wanted);
}

/// Where a board is kept.
pub fn is_kept(rt: &impl Abort, got: KeptIn, wanted: KeptIn) {
    assert_eq!(rt; got, wanted);
}

/// Which commands are asked for.
pub fn are_commands(rt: &impl Abort, got: &[Command], wanted: &[Command]) {
    assert_eq!(rt; got, wanted);
}

/// The same after a stop within that call.
pub fn is_kept_at(rt: &impl Abort, call: u64, got: KeptIn, wanted: KeptIn) {
    assert_eq!(rt; got, wanted, "in call {call}");
}

pub fn is_number_at(rt: &impl Abort, call: u64, got: u64, wanted: u64) {
    assert_eq!(rt; got, wanted, "in call {call}");
}
