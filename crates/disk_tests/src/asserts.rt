//! Assertions as calls. A branch that ends within a test is dear to prove, dearer the more it has at hand; here each
//! stands once, over plain values.
ghost use Rattle.std.specs.Prelude.{◌≡◌, true};

use byte_ports::Failed;
use std::process::Abort;

pub fn holds(rt: &impl Abort, it: bool)
    ensures { it ≡ true }
{
    assert!(rt; it);
}

pub fn is_number(rt: &impl Abort, got: u64, wanted: u64)
    ensures { got ≡ wanted }
{
    assert_eq!(rt; got, wanted);
}

pub fn are_bytes(rt: &impl Abort, got: &[u8], wanted: &[u8]) {
    assert_eq!(rt; got, wanted);
}

/// These bytes, of a row of a table that this number tells.
pub fn are_bytes_at(rt: &impl Abort, row: u64, got: &[u8], wanted: &[u8]) {
    assert_eq!(rt; got, wanted, "at {row}");
}

/// Which of the calls succeeded.
pub fn are_told(rt: &impl Abort, got: &[bool], wanted: &[bool]) {
    assert_eq!(rt; got, wanted);
}

/// How many bytes were read.
pub fn is_count(rt: &impl Abort, got: Result<usize, Failed>, wanted: Result<usize, Failed>) {
    assert_eq!(rt; got, wanted);
}

/// How long an area is.
pub fn is_length(rt: &impl Abort, got: Result<u64, Failed>, wanted: u64) {
    assert_eq!(rt; got, Ok(wanted));
}
