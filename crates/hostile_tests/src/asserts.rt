//! Assertions as calls. A branch that ends within a test is dear to prove; here each stands once, over plain values.
ghost use Rattle.std.specs.Prelude.{◌≡◌, true};

use std::process::Abort;

pub fn holds(rt: &impl Abort, it: bool)
    ensures { it ≡ true }
{
    assert!(rt; it);
}

/// The same of a line of a table, by its number or another number that tells it.
pub fn holds_at(rt: &impl Abort, line: u64, it: bool) {
    assert!(rt; it, "at {line}");
}

pub fn is_number(rt: &impl Abort, got: u64, wanted: u64) {
    assert_eq!(rt; got, wanted);
}

pub fn is_number_at(rt: &impl Abort, line: u64, got: u64, wanted: u64) {
    assert_eq!(rt; got, wanted, "at {line}");
}

pub fn are_bytes_at(rt: &impl Abort, line: u64, got: &[u8], wanted: &[u8]) {
    assert_eq!(rt; got, wanted, "at {line}");
}
