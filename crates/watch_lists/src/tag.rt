//! Keys that a test tells apart.
ghost use Rattle.std.specs.Prelude.{◌≡◌, true};
ghost use Rattle.std.proofs.Common.{rules};
ghost use Rattle.std.proofs.lemmas.Bool.{eqb-true};

use diego_names::{Key, Name};
use lrp_records::Presence;
use std::hash::Hash;
use work_causes::Cause;

/// A key by which something is found: only equal ones pass the test.
pub trait Tag: Copy + Eq + Hash {
    // Only equal keys pass the test.
    ghost exact: { (a b : Self) → Self.eq a b ≡ true → a ≡ b };
}

impl Tag for u64 {
    ghost exact = { eqb-true };
}

impl Tag for Name {
    ghost exact = { Prim.search (rules) };
}

impl Tag for Cause {
    ghost exact = { Prim.search (rules) };
}

impl Tag for (Key, Presence) {
    ghost exact = { Prim.search (rules) };
}
