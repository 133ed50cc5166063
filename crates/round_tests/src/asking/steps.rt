//! A counter of steps is made for a call, and is gone after it.
ghost use Rattle.std.specs.Prelude.{◌≡◌, ◌+◌, ◌≤◌, ◌<◌, length};

use convergence::Steps;
use std::marker::Brand;
use std::mem::size_of;
use std::sync::ledger::{Blank, Ledger};

// Sums items, one step for each.
fn sum_of<L: Ledger>(items: &[u32], steps: &mut Steps<L>) -> u64
    requires { length items.now ≤ 1000 }
    ensures { steps.new ≡ steps.old + length items.now }
{
    let mut sum = 0u64;
    for item in items {
        steps.tick();
        sum = sum.wrapping_add(*item as u64);
    }
    sum
}

// A counter that stands at 0 counts the steps of one call.
fn counted<L: Ledger>(blank: Blank, items: &[u32]) -> u64
    requires name { blank.name ≡ L.name }
    requires parts { (blank.parts ≡ L.parts) × (0 < blank.parts) }
    requires few { length items.now ≤ 1000 }
{
    let mut steps = Steps::<L>::new(blank);
    sum_of(items, &mut steps)
}

#[test]
fn a_counter_is_made_for_a_call(rt: HostRuntime) {
    assert_eq!(rt; counted::<Brand>(Blank::new(1), &[1, 2, 3]), 6);
    assert_eq!(rt; size_of::<Steps<Brand>>(), 0);
}
