//! What a stop within each device call of the append leaves of the gate.
use super::bytes::first_run;
use super::run;
use crate::given::STORED;
use disk_trait::{Disk, MemoryDisk, Torn};
use std::alloc::Global;
use std::panic::Expect;
use std::process::Abort;

// What a stop left: the gate, the frame behind it where the gate is open, and nothing in area B.
fn is_left(rt: &impl Abort, a: &[u8], b: &[u8], gate: u8, call: u64) {
    assert_eq!(rt; a.get(51).copied(), Some(gate), "at call {call}");
    if gate != 0 {
        assert_eq!(rt; a.get(52..), STORED.get(52..), "at call {call}");
    }
    assert!(rt; b.is_empty());
}

fn leaves(rt: &impl Abort, alloc: Global, disk: &MemoryDisk, call: u64, torn: Torn, gate: u8) {
    assert!(rt; call <= disk.clock());
    let (a, b) = disk.image(alloc, call, torn).expect(rt, "memory");
    is_left(rt, &a, &b, gate, call);
}

// The body, its sync, the gate, its sync. A byte of 7 is an open gate, too.
fn each_leaves(rt: &impl Abort, alloc: Global, disk: &MemoryDisk) {
    for (call, torn, gate) in [
        (8, Torn::Old, 0u8),
        (8, Torn::New, 0),
        (8, Torn::Byte(7), 0),
        (9, Torn::Byte(7), 0),
        (10, Torn::Old, 0),
        (10, Torn::New, 1),
        (10, Torn::Byte(7), 7),
        (11, Torn::Byte(0), 0),
        (11, Torn::New, 1),
    ] {
        leaves(rt, alloc, disk, call, torn, gate);
    }
}

#[test]
fn a_stop_within_an_append_leaves_the_gate_closed_or_a_whole_frame(rt: HostRuntime) {
    let left = run(&rt, rt.alloc(), &first_run());
    each_leaves(&rt, rt.alloc(), &left.disk);
}
