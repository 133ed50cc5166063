//! Who passes the gate, and when: each caller before each of its calls of the board, an actor once more behind the last
//! line that it has in a phase, and nobody else.
use super::*;
use byte_ports::Gate;
use std::alloc::Global;
use std::sync::atomic::{AtomicU32, AtomicU64, Ordering};

// It keeps who passed, one after another, as the digits of a number.
#[derive(Drop)]
struct Digits {
    number: AtomicU64,
    count: AtomicU32,
}

impl Gate for Digits {
    fn pass(&self, actor: u32) {
        let number = self.number.load(Ordering::SeqCst).wrapping_mul(10);
        let number = number.wrapping_add(u64::from(actor));
        self.number.store(number, Ordering::SeqCst);
        self.count.fetch_add(1, Ordering::SeqCst);
    }
}

// These pass the gate in a run of the scenario, one after another. Each of its phases has one actor.
fn pass(rt: &impl Runtime, alloc: Global, scenario: &str, count: u32, number: u64) {
    let gate = Digits {
        number: AtomicU64::new(0),
        count: AtomicU32::new(0),
    };
    let disk = disk_of(rt, alloc, EMPTY, &[]);
    let left = left_at(rt, alloc, "run", scenario.as_bytes(), &[], disk, &gate);
    assert_eq!(rt; left.status, 0);
    assert_eq!(rt; gate.count.load(Ordering::SeqCst), count);
    assert_eq!(rt; gate.number.load(Ordering::SeqCst), number);
}

// Two cells join, a client desires, each in a phase of its own, and a round makes three rows and claims them.
#[test]
fn a_round_passes_the_gate_before_each_of_its_calls(rt: HostRuntime) {
    pass(
        &rt,
        rt.alloc(),
        r#"{"at":0}
{"cell":"c1","op":"join","zone":"z1","memory":1024,"disk":4096,"containers":10,"ttl":600}
{"at":0}
{"cell":"c2","op":"join","zone":"z2","memory":1024,"disk":4096,"containers":10,"ttl":600}
{"at":0}
{"client":"cli","op":"desire","process":"web","domain":"apps","instances":3,"memory":64,"disk":128}
{"at":1}
{"op":"round"}
"#,
        12,
        112_233_000_000,
    );
}

// A refusal is a call, and so is one whose reply is lost. A rep that is down makes none, nor does one
// that has nothing to do; behind its last line of a phase each actor passes once more.
#[test]
fn an_actor_passes_the_gate_before_each_call_and_behind_its_last_line(rt: HostRuntime) {
    pass(
        &rt,
        rt.alloc(),
        r#"{"at":0}
{"client":"cli","op":"desire","process":"web","domain":"apps","instances":1,"memory":64,"disk":128}
{"client":"cli","op":"update","process":"web","instances":1}
{"client":"cli","op":"undesire","process":"api"}
{"at":0}
{"cell":"c1","op":"up"}
{"cell":"c1","op":"join","zone":"z1","memory":1024,"disk":4096,"containers":10,"ttl":600}
{"cell":"c1","op":"up"}
{"cell":"c1","op":"claim","name":"job","memory":64,"disk":64}
{"at":1}
{"op":"round"}
{"at":1}
{"client":"cli","op":"cancel","name":"job","lost":"reply","times":2}
{"at":2}
{"cell":"c1","op":"evacuate"}
{"at":3}
{"cell":"c1","op":"settle"}
"#,
        16,
        1_111_222_001_112_222,
    );
}
