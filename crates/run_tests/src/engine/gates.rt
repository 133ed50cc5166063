//! That an actor is held up at its gate before its call and behind its last line, and nobody else
//! anywhere.
use super::bytes::first_run;
use super::left_at;
use crate::given::{Given, Runtime};
use byte_ports::Gate;
use std::alloc::Global;
use std::process::Abort;
use std::sync::atomic::{AtomicU32, Ordering};

// It counts how often it was passed, and keeps who passed last.
#[derive(Drop)]
struct Counting {
    passes: AtomicU32,
    last: AtomicU32,
}

impl Gate for Counting {
    fn pass(&self, actor: u32) {
        self.passes.fetch_add(1, Ordering::SeqCst);
        self.last.store(actor, Ordering::SeqCst);
    }
}

// It was passed so often, and last by this actor.
fn was_passed(rt: &impl Abort, gate: &Counting, passes: u32, last: u32) {
    assert_eq!(rt; gate.passes.load(Ordering::SeqCst), passes);
    assert_eq!(rt; gate.last.load(Ordering::SeqCst), last);
}

// The status of a word at this gate.
fn status_at(
    rt: &impl Runtime,
    alloc: Global,
    word: &str,
    given: &Given<'_>,
    gate: &Counting,
) -> u8 {
    left_at(rt, alloc, &["diego_run", word], given, gate).status
}

fn passes(
    rt: &impl Runtime,
    alloc: Global,
    word: &str,
    given: &Given<'_>,
    status: u8,
    passes: u32,
    last: u32,
) {
    let gate = Counting {
        passes: AtomicU32::new(0),
        last: AtomicU32::new(0),
    };
    let ended = status_at(rt, alloc, word, given, &gate);
    was_passed(rt, &gate, passes, last);
    assert_eq!(rt; ended, status);
}

#[test]
fn a_run_passes_its_gate_before_its_call_and_behind_its_answer(rt: HostRuntime) {
    let whole = first_run();
    let no_board = Given { a: &[], ..whole };
    let no_script = Given {
        source: b"{}",
        ..whole
    };
    passes(&rt, rt.alloc(), "run", &whole, 0, 2, 1);
    passes(&rt, rt.alloc(), "run", &no_board, 6, 0, 0);
    passes(&rt, rt.alloc(), "run", &no_script, 2, 0, 0);
    passes(&rt, rt.alloc(), "prepare", &no_board, 0, 0, 0);
}
