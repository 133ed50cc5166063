//! As many lines and actors as there may be, and one more.
use super::*;
use byte_ports::Gate;
use std::alloc::Global;
use std::process::Abort;
use std::sync::atomic::{AtomicU32, Ordering};
use std::thread;

const NOTHING: &str = "{\"done\":0,\"doubts\":0,\"next\":0,\"phases\":0}\n";

// As many bytes as a source may have.
const MOST: usize = 16_777_216;

// A source of so many bytes, all of them this one.
fn source_of(rt: &impl Abort, alloc: Global, byte: u8, count: usize) -> Vec<u8> {
    vec![in alloc; byte; count].expect(rt, "memory")
}

#[test]
fn a_source_of_nothing_but_newlines_is_a_scenario_of_no_phases(rt: HostRuntime) {
    let source = source_of(&rt, rt.alloc(), b'\n', MOST);
    let disk = disk_of(&rt, rt.alloc(), EMPTY, &[]);
    let left = left_by(&rt, rt.alloc(), "run", &source, &[], disk);
    ends(&rt, &left, 0, NOTHING);
    holds(&rt, &left.disk, EMPTY, b"");
}

#[test]
fn a_bad_line_of_100000_bytes_is_told_by_its_number(rt: HostRuntime) {
    let source = source_of(&rt, rt.alloc(), b'x', 100_000);
    let disk = disk_of(&rt, rt.alloc(), EMPTY, &[]);
    let left = left_by(&rt, rt.alloc(), "run", &source, &[], disk);
    ends(&rt, &left, 2, "{\"fault\":\"bad json\",\"line\":1}\n");
}

// The line of a client of that number.
fn line_of(rt: &impl Abort, alloc: Global, actor: u32) -> String {
    format!(in alloc; "{{\"client\":\"{actor}\",\"op\":\"undesire\",\"process\":\"p\"}}\n").expect(
        rt, "memory",
    )
}

// What is told of it at this line.
fn answer_of(rt: &impl Abort, alloc: Global, actor: u32, line: u32) -> String {
    format!(in alloc;
        "{{\"actor\":\"{actor}\",\"answer\":\"refused\",\"call\":\"undesire\",\"line\":{line},\"subject\":\"p\",\"why\":\"unknown\"}}\n"
    ).expect(rt, "memory")
}

// 256 clients, each with a line.
fn crowd(rt: &impl Abort, alloc: Global) -> String {
    let mut scenario = String::new(alloc);
    add(rt, &mut scenario, "{\"at\":0}\n");
    for actor in 0..256u32 {
        add(rt, &mut scenario, line_of(rt, alloc, actor).as_str());
    }
    scenario
}

// What is told of them.
fn answers(rt: &impl Abort, alloc: Global) -> String {
    let mut text = String::new(alloc);
    for actor in 0..256u32 {
        add(
            rt,
            &mut text,
            answer_of(rt, alloc, actor, actor + 2).as_str(),
        );
    }
    add(
        rt,
        &mut text,
        "{\"done\":0,\"doubts\":0,\"next\":0,\"phases\":1}\n",
    );
    text
}

// How often actors passed, and how often one saw that all had come.
#[derive(Drop)]
struct Gathering {
    passes: AtomicU32,
    seen: AtomicU32,
}

// It holds each actor until the last one has come, for so many turns at most.
impl Gate for Gathering {
    fn pass(&self, _actor: u32) {
        self.passes.fetch_add(1, Ordering::SeqCst);
        for _ in 0..1_000_000 {
            if self.passes.load(Ordering::SeqCst) >= 256 {
                self.seen.fetch_add(1, Ordering::SeqCst);
                return;
            }
            thread::yield_now();
        }
    }
}

#[test]
fn the_first_of_256_actors_can_wait_until_the_last_has_come(rt: HostRuntime) {
    let gate = Gathering {
        passes: AtomicU32::new(0),
        seen: AtomicU32::new(0),
    };
    let scenario = crowd(&rt, rt.alloc());
    let text = answers(&rt, rt.alloc());
    let disk = disk_of(&rt, rt.alloc(), EMPTY, &[]);
    let left = left_at(
        &rt,
        rt.alloc(),
        "run",
        scenario.as_bytes(),
        &[],
        disk,
        &gate,
    );
    ends(&rt, &left, 0, text.as_str());
    assert_eq!(rt; gate.seen.load(Ordering::SeqCst), 512);
}

#[test]
fn there_is_no_257th_actor(rt: HostRuntime) {
    let mut scenario = crowd(&rt, rt.alloc());
    add(&rt, &mut scenario, "{\"cell\":\"0\",\"op\":\"die\"}\n");
    let disk = disk_of(&rt, rt.alloc(), EMPTY, &[]);
    let left = left_by(&rt, rt.alloc(), "run", scenario.as_bytes(), &[], disk);
    ends(&rt, &left, 2, "{\"fault\":\"too much\",\"line\":258}\n");
}
