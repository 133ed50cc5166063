//! Actors at the same time: what holds whatever the order is, that the log tells the order, and that one of them can
//! wait for another.
use super::together::number_of;
use super::*;
use bbs_model::{Item, Op};
use byte_ports::Gate;
use std::alloc::Global;
use std::process::Abort;
use std::sync::atomic::{AtomicU32, Ordering};
use std::thread;

// Each of two clients makes a process and then changes it, and it is the same one.
const RACE: &str = r#"{"at":0}
{"client":"a","op":"desire","process":"web","domain":"apps","instances":1,"memory":64,"disk":128}
{"client":"a","op":"update","process":"web","instances":3}
{"client":"b","op":"desire","process":"web","domain":"apps","instances":2,"memory":64,"disk":128}
{"client":"b","op":"update","process":"web","instances":4}
"#;

// What is told of the lines where the first client made it, and where the second did.
const FIRST_MADE: &str = r#"{"actor":"a","answer":"ok","call":"desire","line":2,"subject":"web"}
{"actor":"a","answer":"ok","call":"update","line":3,"subject":"web"}
{"actor":"b","answer":"refused","call":"desire","line":4,"subject":"web","why":"exists"}
{"actor":"b","answer":"ok","call":"update","line":5,"subject":"web"}
"#;

const SECOND_MADE: &str =
    r#"{"actor":"a","answer":"refused","call":"desire","line":2,"subject":"web","why":"exists"}
{"actor":"a","answer":"ok","call":"update","line":3,"subject":"web"}
{"actor":"b","answer":"ok","call":"desire","line":4,"subject":"web"}
{"actor":"b","answer":"ok","call":"update","line":5,"subject":"web"}
"#;

/// How many instances an item asks for, and whether it makes the process.
pub fn wish_of(item: &Item) -> (u32, bool) {
    let command = match item {
        Item::Done(_, command) | Item::Doubt(_, command) => command,
    };
    match command.op {
        Op::Desire { desired } => (desired.instances, true),
        Op::Update { instances, .. } => (instances, false),
        _ => (0, false),
    }
}

// It is the change of the process that the client of its number asks for.
fn is_change(rt: &impl Abort, item: &Item) {
    assert!(rt; wish_of(item) == (number_of(item).saturating_add(2), false));
}

// The log is a shuffle of what the two clients do: one makes the process, and then each changes it.
fn is_shuffle(rt: &impl Abort, log: &[Item]) {
    assert!(rt; log.len() == 3);
    assert!(rt; wish_of(&log[0]) == (number_of(&log[0]), true));
    is_change(rt, &log[1]);
    is_change(rt, &log[2]);
    assert!(rt; number_of(&log[1]) != number_of(&log[2]));
}

// The event of an item.
fn event_of(rt: &impl Abort, alloc: Global, item: &Item) -> String {
    let (instances, made) = wish_of(item);
    let event = if made { "created" } else { "changed" };
    format!(in alloc;
        "{{\"event\":\"{event}\",\"row\":{{\"disk\":128,\"domain\":\"apps\",\"instances\":{instances},\"memory\":64,\"port\":8080,\"process\":\"web\",\"route\":null,\"tag\":null}},\"table\":\"desired\"}}\n"
    ).expect(rt, "memory")
}

// The text of the run whose log is this.
fn text_of_order(rt: &impl Abort, alloc: Global, log: &[Item]) -> String {
    let mut text = String::new(alloc);
    let told = match log.first() {
        Some(item) if number_of(item) == 1 => FIRST_MADE,
        _ => SECOND_MADE,
    };
    text.push_str(told).expect(rt, "memory");
    for item in log {
        text.push_str(event_of(rt, alloc, item).as_str())
            .expect(rt, "memory");
    }
    let done = "{\"done\":3,\"doubts\":0,\"next\":3,\"phases\":1}\n";
    text.push_str(done).expect(rt, "memory");
    text
}

#[test]
fn the_log_is_a_shuffle_of_what_the_actors_do_and_the_text_is_that_of_its_order(rt: HostRuntime) {
    let disk = disk_of(&rt, rt.alloc(), EMPTY, &[]);
    let left = left_by(&rt, rt.alloc(), "run", RACE.as_bytes(), &[], disk);
    is_shuffle(&rt, &left.log);
    let text = text_of_order(&rt, rt.alloc(), &left.log);
    ends(&rt, &left, 0, text.as_str());
}

// How often the second actor passed, and how often the first saw that it had passed twice; and the turns of waiting.
#[derive(Drop)]
struct Waiting {
    second: AtomicU32,
    seen: AtomicU32,
    turns: AtomicU32,
}

// It holds the first actor until the second has passed twice, before its call and behind its answer, for so many turns at
// most.
impl Gate for Waiting {
    fn pass(&self, actor: u32) {
        if actor != 1 {
            self.second.fetch_add(1, Ordering::SeqCst);
            return;
        }
        for _ in 0..10_000_000 {
            if self.second.load(Ordering::SeqCst) > 1 {
                self.seen.fetch_add(1, Ordering::SeqCst);
                return;
            }
            self.turns.fetch_add(1, Ordering::SeqCst);
            thread::yield_now();
        }
    }
}

const TWO_CLIENTS: &str = r#"{"at":0}
{"client":"a","op":"desire","process":"pa","domain":"apps","instances":1,"memory":64,"disk":128}
{"client":"b","op":"desire","process":"pb","domain":"apps","instances":1,"memory":64,"disk":128}
"#;

const BOTH_MADE: &str = r#"{"actor":"a","answer":"ok","call":"desire","line":2,"subject":"pa"}
{"actor":"b","answer":"ok","call":"desire","line":3,"subject":"pb"}
{"event":"created","row":{"disk":128,"domain":"apps","instances":1,"memory":64,"port":8080,"process":"pa","route":null,"tag":null},"table":"desired"}
{"event":"created","row":{"disk":128,"domain":"apps","instances":1,"memory":64,"port":8080,"process":"pb","route":null,"tag":null},"table":"desired"}
{"done":2,"doubts":0,"next":2,"phases":1}
"#;

// The second client's item stands before the first one's.
fn second_came_first(rt: &impl Abort, log: &[Item]) {
    assert!(rt; log.len() == 2);
    assert!(rt; number_of(&log[0]) == 2 && number_of(&log[1]) == 1);
}

#[test]
fn the_first_actor_can_wait_until_the_second_was_answered(rt: HostRuntime) {
    let gate = Waiting {
        second: AtomicU32::new(0),
        seen: AtomicU32::new(0),
        turns: AtomicU32::new(0),
    };
    let disk = disk_of(&rt, rt.alloc(), EMPTY, &[]);
    let left = left_at(
        &rt,
        rt.alloc(),
        "run",
        TWO_CLIENTS.as_bytes(),
        &[],
        disk,
        &gate,
    );
    ends(&rt, &left, 0, BOTH_MADE);
    assert_eq!(rt; gate.seen.load(Ordering::SeqCst), 2);
    second_came_first(&rt, &left.log);
}

// How often either actor passed, and how often one that was held up saw what it waited for.
#[derive(Drop)]
struct Leaps {
    first: AtomicU32,
    second: AtomicU32,
    seen: AtomicU32,
}

impl Leaps {
    // Waits until that many have passed, for so many turns at most.
    fn wait(&self, passes: &AtomicU32, count: u32) {
        for _ in 0..10_000_000 {
            if passes.load(Ordering::SeqCst) >= count {
                self.seen.fetch_add(1, Ordering::SeqCst);
                return;
            }
            thread::yield_now();
        }
    }
}

// An actor passes before each call and behind its last answer. The first one's second call waits until the second one's
// second was answered, whose third waits until the first one's second was.
impl Gate for Leaps {
    fn pass(&self, actor: u32) {
        if actor == 1 {
            if self.first.fetch_add(1, Ordering::SeqCst) == 1 {
                self.wait(&self.second, 3);
            }
        } else if self.second.fetch_add(1, Ordering::SeqCst) == 2 {
            self.wait(&self.first, 3);
        }
    }
}

// Two clients of three lines each. None of them makes an item, so the text is the same in each order.
const THREE_LINES: &str = r#"{"at":0}
{"client":"a","op":"undesire","process":"p"}
{"client":"a","op":"undesire","process":"p"}
{"client":"a","op":"undesire","process":"p"}
{"client":"b","op":"undesire","process":"p"}
{"client":"b","op":"undesire","process":"p"}
{"client":"b","op":"undesire","process":"p"}
"#;

const ALL_REFUSED: &str =
    r#"{"actor":"a","answer":"refused","call":"undesire","line":2,"subject":"p","why":"unknown"}
{"actor":"a","answer":"refused","call":"undesire","line":3,"subject":"p","why":"unknown"}
{"actor":"a","answer":"refused","call":"undesire","line":4,"subject":"p","why":"unknown"}
{"actor":"b","answer":"refused","call":"undesire","line":5,"subject":"p","why":"unknown"}
{"actor":"b","answer":"refused","call":"undesire","line":6,"subject":"p","why":"unknown"}
{"actor":"b","answer":"refused","call":"undesire","line":7,"subject":"p","why":"unknown"}
{"done":0,"doubts":0,"next":0,"phases":1}
"#;

#[test]
fn actors_overtake_one_another_from_line_to_line(rt: HostRuntime) {
    let gate = Leaps {
        first: AtomicU32::new(0),
        second: AtomicU32::new(0),
        seen: AtomicU32::new(0),
    };
    let disk = disk_of(&rt, rt.alloc(), EMPTY, &[]);
    let left = left_at(
        &rt,
        rt.alloc(),
        "run",
        THREE_LINES.as_bytes(),
        &[],
        disk,
        &gate,
    );
    ends(&rt, &left, 0, ALL_REFUSED);
    assert_eq!(rt; gate.seen.load(Ordering::SeqCst), 2);
}
