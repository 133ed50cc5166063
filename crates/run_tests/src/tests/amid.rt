//! A fault of the disk amid a phase of eight actors: it is the last one, and each actor knows its own.
use super::at_once::wish_of;
use super::failing::opens;
use super::together::number_of;
use super::*;
use bbs_model::{CallFault, Item, Reply};
use cell_rep::CallEnd;
use scenario_lines::Answered;
use std::alloc::Global;
use std::process::Abort;

// Eight clients with a process each, and a phase behind them.
const EIGHT: &str = r#"{"at":0}
{"client":"1","op":"desire","process":"p1","domain":"d","instances":1,"memory":64,"disk":128}
{"client":"2","op":"desire","process":"p2","domain":"d","instances":2,"memory":64,"disk":128}
{"client":"3","op":"desire","process":"p3","domain":"d","instances":3,"memory":64,"disk":128}
{"client":"4","op":"desire","process":"p4","domain":"d","instances":4,"memory":64,"disk":128}
{"client":"5","op":"desire","process":"p5","domain":"d","instances":5,"memory":64,"disk":128}
{"client":"6","op":"desire","process":"p6","domain":"d","instances":6,"memory":64,"disk":128}
{"client":"7","op":"desire","process":"p7","domain":"d","instances":7,"memory":64,"disk":128}
{"client":"8","op":"desire","process":"p8","domain":"d","instances":8,"memory":64,"disk":128}
{"at":1}
{"client":"1","op":"undesire","process":"p1"}
"#;

// The place of the item that an answer tells of, and whether that is done or in doubt.
fn told_by(answered: &Answered) -> Option<(u64, bool)> {
    match answered.end {
        CallEnd::Got(Reply::Ok { place, .. }) => Some((place, true)),
        CallEnd::Fault(CallFault::Disk { place }) => Some((place, false)),
        _ => None,
    }
}

// Whether an item is done.
fn is_done(item: &Item) -> bool {
    matches!(item, Item::Done(..))
}

// The answer's item stands at its place, is the actor's own and its wish, and done or in doubt as it was answered.
fn agrees(rt: &impl Abort, log: &[Item], answered: &Answered) {
    let (place, done) = told_by(answered).expect(rt, "an item was made");
    let item = log.get(place as usize).expect(rt, "it stands in the log");
    assert!(rt; number_of(item) == answered.actor);
    assert!(rt; wish_of(item) == (answered.actor, true));
    assert!(rt; is_done(item) == done);
}

// Each actor was answered at its line, and has its item.
fn all_agree(rt: &impl Abort, left: &Left) {
    assert!(rt; left.answers.len() == 8);
    for (at, answered) in left.answers.iter().enumerate() {
        assert!(rt; answered.actor as usize == at.saturating_add(1));
        assert!(rt; answered.line as usize == at.saturating_add(2));
        agrees(rt, &left.log, answered);
    }
}

// Whose item is in doubt, of which there is one.
fn doubtful(rt: &impl Abort, log: &[Item]) -> u32 {
    let mut number = 0;
    for item in log {
        if !is_done(item) {
            assert!(rt; number == 0);
            number = number_of(item);
        }
    }
    number
}

// What is told of the line of a client whose number stands in its process's name.
fn answer_text(rt: &impl Abort, alloc: Global, actor: u32, answer: &str) -> String {
    let line = actor.saturating_add(1);
    format!(in alloc;
        "{{\"actor\":\"{actor}\",\"answer\":\"{answer}\",\"call\":\"desire\",\"line\":{line},\"subject\":\"p{actor}\"}}\n"
    ).expect(rt, "memory")
}

// The event of what it asks for.
fn created_text(rt: &impl Abort, alloc: Global, actor: u32) -> String {
    format!(in alloc;
        "{{\"event\":\"created\",\"row\":{{\"disk\":128,\"domain\":\"d\",\"instances\":{actor},\"memory\":64,\"port\":8080,\"process\":\"p{actor}\",\"route\":null,\"tag\":null}},\"table\":\"desired\"}}\n"
    ).expect(rt, "memory")
}

// The text of the run in which this client's item is in doubt.
fn text_but_for(rt: &impl Abort, alloc: Global, doubtful: u32) -> String {
    let mut text = String::new(alloc);
    for actor in 1..9u32 {
        let answer = if actor == doubtful { "disk" } else { "ok" };
        add(
            rt,
            &mut text,
            answer_text(rt, alloc, actor, answer).as_str(),
        );
    }
    for actor in 1..9u32 {
        if actor != doubtful {
            add(rt, &mut text, created_text(rt, alloc, actor).as_str());
        }
    }
    add(
        rt,
        &mut text,
        "{\"done\":7,\"doubts\":1,\"next\":7,\"phases\":1}\n",
    );
    text
}

// A device call of the append in the middle of the phase fails.
fn fails_in_the_middle(rt: &impl Runtime, alloc: Global, failing: u64) {
    let disk = disk_of(rt, alloc, EMPTY, &[failing]);
    let left = left_by(rt, alloc, "run", EIGHT.as_bytes(), &[], disk);
    all_agree(rt, &left);
    assert!(rt; left.log.len() == 8);
    assert!(rt; !is_done(&left.log[3]));
    let text = text_but_for(rt, alloc, doubtful(rt, &left.log));
    ends(rt, &left, 5, text.as_str());
    opens(rt, alloc, left.disk, 7);
}

#[test]
fn a_disk_fault_amid_eight_actors_makes_their_phase_the_last_and_each_knows_its_own(
    rt: HostRuntime,
) {
    for failing in 20..24u64 {
        fails_in_the_middle(&rt, rt.alloc(), failing);
    }
}
