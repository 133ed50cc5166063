//! What becomes of a process beside a round over no cells: where the log has it.
use bbs_model::{Command, Item, Op};
use crash_backoff::Moment;
use diego_names::{Key, Name};
use lrp_records::Desired;
use std::panic::Expect;
use std::process::Abort;

fn name_of(rt: &impl Abort, text: &str) -> Name {
    Name::read(text.as_bytes()).expect(rt, "a name")
}

fn desire(rt: &impl Abort, process: &str) -> Op {
    let desired = Desired {
        process: name_of(rt, process),
        domain: name_of(rt, "apps"),
        instances: 1,
        memory: 64,
        disk: 128,
        tag: None,
        route: None,
        port: 8080,
    };
    Op::Desire { desired }
}

fn first_instance(rt: &impl Abort, process: &str) -> Key {
    Key {
        process: name_of(rt, process),
        index: 0,
    }
}

fn make(rt: &impl Abort, process: &str) -> Op {
    Op::Make {
        key: first_instance(rt, process),
    }
}

fn place_fail(rt: &impl Abort, process: &str) -> Op {
    Op::PlaceFail {
        key: first_instance(rt, process),
    }
}

// Where in the log a caller did this.
fn place_of(log: &[Item], number: u32, op: Op) -> Option<usize> {
    let item = Item::Done(number, Command { now: Moment(0), op });
    log.iter().position(|known| *known == item)
}

/// Where in the log a process is desired, and where a round makes its instance and notes that no cell has room.
#[derive(Clone, Copy)]
pub struct Course {
    pub desired: usize,
    pub made: Option<usize>,
    pub noted: Option<usize>,
}

/// The course of the process that this client desires, in a log.
pub fn course_of(rt: &impl Abort, log: &[Item], client: u32, process: &str) -> Course {
    let desired = place_of(log, client, desire(rt, process)).expect(rt, "it is desired");
    let made = place_of(log, 0, make(rt, process));
    let noted = place_of(log, 0, place_fail(rt, process));
    Course {
        desired,
        made,
        noted,
    }
}

/// The one stands before the other, where both are there.
pub fn is_before(one: Option<usize>, other: Option<usize>) -> bool {
    match (one, other) {
        (Some(one), Some(other)) => one < other,
        _ => true,
    }
}

impl Course {
    /// How many items it has.
    pub fn count(&self) -> usize {
        if self.made.is_some() { 3 } else { 1 }
    }

    /// What is made was desired, and what is made is noted.
    pub fn is_in_order(&self, rt: &impl Abort) {
        assert!(rt; self.made.is_some() == self.noted.is_some());
        assert!(rt; is_before(Some(self.desired), self.made));
        assert!(rt; is_before(self.made, self.noted));
    }

    /// A round that has read of a later process has read of this one.
    pub fn is_read_first(&self, rt: &impl Abort, other: &Course) {
        if self.desired < other.desired && other.made.is_some() {
            assert!(rt; self.made.is_some());
        }
    }
}
