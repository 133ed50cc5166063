//! A round and the clients beside it wait for one another, so that each goes on while the other is held up.
use super::*;
use byte_ports::Gate;
use std::sync::atomic::{AtomicU32, Ordering};
use std::thread;

// How often the round passed and how often the others did, how often these do in all, and how often who was held up saw
// what it waited for.
#[derive(Drop)]
struct Crossing {
    round: AtomicU32,
    clients: AtomicU32,
    passes: u32,
    seen: AtomicU32,
}

impl Crossing {
    // Where so many clients stand beside the round, each with a line.
    fn beside(clients: u32) -> Crossing {
        Crossing {
            round: AtomicU32::new(0),
            clients: AtomicU32::new(0),
            passes: clients.saturating_mul(2),
            seen: AtomicU32::new(0),
        }
    }

    // Waits until that many have passed, for so many turns at most.
    fn wait(&self, passes: &AtomicU32, count: u32) {
        for _ in 0..10_000_000 {
            if passes.load(Ordering::SeqCst) >= count {
                self.seen.fetch_add(1, Ordering::SeqCst);
                return;
            }
            thread::yield_now();
        }
    }
}

// It holds the clients up until the round is at its first call, which is after it has read what it works on, and the round
// there until all clients were answered. The client of the phase before goes through.
impl Gate for Crossing {
    fn pass(&self, actor: u32) {
        match actor {
            0 => {
                self.round.fetch_add(1, Ordering::SeqCst);
                self.wait(&self.clients, self.passes);
            }
            1 => {}
            _ => {
                self.wait(&self.round, 1);
                self.clients.fetch_add(1, Ordering::SeqCst);
            }
        }
    }
}

const WITHIN: &str = r#"{"at":0}
{"client":"c","op":"desire","process":"pc","domain":"apps","instances":1,"memory":64,"disk":128}
{"at":0}
{"client":"a","op":"desire","process":"pa","domain":"apps","instances":1,"memory":64,"disk":128}
{"client":"b","op":"desire","process":"pb","domain":"apps","instances":1,"memory":64,"disk":128}
{"op":"round"}
"#;

// The round has read of `pc` alone, and the others come within it.
const WITHIN_TEXT: &str = r#"{"actor":"c","answer":"ok","call":"desire","line":2,"subject":"pc"}
{"event":"created","row":{"disk":128,"domain":"apps","instances":1,"memory":64,"port":8080,"process":"pc","route":null,"tag":null},"table":"desired"}
{"actor":"a","answer":"ok","call":"desire","line":4,"subject":"pa"}
{"actor":"b","answer":"ok","call":"desire","line":5,"subject":"pb"}
{"asked":0,"complete":false,"foreign":2,"line":6,"lost":0,"op":"round","own":2,"refused":0,"stopped":0,"unplaced":["pc/0"]}
{"event":"created","row":{"disk":128,"domain":"apps","instances":1,"memory":64,"port":8080,"process":"pa","route":null,"tag":null},"table":"desired"}
{"event":"created","row":{"disk":128,"domain":"apps","instances":1,"memory":64,"port":8080,"process":"pb","route":null,"tag":null},"table":"desired"}
{"event":"created","row":{"cell":null,"count":0,"error":false,"index":0,"instance":null,"presence":"ordinary","process":"pc","since":0,"state":"unclaimed"},"table":"actual"}
{"event":"changed","row":{"cell":null,"count":0,"error":true,"index":0,"instance":null,"presence":"ordinary","process":"pc","since":0,"state":"unclaimed"},"table":"actual"}
{"done":5,"doubts":0,"next":5,"phases":2}
"#;

#[test]
fn a_round_and_its_clients_can_wait_for_one_another(rt: HostRuntime) {
    let gate = Crossing::beside(2);
    let disk = disk_of(&rt, rt.alloc(), EMPTY, &[]);
    let left = left_at(&rt, rt.alloc(), "run", WITHIN.as_bytes(), &[], disk, &gate);
    ends(&rt, &left, 0, WITHIN_TEXT);
    assert_eq!(rt; gate.seen.load(Ordering::SeqCst), 6);
}

const ALONE: &str = r#"{"at":0}
{"client":"c","op":"desire","process":"pc","domain":"apps","instances":1,"memory":64,"disk":128}
{"at":0}
{"client":"a","op":"desire","process":"pa","domain":"apps","instances":1,"memory":64,"disk":128}
{"op":"round"}
"#;

const ALONE_TEXT: &str = r#"{"actor":"c","answer":"ok","call":"desire","line":2,"subject":"pc"}
{"event":"created","row":{"disk":128,"domain":"apps","instances":1,"memory":64,"port":8080,"process":"pc","route":null,"tag":null},"table":"desired"}
{"actor":"a","answer":"ok","call":"desire","line":4,"subject":"pa"}
{"asked":0,"complete":false,"foreign":1,"line":5,"lost":0,"op":"round","own":2,"refused":0,"stopped":0,"unplaced":["pc/0"]}
{"event":"created","row":{"disk":128,"domain":"apps","instances":1,"memory":64,"port":8080,"process":"pa","route":null,"tag":null},"table":"desired"}
{"event":"created","row":{"cell":null,"count":0,"error":false,"index":0,"instance":null,"presence":"ordinary","process":"pc","since":0,"state":"unclaimed"},"table":"actual"}
{"event":"changed","row":{"cell":null,"count":0,"error":true,"index":0,"instance":null,"presence":"ordinary","process":"pc","since":0,"state":"unclaimed"},"table":"actual"}
{"done":4,"doubts":0,"next":4,"phases":2}
"#;

#[test]
fn a_round_and_a_single_client_can_wait_for_one_another(rt: HostRuntime) {
    let gate = Crossing::beside(1);
    let disk = disk_of(&rt, rt.alloc(), EMPTY, &[]);
    let left = left_at(&rt, rt.alloc(), "run", ALONE.as_bytes(), &[], disk, &gate);
    ends(&rt, &left, 0, ALONE_TEXT);
    assert_eq!(rt; gate.seen.load(Ordering::SeqCst), 4);
}
