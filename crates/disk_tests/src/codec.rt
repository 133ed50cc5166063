//! What no clause says of commands: their bytes, written out by hand.
mod faults;
mod spellings;

use bbs_codec::{CodecFault, read_command, write_command};
use bbs_model::{Command, Op};
use crash_backoff::Moment;
use diego_names::Instance;
use std::process::Abort;

const INSTANCE: Instance = Instance {
    epoch: 258,
    number: 9,
};

// What is read of these bytes of a command in an area of version 1, which has no kinds above 25.
fn in_old_area(command: Command, bytes: &[u8]) -> Result<Command, CodecFault> {
    match bytes.first() {
        Some(kind) if *kind > 25 => Err(CodecFault::BadKind { at: 0 }),
        _ => Ok(command),
    }
}

// Whether the operation, at second 9, is written as these bytes and no more, and read back: in version
// 2, and in version 1 if that has its kind.
fn is_spelled(op: Op, bytes: &[u8]) -> bool {
    let command = Command { now: Moment(9), op };
    let mut out = [7; 512];
    let len = write_command(&mut out, &command);
    if out[len] != 7 || &out[..len] != bytes {
        return false;
    }
    read_command(bytes, 2) == Ok(command) && read_command(bytes, 1) == in_old_area(command, bytes)
}

fn spells(rt: &impl Abort, op: Op, bytes: &[u8]) {
    assert!(rt; is_spelled(op, bytes), "{bytes:?}");
}
