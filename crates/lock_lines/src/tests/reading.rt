//! Lines of each operation, and blank ones between them.
ghost use Rattle.std.specs.Prelude.{◌≤◌, length};

use super::name;
use crate::{LockLine, read_lock_lines};
use crash_backoff::Moment;
use locket::{LockCommand, LockOp};
use std::alloc::Global;
use std::test::Fail;

// The command of a text of one line.
fn command_in(alloc: Global, text: &[u8]) -> Option<LockCommand>
    requires { length text.now ≤ 1000 }
{
    match read_lock_lines(alloc, text) {
        Ok(lines) => only_command(lines.items()),
        Err(_) => None,
    }
}

fn only_command(lines: &[LockLine]) -> Option<LockCommand> {
    match lines {
        [line] => Some(line.command),
        _ => None,
    }
}

fn asks(command: &Option<LockCommand>, at: u32, op: &LockOp) -> bool {
    match command {
        Some(command) => command.now == Moment(at) && command.op == *op,
        None => false,
    }
}

#[test]
fn each_operation_is_read_with_its_members(rt: HostRuntime) -> Result<(), Fail> {
    let owner = name("bbs-1")?;
    let cases = [
        (
            r#"{"at":7,"op":"acquire","owner":"bbs-1","ttl":15}"#,
            LockOp::Acquire { owner, ttl: 15 },
        ),
        (
            r#" { "ttl" : 15, "fence" : 2, "owner" : "bbs-1", "op" : "renew", "at" : 7 } "#,
            LockOp::Renew {
                owner,
                fence: 2,
                ttl: 15,
            },
        ),
        (
            r#"{"at":7,"op":"release","owner":"bbs-1","fence":0}"#,
            LockOp::Release { owner, fence: 0 },
        ),
        (
            r#"{"at":6,"ttl":1,"at":7,"op":"acquire","owner":"bbs-1","ttl":0}"#,
            LockOp::Acquire { owner, ttl: 0 },
        ),
    ];
    for (text, op) in cases {
        let command = command_in(rt.alloc(), text.as_bytes());
        assert!(rt; asks(&command, 7, &op), "in {text}");
    }
    Ok(())
}

#[test]
fn the_greatest_numbers_are_read(rt: HostRuntime) -> Result<(), Fail> {
    let text =
        br#"{"at":4294967295,"op":"renew","owner":"a","fence":18446744073709551615,"ttl":4294967295}"#;
    let op = LockOp::Renew {
        owner: name("a")?,
        fence: u64::MAX,
        ttl: u32::MAX,
    };
    let command = command_in(rt.alloc(), text);
    assert!(rt; asks(&command, u32::MAX, &op));
    Ok(())
}

fn are_second_and_fifth(lines: &[LockLine]) -> bool {
    match lines {
        [first, second] => first.line == 2 && second.line == 5,
        _ => false,
    }
}

#[test]
fn blank_lines_are_passed_over_and_counted(rt: HostRuntime) {
    let text =
        b"\n{\"at\":0,\"op\":\"acquire\",\"owner\":\"a\",\"ttl\":5}\n \t\r\n\n{\"at\":1,\"op\":\"release\",\"owner\":\"a\",\"fence\":1}";
    match read_lock_lines(rt.alloc(), text) {
        Ok(lines) => assert!(rt; are_second_and_fifth(lines.items())),
        Err(_) => assert!(rt; false, "nothing was read"),
    }
}

#[test]
fn a_script_may_be_empty(rt: HostRuntime) {
    for text in ["", "\n", "\n \n\t"] {
        match read_lock_lines(rt.alloc(), text.as_bytes()) {
            Ok(lines) => assert!(rt; lines.is_empty()),
            Err(_) => assert!(rt; false, "nothing was read"),
        }
    }
}
