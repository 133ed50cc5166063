//! The faults of one line, and which of several counts.
ghost use Rattle.std.specs.Prelude.{◌≤◌, length};

use crate::read_lock_lines;
use scenario_reader::ScriptFault;
use std::alloc::Global;

fn fault_of(alloc: Global, text: &[u8]) -> Option<ScriptFault>
    requires { length text.now ≤ 1000 }
{
    match read_lock_lines(alloc, text) {
        Ok(_) => None,
        Err(fault) => Some(fault),
    }
}

#[test]
fn what_is_no_json_is_refused(rt: HostRuntime) {
    let cases = ["{", "nul", "{} {}", "{\"at\":1e309}", "{\"at\":01}"];
    for text in cases {
        let fault = Some(ScriptFault::BadJson { line: 1 });
        assert!(rt; fault_of(rt.alloc(), text.as_bytes()) == fault, "in {text}");
    }
    let bytes = b"{\"at\":0,\"op\":\"acquire\",\"owner\":\"\xff\",\"ttl\":1}";
    assert!(rt; fault_of(rt.alloc(), bytes) == Some(ScriptFault::BadJson { line: 1 }));
}

#[test]
fn a_member_that_is_missing_or_one_too_many_is_refused(rt: HostRuntime) {
    let cases = [
        "null",
        "[]",
        "{}",
        r#"{"at":0}"#,
        r#"{"op":"acquire","owner":"a","ttl":1}"#,
        r#"{"at":0,"owner":"a","ttl":1}"#,
        r#"{"at":0,"op":"acquire","ttl":1}"#,
        r#"{"at":0,"op":"acquire","owner":"a"}"#,
        r#"{"at":0,"op":"renew","owner":"a","ttl":1}"#,
        r#"{"at":0,"op":"renew","owner":"a","fence":1}"#,
        r#"{"at":0,"op":"release","owner":"a"}"#,
        r#"{"at":0,"op":"acquire","owner":"a","ttl":1,"fence":1}"#,
        r#"{"at":0,"op":"release","owner":"a","fence":1,"ttl":1}"#,
        r#"{"at":0,"op":"acquire","owner":"a","ttl":1,"times":2}"#,
    ];
    for text in cases {
        let fault = Some(ScriptFault::BadShape { line: 1 });
        assert!(rt; fault_of(rt.alloc(), text.as_bytes()) == fault, "in {text}");
    }
}

#[test]
fn a_member_of_another_kind_is_refused(rt: HostRuntime) {
    let cases = [
        r#"{"at":4294967296,"op":"acquire","owner":"a","ttl":1}"#,
        r#"{"at":-1,"op":"acquire","owner":"a","ttl":1}"#,
        r#"{"at":"0","op":"acquire","owner":"a","ttl":1}"#,
        r#"{"at":0,"op":"lock","owner":"a","ttl":1}"#,
        r#"{"at":0,"op":"Acquire","owner":"a","ttl":1}"#,
        r#"{"at":0,"op":1,"owner":"a","ttl":1}"#,
        r#"{"at":0,"op":"acquire","owner":7,"ttl":1}"#,
        r#"{"at":0,"op":"acquire","owner":"a","ttl":4294967296}"#,
        r#"{"at":0,"op":"acquire","owner":"a","ttl":1.0}"#,
        r#"{"at":0,"op":"acquire","owner":"a","ttl":null}"#,
        r#"{"at":0,"op":"release","owner":"a","fence":18446744073709551616}"#,
        r#"{"at":0,"op":"release","owner":"a","fence":-1}"#,
        r#"{"at":0,"op":"renew","owner":"a","fence":"1","ttl":1}"#,
    ];
    for text in cases {
        let fault = Some(ScriptFault::BadShape { line: 1 });
        assert!(rt; fault_of(rt.alloc(), text.as_bytes()) == fault, "in {text}");
    }
}

#[test]
fn an_owner_that_is_no_name_is_refused(rt: HostRuntime) {
    let cases = [
        r#"{"at":0,"op":"acquire","owner":"","ttl":1}"#,
        r#"{"at":0,"op":"renew","owner":"a b","fence":1,"ttl":1}"#,
        r#"{"at":0,"op":"release","owner":"a/b","fence":1}"#,
        r#"{"at":0,"op":"acquire","owner":"xxxxxxxxxxxxxxxxxxxxxxxxxxxxxxxxxxxxxxxxxxxxxxxxxxxxxxxxxxxxxxxxxxxxxxxxxxxxxxxxx","ttl":1}"#,
    ];
    for text in cases {
        let fault = Some(ScriptFault::BadName { line: 1 });
        assert!(rt; fault_of(rt.alloc(), text.as_bytes()) == fault, "in {text}");
    }
}

#[test]
fn of_two_faults_the_first_counts(rt: HostRuntime) {
    let cases = [
        (
            r#"{"at":0,"op":"lock","owner":"a","ttl":1"#,
            ScriptFault::BadJson { line: 1 },
        ),
        (
            r#"{"at":0,"op":"acquire","owner":"a b","ttl":1"#,
            ScriptFault::BadJson { line: 1 },
        ),
        (
            r#"{"owner":"a b","op":"acquire","ttl":1}"#,
            ScriptFault::BadShape { line: 1 },
        ),
        (
            r#"{"at":0,"owner":"","op":"acquire","ttl":4294967296}"#,
            ScriptFault::BadShape { line: 1 },
        ),
        (
            r#"{"at":0,"owner":"a b","op":"release","fence":1,"ttl":1}"#,
            ScriptFault::BadShape { line: 1 },
        ),
        (
            "\n{\"at\":0,\"op\":\"acquire\",\"owner\":\"a b\",\"ttl\":1}\n{",
            ScriptFault::BadName { line: 2 },
        ),
        (
            "{\"at\":0,\"op\":\"release\",\"owner\":\"a\",\"fence\":1}\n[]\n{",
            ScriptFault::BadShape { line: 2 },
        ),
    ];
    for (text, fault) in cases {
        assert!(rt;
            fault_of(rt.alloc(), text.as_bytes()) == Some(fault),
            "in {text}"
        );
    }
}
