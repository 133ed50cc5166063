//! The faults, and which of several counts.
ghost use Rattle.std.specs.Prelude.{◌≤◌, length};

use scenario_reader::{ScriptFault, read_script};
use std::test::Fail;

fn fault_of(rt: &HostRuntime, text: &[u8]) -> Option<ScriptFault>
    requires { length text.now ≤ 1000 }
{
    match read_script(rt.alloc(), text) {
        Ok(_script) => None,
        Err(fault) => Some(fault),
    }
}

#[test]
fn each_fault_is_found_in_its_line(rt: HostRuntime) -> Result<(), Fail> {
    let cases = [
        ("{\"at\":0}\n\n{", ScriptFault::BadJson { line: 3 }),
        ("{\"at\":0}\n[0]", ScriptFault::BadShape { line: 2 }),
        (
            "{\"at\":0}\n{\"at\":1,\"op\":\"round\"}",
            ScriptFault::BadShape { line: 2 },
        ),
        (
            "{\"at\":0}\n{\"cell\":\"\",\"op\":\"die\"}",
            ScriptFault::BadName { line: 2 },
        ),
        ("{\"op\":\"round\"}", ScriptFault::BadOrder { line: 1 }),
        (
            "{\"cell\":\"c\",\"op\":\"die\"}",
            ScriptFault::BadOrder { line: 1 },
        ),
        ("{\"at\":5}\n{\"at\":4}", ScriptFault::BadOrder { line: 2 }),
        (
            "{\"at\":0}\n{\"op\":\"round\"}\n{\"op\":\"round\"}",
            ScriptFault::BadOrder { line: 3 },
        ),
        (
            "{\"at\":0}\n{\"op\":\"round\"}\n{\"cell\":\"c\",\"op\":\"die\"}",
            ScriptFault::BadOrder { line: 3 },
        ),
        (
            "{\"at\":0}\n{\"cell\":\"c\",\"op\":\"die\"}\n{\"op\":\"round\"}",
            ScriptFault::BadOrder { line: 3 },
        ),
    ];
    for (text, fault) in cases {
        assert!(rt; fault_of(&rt, text.as_bytes()) == Some(fault), "in {text}");
    }
    Ok(())
}

#[test]
fn of_two_faults_of_a_line_the_first_counts(rt: HostRuntime) -> Result<(), Fail> {
    let cases = [
        (
            "{\"cell\":\"\",\"op\":\"fly\"",
            ScriptFault::BadJson { line: 1 },
        ),
        (
            "{\"cell\":\"\",\"op\":\"fly\"}",
            ScriptFault::BadShape { line: 1 },
        ),
        (
            "{\"cell\":\"\",\"op\":\"die\"}",
            ScriptFault::BadName { line: 1 },
        ),
        ("{", ScriptFault::BadJson { line: 1 }),
        (
            "{\"cell\":\"c\",\"op\":\"fly\"}",
            ScriptFault::BadShape { line: 1 },
        ),
        (
            "{\"at\":0}\n{\"op\":\"round\",\"lose_ask\":[\"\"]}\n{",
            ScriptFault::BadName { line: 2 },
        ),
    ];
    for (text, fault) in cases {
        assert!(rt; fault_of(&rt, text.as_bytes()) == Some(fault), "in {text}");
    }
    Ok(())
}

#[test]
fn bytes_that_are_no_text_are_bad_json(rt: HostRuntime) {
    let bytes = b"{\"at\":0}\n{\"cell\":\"\xff\",\"op\":\"die\"}";
    assert!(rt; fault_of(&rt, bytes) == Some(ScriptFault::BadJson { line: 2 }));
}
