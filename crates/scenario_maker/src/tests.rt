//! Scenarios of three numbers, beside what another program makes of them.
use crate::generate;
use std::test::Fail;

/// A number, how many bytes its scenario has, the line of its first process, and its last update with the round behind
/// it.
const CASES: [(u32, usize, &str, &str); 3] = [
    (
        0,
        132_729,
        r#"{"client":"gen","disk":64,"domain":"gen","instances":1,"memory":160,"op":"desire","process":"proc-0"}
"#,
        r#"{"client":"gen","instances":5,"op":"update","process":"proc-37"}
{"at":201}
{"op":"round"}
"#,
    ),
    (
        7,
        132_718,
        r#"{"client":"gen","disk":64,"domain":"gen","instances":1,"memory":224,"op":"desire","process":"proc-0"}
"#,
        r#"{"client":"gen","instances":2,"op":"update","process":"proc-33"}
{"at":201}
{"op":"round"}
"#,
    ),
    (
        4_294_967_295,
        132_714,
        r#"{"client":"gen","disk":64,"domain":"gen","instances":2,"memory":64,"op":"desire","process":"proc-0"}
"#,
        r#"{"client":"gen","instances":0,"op":"update","process":"proc-1"}
{"at":201}
{"op":"round"}
"#,
    ),
];

/// How each begins: the first cell joins.
const FIRST: &str = r#"{"at":0}
{"cell":"cell-0","containers":250,"disk":1048576,"memory":65536,"op":"join","ttl":1000000,"zone":"z0"}
{"at":0}
{"cell":"cell-1","containers":250,"disk":1048576,"memory":65536,"op":"join","ttl":1000000,"zone":"z1"}
"#;

/// Where the processes begin: behind the lines of ten cells, and those of the phase and its domain.
const DESIRES: usize = 10 * (9 + 103) + 9 + 45;

#[test]
fn a_scenario_has_its_length_and_its_first_and_last_lines(rt: HostRuntime) -> Result<(), Fail> {
    for (number, length, process, last) in CASES {
        let text = generate(rt.alloc(), number)?;
        assert_eq!(rt; text.len(), length, "of {number}");
        assert!(rt; text.starts_with(FIRST.as_bytes()), "of {number}");
        assert!(rt; text.ends_with(last.as_bytes()), "of {number}");
        let behind = text.get(DESIRES..).ok_or("too short")?;
        assert!(rt; behind.starts_with(process.as_bytes()), "of {number}");
    }
    Ok(())
}
