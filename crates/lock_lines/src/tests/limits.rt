//! How many lines a script has.
ghost use Rattle.std.specs.Prelude.{◌≤◌, length};

use crate::read_lock_lines;
use scenario_reader::ScriptFault;
use std::alloc::Global;
use std::test::Fail;

const ACQUIRE: &str = "{\"at\":0,\"op\":\"acquire\",\"owner\":\"a\",\"ttl\":5}\n";

// How many lines are read of a text, or its fault.
fn count_in(alloc: Global, text: &[u8]) -> Result<usize, ScriptFault>
    requires { length text.now ≤ 20000000 }
{
    let lines = read_lock_lines(alloc, text)?;
    Ok(lines.len())
}

// The same, of 200,000 lines with a blank one before them, and of what stands behind them.
fn count_then(alloc: Global, more: &str) -> Result<Result<usize, ScriptFault>, Fail> {
    let many = ACQUIRE.repeat(alloc, 200_000)?;
    let text = format!(in alloc; "\n{many}{more}")?;
    if text.len() <= 20_000_000 {
        Ok(count_in(alloc, text.as_bytes()))
    } else {
        Err(Fail::from("the text is short"))
    }
}

#[test]
fn there_are_at_most_200_000_lines(rt: HostRuntime) -> Result<(), Fail> {
    let cases = [
        ("", Ok(200_000)),
        (" \t\n\n", Ok(200_000)),
        (ACQUIRE, Err(ScriptFault::TooMuch { line: 200_002 })),
        ("\n{", Err(ScriptFault::BadJson { line: 200_003 })),
        ("{}", Err(ScriptFault::BadShape { line: 200_002 })),
        (
            "{\"at\":0,\"op\":\"acquire\",\"owner\":\"\",\"ttl\":5}",
            Err(ScriptFault::BadName { line: 200_002 }),
        ),
    ];
    for (more, want) in cases {
        assert!(rt; count_then(rt.alloc(), more)? == want, "behind them {more}");
    }
    Ok(())
}
