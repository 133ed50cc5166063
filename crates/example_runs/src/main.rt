//! Plays each scenario of `data/` twice on a fresh board in memory, and prints its name and what
//! the program prints of it.
#![tactic(auto)]

mod playing;

use playing::play;
use std::process::ExitCode;

/// The status where a scenario can't be read, or there is no memory for it.
const NOT_PLAYED: u8 = 10;

/// The scenarios, in the order of their names.
const NAMES: [&str; 9] = [
    "apps-and-a-migration",
    "crash-loop",
    "first-run",
    "rolling-evacuation",
    "silent-cell",
    "stale-domain",
    "suspected-instance",
    "task-outcome-once",
    "two-cells",
];

/// It ends with the first status that isn't 0.
fn main(rt: HostRuntime) -> ExitCode {
    for name in NAMES {
        let status = play(&rt, name).unwrap_or(NOT_PLAYED);
        if status != 0 {
            return ExitCode::from(status);
        }
    }
    ExitCode::SUCCESS
}
