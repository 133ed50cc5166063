//! How much a scenario may say.
ghost use Rattle.std.specs.Prelude.{◌≤◌, length};

use scenario_reader::{ScriptFault, read_script};
use std::alloc::Global;
use std::test::Fail;

// Adds a line of an actor whose name is this number.
fn add_act(alloc: Global, text: &mut String, actor: u32, times: u32) -> Result<(), Fail> {
    let line = format!(in alloc;
        "{{\"client\":\"{actor}\",\"op\":\"undesire\",\"process\":\"p\",\"times\":{times}}}\n"
    )?;
    Ok(text.push_str(line.as_str())?)
}

// A phase, and a line for each number, which is the name of its actor.
fn acts(alloc: Global, actors: u32, times: u32) -> Result<String, Fail> {
    let mut text = String::from_str(alloc, "{\"at\":0}\n")?;
    for actor in 0..actors {
        add_act(alloc, &mut text, actor, times)?;
    }
    Ok(text)
}

fn fault_in(alloc: Global, text: &[u8]) -> Option<ScriptFault>
    requires { length text.now ≤ 100000 }
{
    match read_script(alloc, text) {
        Ok(_script) => None,
        Err(fault) => Some(fault),
    }
}

// The fault of a text that goes on so.
fn fault_then(alloc: Global, text: &str, more: &str) -> Result<Option<ScriptFault>, Fail> {
    let text = format!(in alloc; "{text}{more}")?;
    if text.len() <= 100_000 {
        Ok(fault_in(alloc, text.as_bytes()))
    } else {
        Err(Fail::from("the text is short"))
    }
}

// The fault of a phase with so many actors, each of whose lines is run so often, that goes on so.
fn fault_of(
    alloc: Global,
    actors: u32,
    times: u32,
    more: &str,
) -> Result<Option<ScriptFault>, Fail> {
    let text = acts(alloc, actors, times)?;
    fault_then(alloc, text.as_str(), more)
}

#[test]
fn there_are_at_most_256_actors(rt: HostRuntime) -> Result<(), Fail> {
    let alloc = rt.alloc();
    let known = "{\"client\":\"255\",\"op\":\"undesire\",\"process\":\"p\"}";
    assert_eq!(rt; fault_of(alloc, 256, 1, known)?, None);
    let cell = "{\"cell\":\"255\",\"op\":\"die\"}";
    let too_much = Some(ScriptFault::TooMuch { line: 258 });
    assert_eq!(rt; fault_of(alloc, 256, 1, cell)?, too_much);
    Ok(())
}

#[test]
fn there_are_at_most_200_000_runs_and_a_round_is_one(rt: HostRuntime) -> Result<(), Fail> {
    let alloc = rt.alloc();
    let round = "{\"op\":\"round\"}";
    let too_much = Some(ScriptFault::TooMuch { line: 202 });
    assert_eq!(rt; fault_of(alloc, 200, 1000, "{\"at\":1}")?, None);
    assert_eq!(rt; fault_of(alloc, 200, 1000, round)?, too_much);
    assert_eq!(rt; fault_of(alloc, 199, 1000, round)?, None);
    Ok(())
}

#[test]
fn a_fault_by_itself_or_of_order_comes_before_too_much(rt: HostRuntime) -> Result<(), Fail> {
    let cases = [
        (
            "{\"cell\":\"c\",\"op\":\"die\"",
            ScriptFault::BadJson { line: 258 },
        ),
        (
            "{\"cell\":\"c\",\"op\":\"dies\"}",
            ScriptFault::BadShape { line: 258 },
        ),
        (
            "{\"cell\":\"\",\"op\":\"die\"}",
            ScriptFault::BadName { line: 258 },
        ),
        (
            "{\"op\":\"round\"}\n{\"cell\":\"c\",\"op\":\"die\"}",
            ScriptFault::BadOrder { line: 259 },
        ),
    ];
    for (more, fault) in cases {
        let found = fault_of(rt.alloc(), 256, 1, more)?;
        assert_eq!(rt; found, Some(fault), "with {more}");
    }
    Ok(())
}
