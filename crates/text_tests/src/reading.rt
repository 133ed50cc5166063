//! Scenarios that are read, written out by hand.
ghost use Rattle.std.specs.Prelude.{◌≤◌, length};

mod faults;
mod limits;
mod made;

use diego_names::Name;
use scenario_lines::{Actor, Loss};
use scenario_reader::{Line, Phase, RoundLine, Script, ScriptFault, read_script};
use std::alloc::Global;
use std::process::Abort;
use std::test::Fail;

const DAY: &str = r#"
{"at":3}
{"cell":"a","op":"join","zone":"z","memory":9,"disk":9,"containers":9,"ttl":9}
{"client":"a","op":"undesire","process":"p","lost":"reply"}

{"at":3}
{"at":7}
{"op":"round","lose_ask":["a","b"],"lose_reply":["c"]}
{"client":"b","op":"cancel","name":"t","times":1000}
{"client":"a","op":"delete","name":"t","lost":"call","times":2}
"#;

fn numbers(line: &Line) -> [u32; 3] {
    [line.line, line.actor, line.times]
}

fn are_actors(actors: &[Actor]) -> bool {
    match actors {
        [first, second, third] => {
            is_actor(first, true, "a")
                && is_actor(second, false, "a")
                && is_actor(third, false, "b")
        }
        _ => false,
    }
}

fn is_actor(actor: &Actor, cell: bool, name: &str) -> bool {
    actor.cell == cell && actor.name.as_str() == name
}

fn is_first_phase(phase: &Phase) -> bool {
    match phase.lines.items() {
        [join, undesire] => {
            numbers(join) == [3, 1, 1]
                && numbers(undesire) == [4, 2, 1]
                && join.lost == None
                && undesire.lost == Some(Loss::Reply)
                && phase.at.0 == 3
                && phase.round.is_none()
        }
        _ => false,
    }
}

fn is_empty_phase(phase: &Phase) -> bool {
    phase.at.0 == 3 && phase.lines.is_empty() && phase.round.is_none()
}

fn is_last_phase(phase: &Phase) -> bool {
    match phase.lines.items() {
        [cancel, delete] => {
            numbers(cancel) == [9, 3, 1000]
                && numbers(delete) == [10, 2, 2]
                && delete.lost == Some(Loss::Call)
                && phase.at.0 == 7
        }
        _ => false,
    }
}

fn is_its_round(round: &RoundLine) -> bool {
    round.line == 8
        && are_named(round.lose_ask.items(), &["a", "b"])
        && round.lose_stop.is_empty()
        && round.lose_start.is_empty()
        && are_named(round.lose_reply.items(), &["c"])
}

fn are_named(names: &[Name], texts: &[&str]) -> bool {
    names.len() == texts.len()
        && names
            .iter()
            .zip(texts)
            .all(|(name, text)| name.as_str() == *text)
}

// What must be read of the day.
fn is_the_day(rt: &impl Abort, script: &Script) -> Result<(), Fail> {
    assert!(rt; are_actors(script.actors.items()));
    match script.phases.items() {
        [first, second, third] => {
            assert!(rt; is_first_phase(first));
            assert!(rt; is_empty_phase(second));
            assert!(rt; is_last_phase(third));
            assert!(rt; third.round.as_ref().is_some_and(is_its_round));
            Ok(())
        }
        _ => Err(Fail::from("there are three phases")),
    }
}

#[test]
fn phases_actors_and_rounds_are_read(rt: HostRuntime) -> Result<(), Fail> {
    match read_script(rt.alloc(), DAY.as_bytes()) {
        Err(fault) => Err(Fail::from(fault)),
        Ok(script) => is_the_day(&rt, &script),
    }
}

// How many actors and phases a text has.
fn counts(alloc: Global, text: &[u8]) -> Result<(usize, usize), ScriptFault>
    requires { length text.now ≤ 1000 }
{
    match read_script(alloc, text) {
        Err(fault) => Err(fault),
        Ok(script) => Ok((script.actors.len(), script.phases.len())),
    }
}

#[test]
fn a_text_without_lines_is_a_scenario_without_phases(rt: HostRuntime) -> Result<(), Fail> {
    for text in ["", "\n", " \t\r", "\n \r\n\t\n"] {
        assert_eq!(rt; counts(rt.alloc(), text.as_bytes())?, (0, 0));
    }
    Ok(())
}

#[test]
fn the_last_line_may_lack_its_newline(rt: HostRuntime) -> Result<(), Fail> {
    let text = "{\"at\":0}\n{\"op\":\"round\"}";
    assert_eq!(rt; counts(rt.alloc(), text.as_bytes())?, (0, 1));
    Ok(())
}
