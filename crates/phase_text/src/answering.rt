//! One answer of a phase, by the line that it is to.
ghost use Rattle.std.specs.Prelude.{◌≡◌, ◌≤◌, IfOk, Some, length};
ghost use Rattle.phase_text.specs.Answers.{IsActorAnswer, IsToLine, LineNumbersRise};
ghost use Rattle.phase_text.specs.Asking.{asked_at};
ghost use Rattle.phase_text.specs.Texts.{actor_name, answer_words, line_numbered};

use crate::asking::asked_by;
use diego_names::{Name, OutOfMemory};
use record_print::{Asked, answer_text};
use scenario_lines::{Actor, Answered, Line};
use std::alloc::Global;

/// The line that tells an answer.
pub fn answer_line(
    alloc: Global,
    actors: &[Actor],
    lines: &[Line],
    answered: &Answered,
) -> Result<Vec<u8>, OutOfMemory>
    requires rising { LineNumbersRise lines.now }
    requires answer { IsActorAnswer actors.now lines.now answered.now }
    ensures { IfOk result (λ text. text.items ≡ answer_words actors.now lines.now answered.now) }
{
    let line = line_of(lines, answered);
    let asked = asked_at(line, answered);
    let name = name_of(actors, answered.actor);
    let text = answer_text(alloc, name, answered.line, &asked, &answered.end)?;
    Ok(text)
}

// The numbers of lines rise, so it takes as many steps as their count has binary digits.
fn line_of<'a>(lines: &'a [Line], answered: &Answered) -> &'a Line
    requires rising { LineNumbersRise lines.now }
    requires answer { IsToLine lines.now answered.now }
    ensures { line_numbered lines.now answered.now.line ≡ Some result.now }
{
    let at = lines.partition_point(|line| line.line < answered.line);
    &lines[at]
}

fn name_of(actors: &[Actor], number: u32) -> &Name
    requires { (1 ≤ number) × (number ≤ length actors.now) }
    ensures { result.now ≡ actor_name actors.now number }
{
    let at = number as usize - 1;
    &actors[at].name
}

fn asked_at(line: &Line, answered: &Answered) -> Asked
    ensures { result ≡ asked_at line.now answered.now.command }
{
    match answered.command {
        Some(command) => Asked::Command(command.op),
        None => asked_by(&line.act),
    }
}
