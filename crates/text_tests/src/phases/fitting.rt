//! Whether answers are those of a phase, which the text of a phase asks for.
ghost use Rattle.std.specs.Prelude.{IsTrue};
ghost use Rattle.phase_text.specs.Answers.{AreActorAnswers, IsActorAnswer, IsToLine, LineNumbersRise};

use scenario_lines::{Actor, Answered, Line};

#[tactic(auto, using(crate::proofs::Fitting::fits_none, crate::proofs::Fitting::fits_more, crate::proofs::Fitting::fits_at_end))]
pub fn fits(actors: &[Actor], lines: &[Line], answers: &[Answered]) -> bool
    ensures { IsTrue result → AreActorAnswers actors.now lines.now answers.now }
{
    if !rises(lines) {
        return false;
    }
    for answered in answers {
        if !is_answer(actors, lines, answered) {
            return false;
        }
    }
    true
}

#[tactic(auto, using(crate::proofs::Fitting::rises_to_none, crate::proofs::Fitting::rises_to_more, crate::proofs::Fitting::rises_at_end))]
fn rises(lines: &[Line]) -> bool
    ensures { IsTrue result → LineNumbersRise lines.now }
{
    let mut last = 0;
    for line in lines {
        if line.line <= last {
            return false;
        }
        last = line.line;
    }
    true
}

fn is_answer(actors: &[Actor], lines: &[Line], answered: &Answered) -> bool
    ensures { IsTrue result → IsActorAnswer actors.now lines.now answered.now }
{
    if answered.actor < 1 || answered.actor as usize > actors.len() {
        return false;
    }
    has_line(lines, answered)
}

#[tactic(auto, using(crate::proofs::Fitting::to_line_at))]
fn has_line(lines: &[Line], answered: &Answered) -> bool
    ensures { IsTrue result → IsToLine lines.now answered.now }
{
    for line in lines {
        if line.line == answered.line && line.actor == answered.actor {
            return true;
        }
    }
    false
}
