//! Which scripts are one for a pair: those whose lines begin phases or are a client's.
ghost use Rattle.std.specs.Prelude.{◌≡◌};
ghost use Rattle.pair_lines.specs.Scripts.{first_cells_line, first_other, other_in, round_number};

use scenario_lines::{Line, Phase, RoundLine, Script};

/// The number of the first of these lines that a cell acts on.
fn first_cells_line(lines: &[Line]) -> Option<u32>
    ensures { result ≡ first_cells_line lines.now }
{
    match lines.iter().find(|line| line.act.is_of_cell()) {
        Some(line) => Some(line.line),
        None => None,
    }
}

fn round_number(round: &Option<RoundLine>) -> Option<u32>
    ensures { result ≡ round_number round.now }
{
    match round {
        Some(round) => Some(round.line),
        None => None,
    }
}

/// The number of the first line of a phase that is no client's. No phase has a cell's line beside a
/// round.
fn other_in(phase: &Phase) -> Option<u32>
    ensures { result ≡ other_in phase.now }
{
    match first_cells_line(phase.lines.items()) {
        Some(line) => Some(line),
        None => round_number(&phase.round),
    }
}

/// The number of the first line of a script that neither begins a phase nor is a client's.
pub fn first_other(script: &Script) -> Option<u32>
    ensures { result ≡ first_other script.now }
{
    let phases = script.phases.items();
    for phase in phases {
        if let Some(line) = other_in(phase) {
            return Some(line);
        }
    }
    None
}
