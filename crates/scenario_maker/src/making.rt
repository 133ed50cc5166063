//! The scenario of a number, as text.
ghost use Rattle.std.specs.Prelude.{◌≡◌, ◌++◌, ◌+◌, ◌*◌, ◌<◌, IfOk, OnOk, OnErr};
ghost use Rattle.scenario_maker.specs.Draws.{behind};
ghost use Rattle.scenario_maker.specs.Generated.{desire_of, desire_phase, each_below, generated, join_phase, update_of, update_phases, update_phases_behind};

use crate::draws::Draws;
use crate::lines::{at_line, desire_line, join_line, update_line};
use std::alloc::{AllocError, Global};

const CELLS: u32 = 10;

const PROCESSES: u32 = 50;

const UPDATES: u32 = 97;

const ROUNDS: u32 = 20;

/// The domain of all processes is made fresh.
const FRESH: &[u8] = b"{\"client\":\"gen\",\"domain\":\"gen\",\"op\":\"fresh\"}\n";

/// A round over all cells.
const ROUND: &[u8] = b"{\"op\":\"round\"}\n";

/// Adds the phases in which the cells join.
fn add_joins(alloc: Global, text: &mut Vec<u8>) -> Result<(), AllocError>
    ensures { OnOk result (text.new.items ≡ text.old.items ++ each_below 10 join_phase) }
{
    for cell in 0..CELLS {
        text.extend_from_slice(at_line(alloc, 0)?.as_bytes())?;
        text.extend_from_slice(join_line(alloc, cell, cell % 2)?.as_bytes())?;
    }
    Ok(())
}

/// Adds the line of each process that is desired.
fn add_desires(alloc: Global, text: &mut Vec<u8>, draws: &mut Draws) -> Result<(), AllocError>
    ensures text { OnOk result (text.new.items
        ≡ text.old.items ++ each_below 50 (desire_of draws.old.last)) }
    ensures draws { OnOk result (draws.new.last ≡ behind 100 draws.old.last) }
{
    for process in 0..PROCESSES {
        let instances = 1 + draws.draw(4);
        let memory = 32 * (1 + draws.draw(8));
        let line = desire_line(alloc, process, instances, memory)?;
        text.extend_from_slice(line.as_bytes())?;
    }
    Ok(())
}

/// Adds the phase in which the processes are desired.
fn add_desire_phase(alloc: Global, text: &mut Vec<u8>, draws: &mut Draws) -> Result<(), AllocError>
    ensures text { OnOk result (text.new.items ≡ text.old.items ++ desire_phase draws.old.last) }
    ensures draws { OnOk result (draws.new.last ≡ behind 100 draws.old.last) }
{
    text.extend_from_slice(at_line(alloc, 0)?.as_bytes())?;
    text.extend_from_slice(FRESH)?;
    add_desires(alloc, text, draws)
}

/// Adds the line of each update of a phase.
fn add_updates(alloc: Global, text: &mut Vec<u8>, draws: &mut Draws) -> Result<(), AllocError>
    ensures text { OnOk result (text.new.items
        ≡ text.old.items ++ each_below 97 (update_of draws.old.last)) }
    ensures draws { OnOk result (draws.new.last ≡ behind 194 draws.old.last) }
{
    for _before in 0..UPDATES {
        let process = draws.draw(50);
        let instances = draws.draw(6);
        text.extend_from_slice(update_line(alloc, process, instances)?.as_bytes())?;
    }
    Ok(())
}

/// Adds a phase of updates at this moment, and a round in the next second.
fn add_update_phases(
    alloc: Global,
    text: &mut Vec<u8>,
    draws: &mut Draws,
    at: u32,
) -> Result<(), AllocError>
    requires { at < 1000 }
    ensures text { OnOk result (text.new.items ≡ text.old.items ++ update_phases draws.old.last at) }
    ensures draws { OnOk result (draws.new.last ≡ behind 194 draws.old.last) }
{
    text.extend_from_slice(at_line(alloc, at)?.as_bytes())?;
    add_updates(alloc, text, draws)?;
    text.extend_from_slice(at_line(alloc, at + 1)?.as_bytes())?;
    text.extend_from_slice(ROUND)?;
    Ok(())
}

/// Adds all phases of updates, and the rounds between them.
fn add_rounds(alloc: Global, text: &mut Vec<u8>, draws: &mut Draws) -> Result<(), AllocError>
    ensures { OnOk result (text.new.items
        ≡ text.old.items ++ each_below 20 (update_phases_behind draws.old.last)) }
{
    for before in 0..ROUNDS {
        add_update_phases(alloc, text, draws, 10 * before + 10)?;
    }
    Ok(())
}

/// The scenario of a number: the lines of ten cells, fifty processes, 1,940 updates of them and 20 rounds, of
/// some 132,000 bytes. Two numbers have the same where they leave the same behind whole multiples of 2^31.
pub fn generate(alloc: Global, number: u32) -> Result<Vec<u8>, AllocError>
    ensures { IfOk result (λ text. text.items ≡ generated number) }
{
    let mut draws = Draws::new(number);
    let mut text = Vec::new(alloc);
    add_joins(alloc, &mut text)?;
    add_desire_phase(alloc, &mut text, &mut draws)?;
    add_rounds(alloc, &mut text, &mut draws)?;
    Ok(text)
}
