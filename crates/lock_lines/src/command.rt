//! What a line asks: first as JSON, then by its shape, then by its owner's name.
ghost use Rattle.std.specs.Prelude.{◌≡◌};
ghost use Rattle.serde_json.specs.View.{view};
ghost use Rattle.scenario_lines.specs.Flaws.{GivesContent};
ghost use Rattle.lock_lines.specs.Commands.{acquire_in, command_as, command_in, command_of, op_in, release_in, renew_in};

use crate::members::{long_number_in, name_in, number_in};
use crate::operation::{Operation, has_only, operation_in};
use crash_backoff::Moment;
use locket::{LockCommand, LockOp};
use scenario_lines::{Flaw, LineError, json_of};
use serde_json::Value;
use std::alloc::Global;

/// Reads the bytes of one line, without its newline.
#[tactic(auto, unfolding(crate::specs::Commands::command_of))]
pub(crate) fn read_command(alloc: Global, line: &[u8]) -> Result<LockCommand, LineError>
    ensures { GivesContent (λ command. command) result (command_of line.now) }
{
    let value = json_of(alloc, line)?;
    Ok(command_as(&value)?)
}

#[tactic(auto, unfolding(crate::specs::Commands::command_as))]
fn command_as(value: &Value) -> Result<LockCommand, Flaw>
    ensures { result ≡ command_as (view value.now) }
{
    match operation_in(value) {
        Some(operation) if has_only(operation, value) => command_in(operation, value),
        _ => Err(Flaw::BadShape),
    }
}

#[tactic(auto, unfolding(crate::specs::Commands::command_in))]
fn command_in(operation: Operation, value: &Value) -> Result<LockCommand, Flaw>
    ensures { result ≡ command_in operation (view value.now) }
{
    let now = Moment(number_in(value, "at")?);
    let op = op_in(operation, value)?;
    Ok(LockCommand { now, op })
}

fn op_in(operation: Operation, value: &Value) -> Result<LockOp, Flaw>
    ensures { result ≡ op_in operation (view value.now) }
{
    match operation {
        Operation::Acquire => acquire_in(value),
        Operation::Renew => renew_in(value),
        Operation::Release => release_in(value),
    }
}

// Each reads the owner last, so that a fault of the shape is found before one of a name.
#[tactic(auto, unfolding(crate::specs::Commands::acquire_in))]
fn acquire_in(value: &Value) -> Result<LockOp, Flaw>
    ensures { result ≡ acquire_in (view value.now) }
{
    let ttl = number_in(value, "ttl")?;
    let owner = name_in(value, "owner")?;
    Ok(LockOp::Acquire { owner, ttl })
}

#[tactic(auto, unfolding(crate::specs::Commands::renew_in))]
fn renew_in(value: &Value) -> Result<LockOp, Flaw>
    ensures { result ≡ renew_in (view value.now) }
{
    let fence = long_number_in(value, "fence")?;
    let ttl = number_in(value, "ttl")?;
    let owner = name_in(value, "owner")?;
    Ok(LockOp::Renew { owner, fence, ttl })
}

#[tactic(auto, unfolding(crate::specs::Commands::release_in))]
fn release_in(value: &Value) -> Result<LockOp, Flaw>
    ensures { result ≡ release_in (view value.now) }
{
    let fence = long_number_in(value, "fence")?;
    let owner = name_in(value, "owner")?;
    Ok(LockOp::Release { owner, fence })
}
