//! What a line says: first as JSON, then by its shape, then by its names.
ghost use Rattle.serde_json.specs.View.{view};
ghost use Rattle.scenario_lines.specs.Contents.{content_in, content_of};
ghost use Rattle.scenario_lines.specs.Flaws.{GivesContent};
ghost use Rattle.scenario_lines.specs.Outlines.{content_with};
ghost use Rattle.scenario_lines.specs.Places.{object_of};
ghost use Rattle.scenario_lines.specs.Said.{content_as};
ghost use Rattle.scenario_lines.specs.declared.form.Form.TheVariants as form;

use crate::act::Act;
use crate::actor::Actor;
use crate::cell::done_into;
use crate::client::asked_into;
use crate::content::{ActHead, Outline};
use crate::flaw::{Flaw, LineError};
use crate::form::{CellOp, ClientOp, Form};
use crate::json::json_of;
use crate::member::Member;
use crate::members::{Members, said_in};
use crate::names::name_in;
use crate::round::losses_in;
use crate::shape::shaped;
use crate::values::{lost_in, number_in, times_in};
use crash_backoff::Moment;
use serde_json::Value;
use std::alloc::Global;

/// Reads the bytes of one line, without its newline. What an actor does is written to `act`; other lines may
/// leave something there.
#[tactic(auto, unfolding(crate::specs::Contents::content_of))]
pub fn read_outline(alloc: Global, line: &[u8], act: &mut Act) -> Result<Outline, LineError>
    ensures { GivesContent (content_with act.new) result (content_of line.now) }
{
    let value = json_of(alloc, line)?;
    outline_as(alloc, &value, act)
}

// What a value says, which has to be an object.
fn outline_as(alloc: Global, value: &Value, act: &mut Act) -> Result<Outline, LineError>
    ensures { GivesContent (content_with act.new) result (content_as (view value.now)) }
{
    match value.as_object() {
        Some(object) => {
            let said = said_in(object);
            outline_among(alloc, &Members::new(object, &said), act)
        }
        None => Err(LineError::Flawed(Flaw::BadShape)),
    }
}

fn outline_among(alloc: Global, members: &Members<'_>, act: &mut Act) -> Result<Outline, LineError>
    ensures { GivesContent (content_with act.new) result
        (content_as (object_of members.now.object.now)) }
{
    let form = shaped(members)?;
    outline_in(alloc, form, members, act)
}

// Each form has a function of its own, so that a line clears room for no other form.
fn outline_in(
    alloc: Global,
    form: Form,
    members: &Members<'_>,
    act: &mut Act,
) -> Result<Outline, LineError>
    ensures { GivesContent (content_with act.new) result
        (content_in form (object_of members.now.object.now)) }
{
    match form {
        Form::At => phase_in(members),
        Form::Round => round_in(alloc, members),
        Form::Client(op) => client_in(op, members, act),
        Form::Cell(op) => cell_in(op, members, act),
    }
}

#[tactic(auto, unfolding(crate::specs::Contents::phase_in))]
fn phase_in(members: &Members<'_>) -> Result<Outline, LineError>
    ensures { (act : Act) → GivesContent (content_with act) result
        (content_in form.At (object_of members.now.object.now)) }
{
    Ok(Outline::Phase(Moment(number_in(members, Member::At)?)))
}

fn round_in(alloc: Global, members: &Members<'_>) -> Result<Outline, LineError>
    ensures { (act : Act) → GivesContent (content_with act) result
        (content_in form.Round (object_of members.now.object.now)) }
{
    Ok(Outline::Round(losses_in(alloc, members)?))
}

#[tactic(auto, unfolding(crate::specs::Contents::client_in))]
fn client_in(op: ClientOp, members: &Members<'_>, act: &mut Act) -> Result<Outline, LineError>
    ensures { GivesContent (content_with act.new) result
        (content_in (form.Client op) (object_of members.now.object.now)) }
{
    let name = name_in(members, Member::Client)?;
    asked_into(op, members, act)?;
    Ok(Outline::Acts(ActHead {
        actor: Actor { cell: false, name },
        lost: lost_in(members)?,
        times: times_in(members)?,
    }))
}

#[tactic(auto, unfolding(crate::specs::Contents::cell_line))]
fn cell_in(op: CellOp, members: &Members<'_>, act: &mut Act) -> Result<Outline, LineError>
    ensures { GivesContent (content_with act.new) result
        (content_in (form.Cell op) (object_of members.now.object.now)) }
{
    let name = name_in(members, Member::Cell)?;
    done_into(op, members, act)?;
    Ok(Outline::Acts(ActHead {
        actor: Actor { cell: true, name },
        lost: lost_in(members)?,
        times: times_in(members)?,
    }))
}
