//! Which form a line has.
ghost use Rattle.std.specs.Prelude.{◌≡◌};
ghost use Rattle.scenario_lines.specs.Forms.{cell_op, claim_form, client_op, form_of, form_with, up_op};
ghost use Rattle.scenario_lines.specs.Places.{object_of};

use crate::form::{CellOp, ClientOp, Form};
use crate::member::Member;
use crate::members::Members;

/// The form of a line: a moment begins a phase; else the actor and the op tell.
#[tactic(auto, unfolding(crate::specs::Forms::form_of))]
pub(crate) fn form_of(members: &Members<'_>) -> Option<Form>
    ensures { result ≡ form_of (object_of members.now.object.now) }
{
    if members.has(Member::At) {
        return Some(Form::At);
    }
    form_with(members.text_in(Member::Op)?, members)
}

#[tactic(auto, unfolding(crate::specs::Forms::form_with))]
fn form_with(op: &str, members: &Members<'_>) -> Option<Form>
    ensures { result ≡ form_with op.now (object_of members.now.object.now) }
{
    if members.has(Member::Client) {
        Some(Form::Client(client_op(op)?))
    } else if members.has(Member::Cell) {
        Some(Form::Cell(cell_op(op, members)?))
    } else if op == "round" {
        Some(Form::Round)
    } else {
        None
    }
}

#[tactic(auto, unfolding(crate::specs::Forms::client_op))]
fn client_op(op: &str) -> Option<ClientOp>
    ensures { result ≡ client_op op.now }
{
    match op {
        "desire" => Some(ClientOp::Desire),
        "update" => Some(ClientOp::Update),
        "undesire" => Some(ClientOp::Undesire),
        "restart" => Some(ClientOp::Restart),
        "task" => Some(ClientOp::Task),
        "cancel" => Some(ClientOp::Cancel),
        "resolve" => Some(ClientOp::Resolve),
        "delete" => Some(ClientOp::Delete),
        "fresh" => Some(ClientOp::Fresh),
        _ => None,
    }
}

#[tactic(auto, unfolding(crate::specs::Forms::cell_op))]
fn cell_op(op: &str, members: &Members<'_>) -> Option<CellOp>
    ensures { result ≡ cell_op op.now (object_of members.now.object.now) }
{
    match op {
        "join" => Some(CellOp::Join),
        "renew" => Some(CellOp::Renew),
        "claim" => Some(claim_op(members)),
        "run" => Some(CellOp::Run),
        "up" => Some(up_op(members)),
        "crash" => Some(CellOp::Crash),
        "finish" => Some(CellOp::Finish),
        "settle" => Some(CellOp::Settle),
        "evacuate" => Some(CellOp::Evacuate),
        "die" => Some(CellOp::Die),
        _ => None,
    }
}

fn claim_op(members: &Members<'_>) -> CellOp
    ensures { result ≡ claim_form (object_of members.now.object.now) }
{
    if members.has(Member::Name) {
        CellOp::ClaimTask
    } else {
        CellOp::ClaimInstance
    }
}

fn up_op(members: &Members<'_>) -> CellOp
    ensures { result ≡ up_op (object_of members.now.object.now) }
{
    if members.has(Member::Name) {
        CellOp::UpTask
    } else if members.has(Member::Process) || members.has(Member::Index) {
        CellOp::UpInstance
    } else {
        CellOp::UpAll
    }
}
