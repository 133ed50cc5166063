//! What a command comes to, by what the board has at its keys: a refusal, nothing to change, or a
//! change of one row or two. It is the same whatever keeps the rows.
ghost use Rattle.std.specs.Prelude.{◌≡◌, IsSome};
ghost use Rattle.bbs_model.specs.Attempts as told;
ghost use Rattle.bbs_model.specs.Found.{key_in, task_in};
ghost use Rattle.bbs_model.specs.Step.{attempt_at as told_at, judged};

use crate::{Attempt, BoardRefusal, Command, Edit, Found, MOST_TRANSITIONS, Op, Row, Verdict};
use cell_records::CellRow;
use cells::{drain, join, renew, vanish};
use domains::{forget, fresh};
use lrp_records::LrpMove;
use lrps::{drop_evacuating, drop_suspect, evacuate, make, move_lrp, move_lrp_by_cell, suspect};
use processes::{desire, undesire, update};
use task_records::TaskMove;
use tasks::{move_task, move_task_by_cell, new_task};

mod cells;
mod domains;
mod lrps;
mod processes;
mod tasks;

/// What a command comes to on a board that may still make a transition.
pub fn attempt_at(found: &Found, command: &Command) -> Attempt
    ensures { result ≡ told_at found.now command.entry.now.now command.entry.now.op }
{
    let now = command.now;
    match command.op {
        Op::Desire { desired } => desire(found, &desired),
        Op::Update {
            instances,
            route,
            port,
            ..
        } => update(found, instances, route, port),
        Op::Undesire { .. } => undesire(found),
        Op::DropEvacuating { instance, .. } => drop_evacuating(found, instance),
        Op::Join {
            cell,
            zone,
            tag,
            totals,
            ttl,
        } => join(found, cell, zone, tag, totals, ttl, now),
        Op::Renew { epoch, ttl, .. } => renew(found, epoch, ttl, now),
        Op::Drain { epoch, .. } => drain(found, epoch),
        Op::Vanish { .. } => vanish(found, now),
        Op::Fresh { domain, ttl } => fresh(found, domain, ttl, now),
        Op::Forget { .. } => forget(found, now),
        Op::DropSuspect { instance, .. } => drop_suspect(found, instance),
        Op::NewTask { .. }
        | Op::StartTask { .. }
        | Op::CompleteTask { .. }
        | Op::CancelTask { .. }
        | Op::ResolveTask { .. }
        | Op::DeleteTask { .. }
        | Op::KickTask { .. }
        | Op::ExpireTask { .. } => on_task(found, command),
        _ => on_instance(found, command),
    }
}

/// What a command comes to that names an instance.
fn on_instance(found: &Found, command: &Command) -> Attempt
    requires { IsSome (key_in command.now.op) }
    ensures { result ≡ told_at found.now command.entry.now.now command.entry.now.op }
{
    let now = command.now;
    match command.op {
        Op::Make { key } => make(found, key, now),
        Op::Claim { instance, cell, .. } => {
            let mv = LrpMove::Claim { instance, cell };
            move_lrp_by_cell(found, instance.epoch, &mv, now)
        }
        Op::Start { instance, cell, .. } => {
            let mv = LrpMove::Start { instance, cell };
            move_lrp_by_cell(found, instance.epoch, &mv, now)
        }
        Op::Crash { instance, .. } => move_lrp(found, &LrpMove::Crash { instance }, now),
        Op::Unclaim { instance, .. } => move_lrp(found, &LrpMove::Unclaim { instance }, now),
        Op::Restart { .. } => move_lrp(found, &LrpMove::Restart, now),
        Op::Remove { instance, .. } => move_lrp(found, &LrpMove::Remove { instance }, now),
        Op::PlaceFail { .. } => move_lrp(found, &LrpMove::PlaceFail, now),
        Op::Evacuate { instance, .. } => evacuate(found, instance, now),
        Op::Suspect { instance, .. } => suspect(found, instance, now),
        _ => unreachable!(),
    }
}

/// What a command comes to that names a task.
fn on_task(found: &Found, command: &Command) -> Attempt
    requires { IsSome (task_in command.now.op) }
    ensures { result ≡ told_at found.now command.entry.now.now command.entry.now.op }
{
    let now = command.now;
    match command.op {
        Op::NewTask {
            name,
            memory,
            disk,
            tag,
        } => new_task(found, name, memory, disk, tag, now),
        Op::StartTask { instance, cell, .. } => {
            let mv = TaskMove::Start { instance, cell };
            move_task_by_cell(found, instance.epoch, &mv, now)
        }
        Op::CompleteTask {
            instance,
            failed,
            ..
        } => {
            let mv = TaskMove::Complete { instance, failed };
            move_task(found, &mv, now)
        }
        Op::CancelTask { .. } => move_task(found, &TaskMove::Cancel, now),
        Op::ResolveTask { .. } => move_task(found, &TaskMove::Resolve, now),
        Op::DeleteTask { .. } => move_task(found, &TaskMove::Delete, now),
        Op::KickTask { .. } => move_task(found, &TaskMove::Kick, now),
        Op::ExpireTask { .. } => move_task(found, &TaskMove::Expire, now),
        _ => unreachable!(),
    }
}

/// The verdict of an attempt on a board that has made `next` transitions.
pub fn judge(next: u64, attempt: &Attempt) -> Verdict
    ensures { result ≡ judged next attempt.now }
{
    match attempt {
        Attempt::Refuse(why) => Verdict::Refused(*why),
        Attempt::Keep => Verdict::Same,
        Attempt::Change { .. } if next >= MOST_TRANSITIONS => {
            Verdict::Refused(BoardRefusal::BoardFull)
        }
        Attempt::Change { .. } => Verdict::Ok,
    }
}

fn put(row: Row) -> Attempt
    ensures { result ≡ told.put row }
{
    Attempt::Change {
        first: Edit::Put(row),
        second: None,
    }
}

fn drop_row(row: Row) -> Attempt
    ensures { result ≡ told.drop_row row }
{
    Attempt::Change {
        first: Edit::Drop(row),
        second: None,
    }
}

fn too_many(limit: u32) -> Attempt
    ensures { result ≡ Attempt.Refuse (BoardRefusal.TooMany limit) }
{
    Attempt::Refuse(BoardRefusal::TooMany { limit })
}

/// `attempt` where the cell joined with this epoch, and else a refusal.
fn if_joined(cell: &Option<CellRow>, epoch: u64, attempt: Attempt) -> Attempt
    ensures { result ≡ told.if_joined cell.now epoch (λ row. attempt) }
{
    match cell {
        None => Attempt::Refuse(BoardRefusal::UnknownCell),
        Some(row) if row.epoch == epoch => attempt,
        Some(row) => Attempt::Refuse(BoardRefusal::StaleEpoch { now: row.epoch }),
    }
}
