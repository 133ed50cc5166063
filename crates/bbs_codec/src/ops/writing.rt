//! An operation is written field by field.
ghost use Rattle.std.specs.Prelude.{◌+◌, ◌≤◌, length};
ghost use Rattle.wire_fields.specs.Field.{PutsText};
ghost use Rattle.bbs_codec.specs.Ops.{said};

use crate::fields::Fields;
use crate::ops::kind::kind_of;
use bbs_model::Op;

/// Writes a value at a place, where there is room for one that fits, and gives the place after it.
fn put<T: Fields>(out: &mut [u8], at: usize, value: T) -> usize
    requires { T.format.Fits value → at + length (T.format.spelling value) ≤ length out.old }
    ensures bytes { PutsText out.old at (T.format.spelling value) out.new result }
    ensures fits { T.format.Fits value }
{
    value.fits();
    value.put_at(out, at)
}

/// Writes the fields of an operation on domains, or on SUSPECT rows.
fn put_late_op(out: &mut [u8], at: usize, op: &Op) -> usize
    requires kind { 26 ≤ (said op.now).kind }
    requires room { (said op.now).Fits → at + length (said op.now).fields ≤ length out.old }
    ensures bytes { PutsText out.old at (said op.entry.now).fields out.new result }
    ensures fits { (said op.entry.now).Fits }
{
    match *op {
        Op::Fresh { domain, ttl } => put(out, at, (domain, ttl)),
        Op::Forget { domain } => put(out, at, domain),
        Op::Suspect { key, instance } | Op::DropSuspect { key, instance } => {
            put(out, at, (key, instance))
        }
        _ => unreachable!(),
    }
}

/// Writes the fields of an operation on cells.
fn put_cell_op(out: &mut [u8], at: usize, op: &Op) -> usize
    requires kind { (22 ≤ (said op.now).kind) × ((said op.now).kind ≤ 25) }
    requires room { (said op.now).Fits → at + length (said op.now).fields ≤ length out.old }
    ensures bytes { PutsText out.old at (said op.entry.now).fields out.new result }
    ensures fits { (said op.entry.now).Fits }
{
    match *op {
        Op::Join {
            cell,
            zone,
            tag,
            totals,
            ttl,
        } => put(out, at, ((cell, zone, tag), totals, ttl)),
        Op::Renew { cell, epoch, ttl } => put(out, at, (cell, epoch, ttl)),
        Op::Drain { cell, epoch } => put(out, at, (cell, epoch)),
        Op::Vanish { cell } => put(out, at, cell),
        _ => unreachable!(),
    }
}

/// Writes the fields of an operation on tasks.
fn put_task_op(out: &mut [u8], at: usize, op: &Op) -> usize
    requires kind { (14 ≤ (said op.now).kind) × ((said op.now).kind ≤ 21) }
    requires room { (said op.now).Fits → at + length (said op.now).fields ≤ length out.old }
    ensures bytes { PutsText out.old at (said op.entry.now).fields out.new result }
    ensures fits { (said op.entry.now).Fits }
{
    match *op {
        Op::NewTask {
            name,
            memory,
            disk,
            tag,
        } => put(out, at, (name, (memory, disk), tag)),
        Op::StartTask {
            name,
            instance,
            cell,
        } => put(out, at, (name, instance, cell)),
        Op::CompleteTask {
            name,
            instance,
            failed,
        } => put(out, at, (name, instance, failed)),
        Op::CancelTask { name }
        | Op::ResolveTask { name }
        | Op::DeleteTask { name }
        | Op::KickTask { name }
        | Op::ExpireTask { name } => put(out, at, name),
        _ => unreachable!(),
    }
}

/// Writes the fields of an operation on the instances of processes.
fn put_lrp_op(out: &mut [u8], at: usize, op: &Op) -> usize
    requires kind { (4 ≤ (said op.now).kind) × ((said op.now).kind ≤ 13) }
    requires room { (said op.now).Fits → at + length (said op.now).fields ≤ length out.old }
    ensures bytes { PutsText out.old at (said op.entry.now).fields out.new result }
    ensures fits { (said op.entry.now).Fits }
{
    match *op {
        Op::Make { key } | Op::Restart { key } | Op::PlaceFail { key } => put(out, at, key),
        Op::Claim {
            key,
            instance,
            cell,
        }
        | Op::Start {
            key,
            instance,
            cell,
        } => put(out, at, (key, instance, cell)),
        Op::Crash { key, instance }
        | Op::Unclaim { key, instance }
        | Op::Evacuate { key, instance }
        | Op::DropEvacuating { key, instance } => put(out, at, (key, instance)),
        Op::Remove { key, instance } => put(out, at, (key, instance)),
        _ => unreachable!(),
    }
}

/// Writes the fields of an operation on desired processes.
fn put_process_op(out: &mut [u8], at: usize, op: &Op) -> usize
    requires kind { (said op.now).kind ≤ 3 }
    requires room { (said op.now).Fits → at + length (said op.now).fields ≤ length out.old }
    ensures bytes { PutsText out.old at (said op.entry.now).fields out.new result }
    ensures fits { (said op.entry.now).Fits }
{
    match *op {
        Op::Desire { desired } => put(out, at, desired),
        Op::Update {
            process,
            instances,
            route,
            port,
        } => put(out, at, (process, instances, (route, port))),
        Op::Undesire { process } => put(out, at, process),
        _ => unreachable!(),
    }
}

/// Writes the fields of an operation at a place, where there is room for what fits, and gives the
/// place after them.
pub fn put_op(out: &mut [u8], at: usize, op: &Op) -> usize
    requires { (said op.now).Fits → at + length (said op.now).fields ≤ length out.old }
    ensures bytes { PutsText out.old at (said op.entry.now).fields out.new result }
    ensures fits { (said op.entry.now).Fits }
{
    match kind_of(op) {
        0..=3 => put_process_op(out, at, op),
        4..=13 => put_lrp_op(out, at, op),
        14..=21 => put_task_op(out, at, op),
        22..=25 => put_cell_op(out, at, op),
        _ => put_late_op(out, at, op),
    }
}
