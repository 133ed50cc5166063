//! A lock command in bytes: the number of its kind, its moment, and its fields.
ghost use Rattle.std.specs.Prelude.{◌≡◌, ◌+◌, ◌≤◌, length, take, IfOk};
ghost use Rattle.wire_fields.specs.Field.{PutsText};
ghost use Rattle.locket.specs.Bytes.{lock_spelled, lock_reading, kind_of, fields_of, acquire_at, term_at, renew_at, release_at, op_at, command_at, FitsOp, FitsLock};

use crate::command::{LockCommand, LockOp};
use crash_backoff::Moment;
use diego_names::Name;
use wire_fields::{
    FieldFault, put_name, put_u8, put_u32, put_u64, read_name, read_u8, read_u32, read_u64,
};

/// The number of a kind of command.
const ACQUIRE: u8 = 32;

const RENEW: u8 = 33;

const RELEASE: u8 = 34;

fn kind_of(op: &LockOp) -> u8
    ensures { result ≡ kind_of op.entry.now }
{
    match op {
        LockOp::Acquire { .. } => ACQUIRE,
        LockOp::Renew { .. } => RENEW,
        LockOp::Release { .. } => RELEASE,
    }
}

/// Shows that an operation has a spelling. It does nothing.
fn fits_op(op: &LockOp)
    ensures { FitsOp op.entry.now }
{
    match op {
        LockOp::Acquire { owner, ttl } => {
            let _owner = owner.bytes();
            let _ttl = *ttl;
        }
        LockOp::Renew { owner, fence, ttl } => {
            let _owner = owner.bytes();
            let (_fence, _ttl) = (*fence, *ttl);
        }
        LockOp::Release { owner, fence } => {
            let _owner = owner.bytes();
            let _fence = *fence;
        }
    }
}

/// Shows that a command has a spelling. It does nothing.
pub(crate) fn fits(command: &LockCommand)
    ensures { FitsLock command.entry.now }
{
    let _now = command.now.0;
    fits_op(&command.op);
}

#[tactic(auto, using(wire_fields::proofs::Rules::lengths))]
fn put_op(out: &mut [u8], at: usize, op: &LockOp) -> usize
    requires { at + 93 ≤ length out.old }
    ensures { PutsText out.old at (fields_of op.entry.now) out.new result }
{
    fits_op(op);
    match op {
        LockOp::Acquire { owner, ttl } => {
            let at = put_name(out, at, *owner);
            put_u32(out, at, *ttl)
        }
        LockOp::Renew { owner, fence, ttl } => {
            let at = put_name(out, at, *owner);
            let at = put_u64(out, at, *fence);
            put_u32(out, at, *ttl)
        }
        LockOp::Release { owner, fence } => {
            let at = put_name(out, at, *owner);
            put_u64(out, at, *fence)
        }
    }
}

#[tactic(auto, using(wire_fields::proofs::Rules::lengths))]
fn put_command(out: &mut [u8], command: &LockCommand) -> usize
    requires { length out.old ≡ 512 }
    ensures { PutsText out.old 0 (lock_spelled command.entry.now) out.new result }
{
    let at = put_u8(out, 0, kind_of(&command.op));
    let at = put_u32(out, at, command.now.0);
    put_op(out, at, &command.op)
}

/// Writes a command at the front, and gives its length in bytes. It takes no memory.
pub fn put_lock_command(out: &mut [u8; 512], command: &LockCommand) -> usize
    ensures bytes { take result out.new ≡ lock_spelled command.entry.now }
    ensures least { 11 ≤ result }
    ensures most { result ≤ 98 }
{
    fits(command);
    put_command(out, command)
}

fn read_acquire(bytes: &[u8], at: usize) -> Result<(LockOp, usize), FieldFault>
    requires { at ≤ length bytes.now }
    ensures value { result ≡ acquire_at bytes.now at }
    ensures within { IfOk result (λ read. read.1 ≤ length bytes.now) }
{
    let (owner, at) = read_name(bytes, at)?;
    let (ttl, at) = read_u32(bytes, at)?;
    Ok((LockOp::Acquire { owner, ttl }, at))
}

fn read_term(bytes: &[u8], at: usize) -> Result<((u64, u32), usize), FieldFault>
    requires { at ≤ length bytes.now }
    ensures value { result ≡ term_at bytes.now at }
    ensures within { IfOk result (λ read. read.1 ≤ length bytes.now) }
{
    let (fence, at) = read_u64(bytes, at)?;
    let (ttl, at) = read_u32(bytes, at)?;
    Ok(((fence, ttl), at))
}

fn read_renew(bytes: &[u8], at: usize) -> Result<(LockOp, usize), FieldFault>
    requires { at ≤ length bytes.now }
    ensures value { result ≡ renew_at bytes.now at }
    ensures within { IfOk result (λ read. read.1 ≤ length bytes.now) }
{
    let (owner, at) = read_name(bytes, at)?;
    let ((fence, ttl), at) = read_term(bytes, at)?;
    Ok((LockOp::Renew { owner, fence, ttl }, at))
}

fn read_release(bytes: &[u8], at: usize) -> Result<(LockOp, usize), FieldFault>
    requires { at ≤ length bytes.now }
    ensures value { result ≡ release_at bytes.now at }
    ensures within { IfOk result (λ read. read.1 ≤ length bytes.now) }
{
    let (owner, at) = read_name(bytes, at)?;
    let (fence, at) = read_u64(bytes, at)?;
    Ok((LockOp::Release { owner, fence }, at))
}

fn read_op(kind: u8, bytes: &[u8], at: usize) -> Result<(LockOp, usize), FieldFault>
    requires { at ≤ length bytes.now }
    ensures value { result ≡ op_at kind bytes.now at }
    ensures within { IfOk result (λ read. read.1 ≤ length bytes.now) }
{
    match kind {
        ACQUIRE => read_acquire(bytes, at),
        RENEW => read_renew(bytes, at),
        RELEASE => read_release(bytes, at),
        _ => Err(FieldFault::BadField { at: 0 }),
    }
}

/// The command in front, and the place after it.
#[tactic(auto, unfolding(crate::specs::Bytes::command_at))]
fn read_front(bytes: &[u8]) -> Result<(LockCommand, usize), FieldFault>
    ensures value { result ≡ command_at bytes.now }
    ensures within { IfOk result (λ read. read.1 ≤ length bytes.now) }
{
    let (kind, at) = read_u8(bytes, 0)?;
    let (seconds, at) = read_u32(bytes, at)?;
    let (op, at) = read_op(kind, bytes, at)?;
    let now = Moment(seconds);
    Ok((LockCommand { now, op }, at))
}

/// The command that these bytes are, all of them, if they are one. It takes no memory.
#[tactic(auto, unfolding(crate::specs::Bytes::lock_reading))]
pub fn read_lock_command(bytes: &[u8]) -> Option<LockCommand>
    ensures { result ≡ lock_reading bytes.now }
{
    match read_front(bytes) {
        Ok((command, at)) => {
            if at == bytes.len() {
                return Some(command);
            }
            None
        }
        Err(_) => None,
    }
}
