//! The step of a command: whether it changes the state, and what is answered. It takes no memory.
ghost use Rattle.std.specs.Prelude.{◌≡◌, ◌+◌, ◌<◌, Some, None};
ghost use Rattle.locket.specs.Lives.{IsCounted};
ghost use Rattle.locket.specs.Steps as plain;
ghost use Rattle.locket.specs.declared.reply.LockRefusal.TheVariants as reasons;
ghost use Rattle.locket.specs.declared.reply.LockReply.TheVariants as answers;

use crate::command::{LockCommand, LockOp};
use crate::reply::{LockRefusal, LockReply};
use crate::state::{Lease, LockState};
use crate::verdict::LockVerdict;
use crash_backoff::Moment;
use diego_names::Name;

/// How many changes a locket makes in its life at most. Its journal is never shortened.
const MOST_CHANGES: u32 = 1_000_000;

fn refusing(why: LockRefusal) -> LockVerdict
    ensures { result ≡ plain.refusing why }
{
    LockVerdict::Stays(LockReply::Refused(why))
}

fn acknowledging(lease: &Lease) -> LockReply
    ensures { result ≡ answers.Ok lease.entry.now }
{
    LockReply::Ok { lease: *lease }
}

fn some_lease(lease: &Lease) -> Option<Lease>
    ensures { result ≡ Some lease.entry.now }
{
    Some(*lease)
}

/// The state after one change more.
fn changed(state: &LockState, now: Moment, last: u64, held: Option<Lease>) -> LockState
    requires { state.now.count < 1000000 }
    ensures { result ≡ plain.changed state.entry.now now last held }
{
    LockState {
        last,
        seen: now,
        held,
        count: state.count + 1,
    }
}

/// A lease with the next fence is given.
fn give(state: &LockState, now: Moment, owner: &Name, ttl: u32) -> LockVerdict
    requires { IsCounted state.now }
    ensures { result ≡ plain.given state.entry.now now owner.entry.now ttl }
{
    if state.count == MOST_CHANGES {
        return refusing(LockRefusal::LockFull);
    }
    let lease = Lease {
        owner: *owner,
        fence: state.last + 1,
        until: now.0 as u64 + ttl as u64,
    };
    let next = changed(state, now, lease.fence, some_lease(&lease));
    LockVerdict::Changes(next, acknowledging(&lease))
}

/// A lease that holds is asked for.
fn answer_taken(lease: &Lease, owner: &Name) -> LockVerdict
    ensures { result ≡ plain.taken lease.entry.now owner.entry.now }
{
    if lease.owner == *owner {
        return LockVerdict::Stays(LockReply::Same { lease: *lease });
    }
    refusing(LockRefusal::Held {
        by: lease.owner,
        until: lease.until,
    })
}

fn acquire(state: &LockState, now: Moment, owner: &Name, ttl: u32) -> LockVerdict
    requires { IsCounted state.now }
    ensures { result ≡ plain.acquired state.entry.now.held state.entry.now now owner.entry.now ttl }
{
    match &state.held {
        None => give(state, now, owner, ttl),
        Some(lease) => {
            if (now.0 as u64) < lease.until {
                return answer_taken(lease, owner);
            }
            give(state, now, owner, ttl)
        }
    }
}

/// The lease that wasn't released, if it is of that owner and has that fence.
fn own_lease(state: &LockState, owner: &Name, fence: u64) -> Option<Lease>
    ensures { result ≡ plain.own_lease state.entry.now.held owner.entry.now fence }
{
    match &state.held {
        None => None,
        Some(lease) => {
            if lease.owner == *owner && lease.fence == fence {
                return some_lease(lease);
            }
            None
        }
    }
}

fn not_holder(state: &LockState) -> LockVerdict
    ensures { result ≡ plain.refusing (reasons.NotHolder state.entry.now.last) }
{
    refusing(LockRefusal::NotHolder { last: state.last })
}

/// The same lease with another end.
fn ending(lease: &Lease, until: u64) -> Lease
    ensures { result ≡ plain.ending lease.entry.now until }
{
    Lease {
        owner: lease.owner,
        fence: lease.fence,
        until,
    }
}

/// The holder's lease is to end so many seconds from now.
fn renew(state: &LockState, lease: &Lease, now: Moment, ttl: u32) -> LockVerdict
    requires { IsCounted state.now }
    ensures { result ≡ plain.renewed (Some lease.entry.now) state.entry.now now ttl }
{
    if lease.until <= now.0 as u64 {
        return refusing(LockRefusal::Expired { until: lease.until });
    }
    let until = now.0 as u64 + ttl as u64;
    if lease.until == until {
        return LockVerdict::Stays(LockReply::Same { lease: *lease });
    }
    if state.count == MOST_CHANGES {
        return refusing(LockRefusal::LockFull);
    }
    let longer = ending(lease, until);
    let next = changed(state, now, state.last, some_lease(&longer));
    LockVerdict::Changes(next, acknowledging(&longer))
}

/// The holder gives its lease back.
fn release(state: &LockState, lease: &Lease, now: Moment) -> LockVerdict
    requires { IsCounted state.now }
    ensures { result ≡ plain.released (Some lease.entry.now) state.entry.now now }
{
    if state.count == MOST_CHANGES {
        return refusing(LockRefusal::LockFull);
    }
    let answer = LockReply::Released { fence: lease.fence };
    LockVerdict::Changes(changed(state, now, state.last, None), answer)
}

fn renew_own(state: &LockState, now: Moment, owner: &Name, fence: u64, ttl: u32) -> LockVerdict
    requires { IsCounted state.now }
    ensures { result ≡ plain.renewed (plain.own_lease state.entry.now.held owner.entry.now fence)
        state.entry.now now ttl }
{
    match own_lease(state, owner, fence) {
        None => not_holder(state),
        Some(lease) => renew(state, &lease, now, ttl),
    }
}

fn release_own(state: &LockState, now: Moment, owner: &Name, fence: u64) -> LockVerdict
    requires { IsCounted state.now }
    ensures { result ≡ plain.released (plain.own_lease state.entry.now.held owner.entry.now fence)
        state.entry.now now }
{
    match own_lease(state, owner, fence) {
        None => not_holder(state),
        Some(lease) => release(state, &lease, now),
    }
}

/// What a command comes to in a state.
#[tactic(auto, unfolding(crate::specs::Steps::lock_step))]
pub fn step(state: &LockState, command: &LockCommand) -> LockVerdict
    requires { IsCounted state.now }
    ensures { result ≡ plain.lock_step state.entry.now command.entry.now }
{
    let now = command.now;
    if now.0 < state.seen.0 {
        return refusing(LockRefusal::Past { seen: state.seen });
    }
    match &command.op {
        LockOp::Acquire { owner, ttl } => acquire(state, now, owner, *ttl),
        LockOp::Renew { owner, fence, ttl } => renew_own(state, now, owner, *fence, *ttl),
        LockOp::Release { owner, fence } => release_own(state, now, owner, *fence),
    }
}
