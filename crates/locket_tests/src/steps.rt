//! The step of a command on both sides of each bound.
ghost use Rattle.std.specs.Prelude.{◌≡◌, ◌≤◌, IfOk};
ghost use Rattle.locket.specs.Lives.{IsCounted};

use crate::asserts::is_verdict;
use crate::making::{acquire, release, renew};
use crash_backoff::Moment;
use diego_names::Name;
use locket::{Lease, LockCommand, LockRefusal, LockReply, LockState, LockVerdict, step};
use std::process::Abort;
use std::test::Fail;

// A state with the lease of `bbs-1` and fence 3, up to 20, after so many changes, the last of which was at 10.
fn held_after(count: u32) -> Result<LockState, Fail>
    requires { (3 ≤ count) × (count ≤ 1000000) }
    ensures { IfOk result IsCounted }
{
    let owner = Name::read(b"bbs-1")?;
    let held = Some(Lease {
        owner,
        fence: 3,
        until: 20,
    });
    Ok(LockState {
        last: 3,
        seen: Moment(10),
        held,
        count,
    })
}

// The same without a lease.
fn free_after(count: u32) -> LockState
    requires { (3 ≤ count) × (count ≤ 1000000) }
    ensures { IsCounted result }
{
    LockState {
        last: 3,
        seen: Moment(10),
        held: None,
        count,
    }
}

fn lease_of(owner: &[u8], fence: u64, until: u64) -> Result<Lease, Fail> {
    let owner = Name::read(owner)?;
    Ok(Lease {
        owner,
        fence,
        until,
    })
}

fn refused(why: LockRefusal) -> LockVerdict {
    LockVerdict::Stays(LockReply::Refused(why))
}

fn same(lease: Lease) -> LockVerdict {
    LockVerdict::Stays(LockReply::Same { lease })
}

fn some_lease(lease: &Lease) -> Option<Lease> {
    Some(*lease)
}

fn given(lease: &Lease) -> LockReply {
    LockReply::Ok { lease: *lease }
}

// A change at this moment to a state with this lease.
fn gives(now: u32, last: u64, lease: &Lease, count: u32) -> LockVerdict {
    let next = LockState {
        last,
        seen: Moment(now),
        held: some_lease(lease),
        count,
    };
    LockVerdict::Changes(next, given(lease))
}

fn releases(now: u32, count: u32) -> LockVerdict {
    let next = LockState {
        last: 3,
        seen: Moment(now),
        held: None,
        count,
    };
    LockVerdict::Changes(next, LockReply::Released { fence: 3 })
}

fn are_verdicts(rt: &impl Abort, state: &LockState, cases: &[(LockCommand, LockVerdict)])
    requires { IsCounted state.now }
{
    for (row, (command, verdict)) in cases.iter().enumerate() {
        is_verdict(rt, row, step(state, command), *verdict);
    }
}

#[test]
fn a_lease_that_is_held_is_judged_on_both_sides_of_its_end(rt: HostRuntime) -> Result<(), Fail> {
    let state = held_after(7)?;
    let by = Name::read(b"bbs-1")?;
    let lease = lease_of(b"bbs-1", 3, 20)?;
    let held = refused(LockRefusal::Held { by, until: 20 });
    let not_holder = refused(LockRefusal::NotHolder { last: 3 });
    let expired = refused(LockRefusal::Expired { until: 20 });
    let past = refused(LockRefusal::Past { seen: Moment(10) });
    let cases: [(LockCommand, LockVerdict); 18] = [
        // Before the last change, and at its moment.
        (acquire(9, b"bbs-2", 5)?, past),
        (renew(9, b"bbs-1", 3, 5)?, past),
        (release(9, b"bbs-1", 3)?, past),
        (release(10, b"bbs-1", 3)?, releases(10, 8)),
        // Up to its end another owner is refused, and its own has it already.
        (acquire(10, b"bbs-2", 5)?, held),
        (acquire(19, b"bbs-2", 5)?, held),
        (
            acquire(20, b"bbs-2", 5)?,
            gives(20, 4, &lease_of(b"bbs-2", 4, 25)?, 8),
        ),
        (acquire(19, b"bbs-1", 5)?, same(lease)),
        (
            acquire(20, b"bbs-1", 5)?,
            gives(20, 4, &lease_of(b"bbs-1", 4, 25)?, 8),
        ),
        // Another owner, and another fence.
        (renew(19, b"bbs-2", 3, 5)?, not_holder),
        (renew(19, b"bbs-1", 2, 5)?, not_holder),
        (release(19, b"bbs-2", 3)?, not_holder),
        (release(19, b"bbs-1", 4)?, not_holder),
        // Its end stays, moves either way, and can't be moved once it has come.
        (renew(19, b"bbs-1", 3, 1)?, same(lease)),
        (
            renew(19, b"bbs-1", 3, 2)?,
            gives(19, 3, &lease_of(b"bbs-1", 3, 21)?, 8),
        ),
        (
            renew(19, b"bbs-1", 3, 0)?,
            gives(19, 3, &lease_of(b"bbs-1", 3, 19)?, 8),
        ),
        (renew(20, b"bbs-1", 3, 5)?, expired),
        // It may be released behind its end.
        (release(21, b"bbs-1", 3)?, releases(21, 8)),
    ];
    are_verdicts(&rt, &state, &cases);
    Ok(())
}

#[test]
fn a_lease_that_was_released_leaves_its_fence(rt: HostRuntime) -> Result<(), Fail> {
    let state = free_after(7);
    let not_holder = refused(LockRefusal::NotHolder { last: 3 });
    let cases: [(LockCommand, LockVerdict); 5] = [
        (renew(11, b"bbs-1", 3, 5)?, not_holder),
        (release(11, b"bbs-1", 3)?, not_holder),
        (
            acquire(10, b"bbs-1", 5)?,
            gives(10, 4, &lease_of(b"bbs-1", 4, 15)?, 8),
        ),
        // A lease may end as it begins, and the longest ends beyond the last moment.
        (
            acquire(11, b"bbs-1", 0)?,
            gives(11, 4, &lease_of(b"bbs-1", 4, 11)?, 8),
        ),
        (
            acquire(4_294_967_295, b"bbs-1", 4_294_967_295)?,
            gives(4_294_967_295, 4, &lease_of(b"bbs-1", 4, 8_589_934_590)?, 8),
        ),
    ];
    are_verdicts(&rt, &state, &cases);
    Ok(())
}

#[test]
fn a_locket_is_full_after_a_million_changes(rt: HostRuntime) -> Result<(), Fail> {
    let full = refused(LockRefusal::LockFull);
    let lease = lease_of(b"bbs-1", 3, 20)?;
    let last: [(LockCommand, LockVerdict); 1] = [(
        release(12, b"bbs-1", 3)?,
        releases(12, 1_000_000),
    )];
    are_verdicts(&rt, &held_after(999_999)?, &last);
    let cases: [(LockCommand, LockVerdict); 6] = [
        (acquire(20, b"bbs-2", 5)?, full),
        (renew(12, b"bbs-1", 3, 9)?, full),
        (release(12, b"bbs-1", 3)?, full),
        // Other answers come first.
        (acquire(12, b"bbs-1", 5)?, same(lease)),
        (renew(12, b"bbs-1", 3, 8)?, same(lease)),
        (
            release(12, b"bbs-2", 3)?,
            refused(LockRefusal::NotHolder { last: 3 }),
        ),
    ];
    are_verdicts(&rt, &held_after(1_000_000)?, &cases);
    Ok(())
}
