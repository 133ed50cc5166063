//! Two threads at one pair, whose standby fails once in the middle.
use crate::asserts::{holds, is_number};
use crate::closing::{Played, follows};
use crate::making::{CALLS, prepared};
use crate::sharing::{Counts, share};
use bbs_model::Item;
use diego_names::Name;
use std::alloc::Global;
use std::process::Abort;
use std::sync::atomic::{AtomicU64, Ordering};
use std::test::Fail;

// The number of calls of both threads, all of which desire processes with names of their own.
const MANY: u16 = 1000;

// The last decimal digit.
fn digit(number: u16) -> u8 {
    b'0' + (number % 10) as u8
}

// The name of the process of this number: its four decimal digits.
fn name_of(number: u16) -> [u8; 4] {
    [
        digit(number / 1000),
        digit(number / 100),
        digit(number / 10),
        digit(number),
    ]
}

fn names(alloc: Global) -> Result<Vec<Name>, Fail> {
    let mut all = Vec::new(alloc);
    for number in 0..MANY {
        all.push(Name::read(&name_of(number))?)?;
    }
    Ok(all)
}

fn of_number(log: &[Item], number: u32) -> u64 {
    let mut count: u64 = 0;
    for item in log {
        if matches!(item, Item::Done(by, _) if *by == number) {
            count = count.saturating_add(1);
        }
    }
    count
}

fn are_halves(rt: &impl Abort, log: &[Item], copied: &[Item]) {
    is_number(rt, log.len() as u64, 1000);
    is_number(rt, of_number(log, 1), 500);
    is_number(rt, of_number(log, 2), 500);
    // What was in doubt stands there once more.
    is_number(rt, copied.len() as u64, 1001);
    holds(rt, follows(log, copied, None));
}

#[test]
fn two_threads_call_a_pair_whose_standby_fails_once(rt: HostRuntime) -> Result<(), Fail> {
    let alloc = rt.alloc();
    let names = names(alloc)?;
    let counts = Counts {
        acknowledged: AtomicU64::new(0),
        behind: AtomicU64::new(0),
    };
    let primary = prepared(alloc, &[])?;
    // The sync of the body of its 500th command fails.
    let standby = prepared(alloc, &[CALLS + 4 * 499 + 2])?;
    let Some(played) = share(&rt, alloc, primary, standby, &names, &counts) else {
        return Err(Fail::from("they are a pair"));
    };
    let Played {
        primary: _,
        standby: _,
        log,
        copied,
        missing,
        ended: _,
    } = played;
    holds(&rt, missing.is_none());
    is_number(&rt, counts.acknowledged.load(Ordering::SeqCst), 999);
    is_number(&rt, counts.behind.load(Ordering::SeqCst), 1);
    are_halves(&rt, &log, &copied);
    Ok(())
}
