//! The list is halved at each step. Where both halves have something to do, one of them goes to another
//! thread; else both stay on this one.
ghost use Rattle.std.specs.Fork.{AcceptsAt, ChangesAt, AcceptsEach, ChangesEach};
ghost use Rattle.busy_threads.specs.Places.{AreReady, AreChanged};
ghost use denote.Param.Send.{IsSync, IsSend};

use std::thread;
use std::thread::Threads;

// Whether a place from `base` on, of so many, has something to do.
fn is_any(busy: &[bool], base: usize, count: usize) -> bool {
    busy.iter().skip(base).take(count).any(|is_busy| *is_busy)
}

fn at_one<T, F: Fn(usize, &mut T)>(f: &F, at: usize, it: &mut T)
    requires { AcceptsAt F.Fn f.now at it.old }
    ensures { ChangesAt F.Fn f.now at it.old it.new }
{
    f(at, it);
}

// The places of a part of the list, which begins at `base` of the whole. The part is the last parameter
// since a closure can't read a captured `&` after it lends a captured `&mut`.
#[cycle(halves)]
fn each_from<R: Threads + Sync, T: Send, F: Fn(usize, &mut T) + Sync>(
    rt: &R,
    f: &F,
    busy: &[bool],
    base: usize,
    part: &mut [T],
)
    requires { AreReady (AcceptsAt F.Fn f.now) base part.old }
    ensures { AreChanged (ChangesAt F.Fn f.now) base part.old part.new }
{
    let count = part.len();
    if count == 1 {
        at_one(f, base, &mut part[0]);
        return;
    }
    let low = count / 2;
    let middle = base + low;
    let is_split = is_any(busy, base, low) && is_any(busy, middle, count - low);
    let (front, back) = part.split_at_mut(low);
    if is_split {
        both_at_once(rt, f, busy, base, front, middle, back);
    } else {
        each_from(rt, f, busy, base, front);
        each_from(rt, f, busy, middle, back);
    }
}

// Two parts at once, the first of them on another thread where one can be had.
#[cycle(halves)]
fn both_at_once<R: Threads + Sync, T: Send, F: Fn(usize, &mut T) + Sync>(
    rt: &R,
    f: &F,
    busy: &[bool],
    base: usize,
    front: &mut [T],
    middle: usize,
    back: &mut [T],
)
    requires front { AreReady (AcceptsAt F.Fn f.now) base front.old }
    requires back { AreReady (AcceptsAt F.Fn f.now) middle back.old }
    ensures front { AreChanged (ChangesAt F.Fn f.now) base front.old front.new }
    ensures back { AreChanged (ChangesAt F.Fn f.now) middle back.old back.new }
{
    let mut first = ||
        requires { IsSync R.row × IsSync F.row × IsSend T.row
            × AreReady (AcceptsAt F.Fn f.now) base front.now }
        ensures { AreChanged (ChangesAt F.Fn f.entry.now) base front.entry.now front.exit.now }
    { each_from(rt, f, busy, base, front) };
    let mut second = ||
        requires { IsSync R.row × IsSync F.row × IsSend T.row
            × AreReady (AcceptsAt F.Fn f.now) middle back.now }
        ensures { AreChanged (ChangesAt F.Fn f.entry.now) middle back.entry.now back.exit.now }
    { each_from(rt, f, busy, middle, back) };
    thread::join_mut(rt, &mut first, &mut second);
}

/// Calls `f` at each place, with its number from 0. Places that are busy run at once, each on a thread of
/// its own where the system gives one; the others cost no thread. `busy` says of each number whether that
/// place is; a number beyond its end is not.
pub fn for_each_busy<R: Threads + Sync, T: Send, F: Fn(usize, &mut T) + Sync>(
    rt: &R,
    all: &mut [T],
    busy: &[bool],
    f: &F,
)
    requires { AcceptsEach F.Fn f.now all.old }
    ensures { ChangesEach F.Fn f.now all.old all.new }
{
    if !all.is_empty() {
        each_from(rt, f, busy, 0, all);
    }
}
