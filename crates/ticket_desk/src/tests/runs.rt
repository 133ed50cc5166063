//! Runs of many turns, by threads of their own.
ghost use Rattle.std.specs.Prelude.{◌≡◌, ℕ, ◌<◌, ◌≤◌, [], ◌∷◌, length};
ghost use Rattle.std.specs.Prelude.{All, IfSome, slice_index_or};
ghost use Rattle.ticket_desk.specs.declared.pass.Pass.{Pass};
ghost use Rattle.ticket_desk.specs.Passes.{IsPass, IsSamePass, AreAll};

use super::numbers::{Entry, Numbers};
use crate::desk::Desk;
use crate::history::History;
use crate::pass::PassOf;
use crate::start::start_at;
use std::alloc::Global;
use std::sync::Wait;
use std::thread;
use std::thread::{Threads, join};

/// One turn, which adds a number.
pub fn append<R: Wait>(
    rt: &R,
    desk: &Desk<Numbers>,
    pass: &mut PassOf<Numbers>,
    value: u32,
) -> Option<usize>
    requires { pass.old.place.table_id ≡ desk.now.table.shared.table_id }
    ensures { IsSamePass pass.old pass.new }
{
    let by = pass.number();
    desk.turn(rt, pass, |numbers: &mut Numbers| numbers.add(by, value))
}

fn run<R: Wait>(rt: &R, desk: &Desk<Numbers>, pass: &mut PassOf<Numbers>, turns: u32)
    requires { pass.old.place.table_id ≡ desk.now.table.shared.table_id }
    ensures { IsSamePass pass.old pass.new }
{
    for value in 0..turns {
        append(rt, desk, pass, value);
    }
}

fn ran<R: Wait>(
    rt: &R,
    desk: &Desk<Numbers>,
    mut pass: PassOf<Numbers>,
    turns: u32,
) -> PassOf<Numbers>
    requires { pass.place.table_id ≡ desk.now.table.shared.table_id }
    ensures { IsSamePass pass result }
{
    run(rt, desk, &mut pass, turns);
    pass
}

// The three passes of a desk.
fn three(
    desk: &Desk<Numbers>,
    mut passes: Vec<PassOf<Numbers>>,
) -> Option<(PassOf<Numbers>, PassOf<Numbers>, PassOf<Numbers>)>
    requires all { AreAll desk.now.table.shared.table_id passes.items }
    requires three { length passes.items ≡ 3 }
    ensures { IfSome result (λ t. let z = desk.now.table.shared.table_id in
        IsPass z 3 0 t.0 × IsPass z 3 1 t.1 × IsPass z 3 2 t.2) }
{
    let two = passes.pop()?;
    let one = passes.pop()?;
    let zero = passes.pop()?;
    Some((zero, one, two))
}

fn together(
    alloc: Global,
    zero: PassOf<Numbers>,
    one: PassOf<Numbers>,
    two: PassOf<Numbers>,
) -> Option<Vec<PassOf<Numbers>>>
    ensures { IfSome result (λ v. v.items ≡ zero ∷ one ∷ two ∷ []) }
{
    let mut passes = Vec::with_capacity(alloc, 3).ok()?;
    passes.push_reserved(zero);
    passes.push_reserved(one);
    passes.push_reserved(two);
    Some(passes)
}

// The entries that three passes of a desk leave.
fn left(
    alloc: Global,
    desk: Desk<Numbers>,
    zero: PassOf<Numbers>,
    one: PassOf<Numbers>,
    two: PassOf<Numbers>,
) -> Option<Vec<Entry>>
    requires { let z = desk.table.shared.table_id in
        IsPass z 3 0 zero × IsPass z 3 1 one × IsPass z 3 2 two }
{
    let passes = together(alloc, zero, one, two)?;
    Some(desk.close(passes).entries)
}

/// Two threads with so many turns each, and a third pass that has none. The words start at `from`.
pub fn run_two<R: Threads + Wait + Sync>(
    rt: &R,
    alloc: Global,
    turns: u32,
    from: u64,
) -> Option<Vec<Entry>> {
    let numbers = Numbers::new(alloc, 16).ok()?;
    let (desk, passes) = start_at(alloc, numbers, 3, from).ok()?;
    let (zero, one, two) = three(&desk, passes)?;
    let (one, two) = join(
        rt,
        || ran(rt, &desk, one, turns),
        || ran(rt, &desk, two, turns),
    );
    left(alloc, desk, zero, one, two)
}

fn all_run<R: Threads + Wait + Sync>(
    rt: &R,
    desk: &Desk<Numbers>,
    passes: &mut [PassOf<Numbers>],
    turns: u32,
)
    requires some { 0 < length passes.old }
    requires desk { All (λ p. p.place.table_id ≡ desk.now.table.shared.table_id) passes.old }
    ensures { (k : ℕ) (d : Pass _ _ _) → k < length passes.old
        → IsSamePass (slice_index_or passes.old k d) (slice_index_or passes.new k d) }
{
    let threads = passes.len();
    thread::for_each_mut(
        rt,
        passes,
        threads,
        &|_, pass: &mut PassOf<Numbers>|
            requires { pass.now.place.table_id ≡ desk.now.table.shared.table_id }
            ensures { IsSamePass pass.entry.now pass.exit.now }
        { run(rt, desk, pass, turns) },
    );
}

/// As many threads as seats, with so many turns each.
pub fn run_all<R: Threads + Wait + Sync>(
    rt: &R,
    alloc: Global,
    seats: u32,
    turns: u32,
) -> Option<Vec<Entry>>
    requires { (0 < seats) × (seats ≤ 4096) }
{
    let numbers = Numbers::new(alloc, 16).ok()?;
    let (desk, mut passes) = Desk::start(alloc, numbers, seats).ok()?;
    all_run(rt, &desk, passes.as_mut_slice(), turns);
    Some(desk.close(passes).entries)
}

/// Whether the numbers below `turns` stand there in order under `by`, each once, and no others do.
pub fn in_order(entries: &[Entry], by: u32, turns: u32) -> bool {
    let mut next = 0;
    for entry in entries {
        if entry.by == by {
            if next >= turns || entry.value != next {
                return false;
            }
            next += 1;
        }
    }
    next == turns
}

/// What two passes of a desk see, of which one hears the other: the second's turn reads the list
/// from its front.
pub fn heard<R: Wait>(rt: &R, alloc: Global) -> Option<(Option<Entry>, usize)> {
    let numbers = Numbers::new(alloc, 16).ok()?;
    let (desk, passes) = Desk::start(alloc, numbers, 3).ok()?;
    let (zero, mut one, mut two) = three(&desk, passes)?;
    append(rt, &desk, &mut one, 7)?;
    desk.meet(&mut one, &mut two);
    append(rt, &desk, &mut two, 8)?;
    let first = desk.turn(rt, &mut two, |numbers: &mut Numbers| numbers.first());
    let entries = left(alloc, desk, zero, one, two)?;
    Some((first, entries.len()))
}
