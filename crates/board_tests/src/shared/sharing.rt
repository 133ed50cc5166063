//! Calls of a shared board, over any disk.
ghost use Rattle.std.specs.Prelude.{◌≡◌, ℕ, ◌<◌, All, length, slice_index_or};
ghost use Rattle.ticket_desk.specs.declared.pass.Pass.{Pass};
ghost use Rattle.bbs_shared.specs.Passes.{IsSame};
ghost use Rattle.ticket_desk.specs.Passes.{AreAll};

use bbs_board::Board;
use bbs_model::{CallFault, Command, Reply};
use bbs_shared::{BoardPass, SharedBoard};
use disk_trait::Disk;
use std::alloc::Global;
use std::sync::Wait;
use std::thread;
use std::thread::Threads;

/// What a call was answered.
pub type Answer = Result<Reply, CallFault>;

// The call of a pass, if there is one: that of number 1 comes first.
fn call_own<R: Wait, D: Disk>(
    rt: &R,
    shared: &SharedBoard<D>,
    pass: &mut BoardPass<D>,
    commands: &[Command],
)
    requires { pass.old.place.table_id ≡ shared.now.desk.table.shared.table_id }
    ensures { IsSame pass.old pass.new }
{
    for (index, command) in commands.iter().enumerate() {
        if index as u64 + 1 == pass.number() as u64 {
            let _answer = shared.call(rt, pass, *command);
        }
    }
}

fn call_at_once<R: Threads + Wait + Sync, D: Disk + Drop + Send>(
    rt: &R,
    shared: &SharedBoard<D>,
    passes: &mut [BoardPass<D>],
    commands: &[Command],
)
    requires some { 0 < length passes.old }
    requires board { All (λ p. p.place.table_id ≡ shared.now.desk.table.shared.table_id) passes.old }
    ensures { (k : ℕ) (d : Pass _ _ _) → k < length passes.old
        → IsSame (slice_index_or passes.old k d) (slice_index_or passes.new k d) }
{
    let threads = passes.len();
    thread::for_each_mut(
        rt,
        passes,
        threads,
        &|_, pass: &mut BoardPass<D>|
            requires { pass.now.place.table_id ≡ shared.now.desk.table.shared.table_id }
            ensures { IsSame pass.entry.now pass.exit.now }
        { call_own(rt, shared, pass, commands) },
    );
}

/// The board after these calls, each on a thread of its own, by the numbers from 1 on. The number 0
/// makes none.
pub fn called<R: Threads + Wait + Sync, D: Disk + Drop + Send>(
    rt: &R,
    alloc: Global,
    board: Board<D>,
    commands: &[Command],
) -> Option<Board<D>>
    requires { length commands.now < 4096 }
{
    let passes = commands.len() as u32 + 1;
    let Ok((shared, mut passes)) = SharedBoard::start(alloc, board, passes) else {
        return None;
    };
    call_at_once(rt, &shared, passes.as_mut_slice(), commands);
    Some(shared.close(passes))
}

// What the second is answered.
fn call_and_meet<R: Wait, D: Disk>(
    rt: &R,
    shared: &SharedBoard<D>,
    one: &mut BoardPass<D>,
    two: &mut BoardPass<D>,
    command: &Command,
) -> Answer
    requires one { one.old.place.table_id ≡ shared.now.desk.table.shared.table_id }
    requires two { two.old.place.table_id ≡ shared.now.desk.table.shared.table_id }
{
    let _first = shared.call(rt, one, *command);
    shared.meet(one, two);
    shared.call(rt, two, *command)
}

// The same by the last two of the passes, with the first of the commands.
fn last_two_meet<R: Wait, D: Disk>(
    rt: &R,
    shared: &SharedBoard<D>,
    mut passes: Vec<BoardPass<D>>,
    commands: &[Command],
) -> Option<Answer>
    requires { AreAll shared.now.desk.table.shared.table_id passes.items }
{
    let command = commands.first()?;
    let mut two = passes.pop()?;
    let mut one = passes.pop()?;
    Some(call_and_meet(rt, shared, &mut one, &mut two, command))
}

/// What the number 2 is answered that makes the first call, as the number 1 did, when they have met.
/// The board is let go.
pub fn called_twice<R: Wait, D: Disk + Drop>(
    rt: &R,
    alloc: Global,
    board: Board<D>,
    commands: &[Command],
) -> Option<Answer> {
    match SharedBoard::start(alloc, board, 3) {
        Ok((shared, passes)) => last_two_meet(rt, &shared, passes, commands),
        Err(_) => None,
    }
}
