//! Pairs that make some calls and are closed. What owns a board or a pair has no other early end than that there is
//! none, and closes what it doesn't hand on.
ghost use Rattle.standby_board.specs.Pairs.{IsCalm};

use crate::closing::{Played, closed, left_of, let_both_go, let_go};
use bbs_board::{Board, load};
use bbs_model::{CallFault, Command, Reply};
use disk_trait::Disk;
use fenced_board::FencedReply;
use standby_board::{Pair, PairFault, PairReply, StartRefusal, Taken};
use std::alloc::Global;

/// How a call of a pair has ended.
pub type End = Result<PairReply, PairFault>;

/// A call with a number, and how it has to end.
#[derive(Clone, Copy)]
pub struct Called {
    pub fence: u64,
    pub command: Command,
    pub end: End,
}

/// The transition at this place, with this stamp.
pub fn done(place: u64, stamp: u64) -> End {
    Ok(PairReply::Reply(Reply::Ok { place, stamp }))
}

fn ends_so<D: Disk, E: Disk>(pair: &mut Pair<D, E>, call: &Called) -> bool {
    let end = pair.call(call.fence, 1, call.command);
    end == call.end
}

/// Whether these calls, by number 1, end so.
pub fn end_so<D: Disk, E: Disk>(pair: &mut Pair<D, E>, calls: &[Called]) -> bool {
    let mut all = true;
    for call in calls {
        all = ends_so(pair, call) && all;
    }
    all
}

fn started<D: Disk + Drop, E: Disk + Drop>(
    alloc: Global,
    primary: Board<D>,
    standby: Board<E>,
) -> Result<Pair<D, E>, StartRefusal>
    requires { IsCalm standby.log }
{
    match Pair::start(alloc, primary, standby, 1) {
        Ok(pair) => Ok(pair),
        Err((primary, standby, why)) => {
            let_go(primary);
            let_go(standby);
            Err(why)
        }
    }
}

fn started_with<D: Disk + Drop, E: Disk + Drop>(
    alloc: Global,
    primary: Board<D>,
    standby: E,
) -> Option<Result<Pair<D, E>, StartRefusal>> {
    match load(alloc, standby) {
        Ok(standby) => Some(started(alloc, primary, standby)),
        Err(_) => {
            let_go(primary);
            None
        }
    }
}

/// A pair of the boards that these disks hold, or why they become none. Nothing if one of them holds no board.
fn pair_of<D: Disk + Drop, E: Disk + Drop>(
    alloc: Global,
    primary: D,
    standby: E,
) -> Option<Result<Pair<D, E>, StartRefusal>> {
    match load(alloc, primary) {
        Ok(primary) => started_with(alloc, primary, standby),
        Err(_) => None,
    }
}

/// A pair of the boards that these disks hold.
pub fn paired<D: Disk + Drop, E: Disk + Drop>(
    alloc: Global,
    primary: D,
    standby: E,
) -> Option<Pair<D, E>> {
    match pair_of(alloc, primary, standby) {
        Some(Ok(pair)) => Some(pair),
        Some(Err(_)) => None,
        None => None,
    }
}

/// Why the boards that these disks hold don't become a pair.
pub fn refusal<D: Disk + Drop, E: Disk + Drop>(
    alloc: Global,
    primary: D,
    standby: E,
) -> Option<StartRefusal> {
    match pair_of(alloc, primary, standby) {
        Some(Ok(pair)) => {
            let_both_go(pair);
            None
        }
        Some(Err(why)) => Some(why),
        None => None,
    }
}

fn play_on<D: Disk, E: Disk>(mut pair: Pair<D, E>, calls: &[Called]) -> Played<D, E> {
    let ended = end_so(&mut pair, calls);
    closed(pair, ended)
}

/// What is left of a pair of the boards that these disks hold, when it has made these calls.
pub fn play<D: Disk + Drop, E: Disk + Drop>(
    alloc: Global,
    primary: D,
    standby: E,
    calls: &[Called],
) -> Option<Played<D, E>> {
    match paired(alloc, primary, standby) {
        Some(pair) => Some(play_on(pair, calls)),
        None => None,
    }
}

/// What the new board answers to a number.
pub type Answered = Result<FencedReply, CallFault>;

/// The new board makes two calls, with the old number and with the new one, and is closed.
fn goes_on<D: Disk, E: Disk>(
    taken: Taken<D, E>,
    missing: Option<Command>,
    command: &Command,
    (before, after): (Answered, Answered),
    so_far: bool,
) -> Played<D, E> {
    let Taken { mut board, old } = taken;
    let stale = board.call(1, 1, *command) == before;
    let ended = board.call(2, 1, *command) == after && stale && so_far;
    left_of(old, board.close(), missing, ended)
}

// The standby takes over with a number that is above all that were shown.
fn taken_with<D: Disk + Drop, E: Disk + Drop>(
    pair: Pair<D, E>,
    command: &Command,
    answers: (Answered, Answered),
    ended: bool,
) -> Option<Played<D, E>> {
    let missing = pair.missing();
    match pair.take_over(2) {
        Ok(taken) => Some(goes_on(taken, missing, command, answers, ended)),
        Err((pair, _)) => {
            let_both_go(pair);
            None
        }
    }
}

// The pair that is left where a number isn't above all that were shown.
fn refused<D: Disk + Drop, E: Disk + Drop>(pair: Pair<D, E>, number: u64) -> Option<Pair<D, E>> {
    match pair.take_over(number) {
        Ok(taken) => {
            let Taken { board, old } = taken;
            let _left = left_of(old, board.close(), None, false);
            None
        }
        Err((pair, _)) => Some(pair),
    }
}

fn called_and_taken<D: Disk + Drop, E: Disk + Drop>(
    mut pair: Pair<D, E>,
    calls: &[Called],
    then: (Command, (Answered, Answered)),
) -> Option<Played<D, E>> {
    let ended = end_so(&mut pair, calls);
    match refused(pair, 1) {
        Some(pair) => taken_with(pair, &then.0, then.1, ended),
        None => None,
    }
}

/// A pair of the boards that these disks hold makes these calls. Then its standby takes over with number 2, but not
/// with 1, the greatest that was shown.
pub fn hand_over<D: Disk + Drop, E: Disk + Drop>(
    alloc: Global,
    primary: D,
    standby: E,
    calls: &[Called],
    then: (Command, (Answered, Answered)),
) -> Option<Played<D, E>> {
    match paired(alloc, primary, standby) {
        Some(pair) => called_and_taken(pair, calls, then),
        None => None,
    }
}
