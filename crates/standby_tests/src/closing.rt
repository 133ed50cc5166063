//! What is left of boards and pairs that are closed.
use bbs_board::{Board, Closed};
use bbs_model::{Command, Item};
use disk_trait::Disk;
use standby_board::{ClosedPair, Pair};

/// What is left of a pair: both disks and both logs, what was missing, and whether each call ended as it had to.
#[derive(Drop)]
pub struct Played<D, E> {
    pub primary: D,
    pub standby: E,
    pub log: Vec<Item>,
    pub copied: Vec<Item>,
    pub missing: Option<Command>,
    pub ended: bool,
}

/// What is left of a pair that is closed.
pub fn closed<D: Disk, E: Disk>(pair: Pair<D, E>, ended: bool) -> Played<D, E> {
    let missing = pair.missing();
    let ClosedPair { primary, standby } = pair.close();
    left_of(primary, standby, missing, ended)
}

/// The same of two boards that were closed.
pub fn left_of<D, E>(
    primary: Closed<D>,
    standby: Closed<E>,
    missing: Option<Command>,
    ended: bool,
) -> Played<D, E> {
    let Closed {
        disk: primary,
        log,
        marks: _,
    } = primary;
    let Closed {
        disk: standby,
        log: copied,
        marks: _,
    } = standby;
    Played {
        primary,
        standby,
        log,
        copied,
        missing,
        ended,
    }
}

/// Whether the second log has what was done in the first, but for what is missing.
pub fn follows(log: &[Item], copied: &[Item], missing: Option<Command>) -> bool {
    let mut left = copied.iter().filter(|item| matches!(item, Item::Done(..)));
    let mut owed = missing;
    let mut all = true;
    for item in log {
        let Item::Done(by, command) = item else {
            continue;
        };
        all = match left.next() {
            Some(copy) => *copy == Item::Done(*by, *command) && all,
            None => owed.take() == Some(*command) && all,
        };
    }
    left.next().is_none() && owed.is_none() && all
}

/// Closes a board that isn't needed any more: what is left then is far less to drop than a board.
pub fn let_go<D: Disk + Drop>(board: Board<D>) {
    let Closed {
        disk: _,
        log: _,
        marks: _,
    } = board.close();
}

/// Closes a pair that isn't needed any more.
pub fn let_both_go<D: Disk + Drop, E: Disk + Drop>(pair: Pair<D, E>) {
    let ClosedPair { primary, standby } = pair.close();
    let Closed {
        disk: _,
        log: _,
        marks: _,
    } = primary;
    let Closed {
        disk: _,
        log: _,
        marks: _,
    } = standby;
}
