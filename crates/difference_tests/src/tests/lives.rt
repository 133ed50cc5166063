//! Lives of boards by chance: after each command the board lists what is worked out of all its rows, at moments
//! round each at which something comes due. So it does where it is loaded again.
ghost use Rattle.bbs_model.specs.Valid.{IsValid};

use crate::boards::{begun, disk_in, lists_at, loaded, step};
use crate::dice::Dice;
use crate::kinds::{EVERY_KIND, Legal};
use crate::names::{Names, all_names};
use bbs_board::Board;
use bbs_model::Rows;
use crash_backoff::due_at;
use disk_trait::{Disk, MemoryDisk};
use std::alloc::Global;
use std::test::Fail;

// The lengths after which something comes due, and moments beside them.
const LATER: [u32; 12] = [0, 1, 29, 30, 31, 119, 120, 121, 1799, 1800, 1801, 100000];

// Just before a second, at it, and just after it.
fn lists_round<D: Disk>(alloc: Global, board: &Board<D>, rows: &Rows, at: u64) -> bool
    requires { IsValid rows.now }
{
    lists_at(alloc, board, rows, at.saturating_sub(1))
        && lists_at(alloc, board, rows, at)
        && lists_at(alloc, board, rows, at.saturating_add(1))
}

fn lists_round_leases<D: Disk>(alloc: Global, board: &Board<D>, rows: &Rows) -> bool
    requires { IsValid rows.now }
{
    let mut same = true;
    for row in rows.cells.items() {
        same = lists_round(alloc, board, rows, row.until) && same;
    }
    same
}

fn lists_round_domains<D: Disk>(alloc: Global, board: &Board<D>, rows: &Rows) -> bool
    requires { IsValid rows.now }
{
    let mut same = true;
    for row in rows.domains.items() {
        same = lists_round(alloc, board, rows, row.until.unwrap_or(0)) && same;
    }
    same
}

fn lists_round_waits<D: Disk>(alloc: Global, board: &Board<D>, rows: &Rows) -> bool
    requires { IsValid rows.now }
{
    let mut same = true;
    for row in rows.actual.items() {
        let at = due_at(row.since, row.count).unwrap_or(0);
        same = lists_round(alloc, board, rows, at) && same;
    }
    same
}

fn lists_later<D: Disk>(alloc: Global, board: &Board<D>, rows: &Rows, now: u32) -> bool
    requires { IsValid rows.now }
{
    let mut same = true;
    for later in &LATER {
        let at = now as u64 + *later as u64;
        same = lists_at(alloc, board, rows, at) && same;
    }
    same
}

// Whether the lists are right round each second at which a lease, a domain or a wait ends, and later.
fn lists_all<D: Disk>(alloc: Global, board: &Board<D>, now: u32) -> bool {
    match board.rows(alloc) {
        Err(_) => false,
        Ok(rows) => {
            lists_round_leases(alloc, board, &rows)
                && lists_round_domains(alloc, board, &rows)
                && lists_round_waits(alloc, board, &rows)
                && lists_later(alloc, board, &rows, now)
        }
    }
}

// Which of these many commands were legal, where the lists were right behind each.
fn live<D: Disk>(
    alloc: Global,
    board: &mut Board<D>,
    dice: &mut Dice,
    n: &Names,
    count: u32,
) -> Option<Legal> {
    let mut legal = Legal::none();
    let mut now = 0;
    for _ in 0..count {
        let (command, is_done) = step(alloc, board, dice, n, now)?;
        now = command.now.0;
        if is_done {
            legal = legal.with(&command.op);
            if !lists_all(alloc, board, now) {
                return None;
            }
        }
    }
    Some(legal)
}

// The life of a board, and the disk that it leaves.
fn life<D: Disk + Drop>(
    alloc: Global,
    disk: D,
    n: &Names,
    seed: u64,
    count: u32,
) -> Result<(Option<Legal>, D), Fail> {
    let mut board = begun(alloc, disk)?;
    let mut dice = Dice { seed };
    let legal = live(alloc, &mut board, &mut dice, n, count);
    Ok((legal, disk_in(board)))
}

// Whether the lists of the board on a disk are right.
fn lists_again<D: Disk + Drop>(alloc: Global, disk: D) -> Result<bool, Fail> {
    let board = loaded(alloc, disk)?;
    let same = lists_all(alloc, &board, 0);
    let _disk = disk_in(board);
    Ok(same)
}

// Which commands of a life were legal; none where a list was wrong, also where the board was loaded again.
fn lived(alloc: Global, n: &Names, seed: u64) -> Result<Option<Legal>, Fail> {
    let disk = MemoryDisk::new(alloc, Vec::new(alloc), Vec::new(alloc), Vec::new(alloc));
    let (legal, disk) = life(alloc, disk, n, seed, 600)?;
    if lists_again(alloc, disk)? {
        Ok(legal)
    } else {
        Ok(None)
    }
}

#[test]
fn a_board_lists_what_is_worked_out_of_all_its_rows(rt: HostRuntime) -> Result<(), Fail> {
    let n = all_names()?;
    let mut all = Legal::none();
    for seed in [1, 2, 3] {
        let legal = lived(rt.alloc(), &n, seed)?;
        assert!(rt; legal.is_some());
        all = all.and(legal.unwrap_or(Legal::none()));
    }
    assert!(rt; all.count > 300);
    assert_eq!(rt; all.kinds, EVERY_KIND);
    Ok(())
}
