//! The rows of one table, read one by one.
ghost use Rattle.std.specs.Prelude.{◌≡◌, ◌≤◌, ◌++◌, ◌∷◌, [], true, Ok, length, min, ◌/◌, IfOk, IfErr};
ghost use Rattle.head_codec.specs.Head.{may_follow, row_kept, head_rows_at};
ghost use Rattle.head_codec.specs.Seen.{IsSeen, BlamesHead, TellsHead};

use crate::fault::HeadFault;
use crate::kept::HeadRow;
use crate::seen::{is_next, note};
use bbs_codec::CodecFault;
use diego_names::{List, OutOfMemory};
use std::alloc::Global;
use std::collections::BTreeSet;

/// No row takes fewer bytes than a domain of one letter that has no end: its length, its letter, and that it has none.
const LEAST_ROW: usize = 3;

/// The rows that were read, and what tells whether a further one may follow them.
#[derive(Drop)]
pub struct Table<X> {
    pub rows: List<X>,
    pub last: Option<X>,
    pub wanted: u32,
    pub stamps: BTreeSet<u64>,
}

/// Puts a row behind the others, where it may stand there.
fn keep<X: HeadRow>(table: &mut Table<X>, next: u64, row: &X) -> Result<bool, OutOfMemory>
    requires { IsSeen X.Key.cmp X.key X.keeps
        table.old.rows table.old.last table.old.wanted table.old.stamps }
    ensures kept { IfOk result (λ kept.
        kept ≡ may_follow X.Key.cmp X.key X.keeps next table.old.rows row.entry.now) }
    ensures rows { IfOk result (λ kept. kept ≡ true →
        table.new.rows ≡ table.old.rows ++ row.entry.now ∷ []) }
    ensures seen { IfOk result (λ kept. kept ≡ true → IsSeen X.Key.cmp X.key X.keeps
        table.new.rows table.new.last table.new.wanted table.new.stamps) }
{
    if !is_next(table.rows.items(), &table.last, table.wanted, next, row) {
        return Ok(false);
    }
    if !note(&mut table.stamps, row)? {
        return Ok(false);
    }
    table.wanted += row.wants();
    table.last = Some(*row);
    table.rows.push(*row)?;
    Ok(true)
}

/// Reads one row more, and gives the place behind it.
fn read_row<X: HeadRow>(
    table: &mut Table<X>,
    bytes: &[u8],
    version: u16,
    next: u64,
    at: usize,
) -> Result<usize, HeadFault>
    requires place { at ≤ length bytes.now }
    requires seen { IsSeen X.Key.cmp X.key X.keeps
        table.old.rows table.old.last table.old.wanted table.old.stamps }
    ensures ok { IfOk result (λ after. row_kept (may_follow X.Key.cmp X.key X.keeps next)
        (table.old.rows, at) ((X.formats version).read bytes.now at)
        ≡ Ok (table.new.rows, after)) }
    ensures err { IfErr result (λ fault. BlamesHead fault
        (row_kept (may_follow X.Key.cmp X.key X.keeps next)
        (table.old.rows, at) ((X.formats version).read bytes.now at))) }
    ensures seen { IfOk result (λ after. IsSeen X.Key.cmp X.key X.keeps
        table.new.rows table.new.last table.new.wanted table.new.stamps) }
    ensures within { IfOk result (λ after. after ≤ length bytes.now) }
{
    match X::read_in(bytes, version, at) {
        Ok((row, after)) => {
            if keep(table, next, &row)? {
                Ok(after)
            } else {
                Err(HeadFault::Codec(CodecFault::BadField { at }))
            }
        }
        Err(_) => Err(HeadFault::Codec(CodecFault::BadField { at })),
    }
}

/// For how many rows room is made: as many as are told, as a table may have, and as so many bytes hold. So a
/// count that lies takes no more room than one that is true of these bytes.
fn room_for<X: HeadRow>(count: u32, bytes: usize) -> usize
    ensures { result ≡ min (min count X.keeps.most) (bytes / 3) }
{
    (count as usize).min(X::most()).min(bytes / LEAST_ROW)
}

/// A table without rows, which has room for so many.
fn empty_table<X: HeadRow>(alloc: Global, room: usize) -> Result<Table<X>, OutOfMemory>
    ensures none { IfOk result (λ table. table.rows ≡ []) }
    ensures seen { IfOk result (λ table. IsSeen X.Key.cmp X.key X.keeps
        table.rows table.last table.wanted table.stamps) }
{
    let rows = Vec::with_capacity(alloc, room)?;
    Ok(Table {
        rows: List::from(rows),
        last: None,
        wanted: 0,
        stamps: BTreeSet::new(alloc),
    })
}

/// Reads so many rows behind those of the table, and gives the place behind them.
fn read_more<X: HeadRow>(
    table: &mut Table<X>,
    bytes: &[u8],
    version: u16,
    next: u64,
    count: u32,
    at: usize,
) -> Result<usize, HeadFault>
    requires place { at ≤ length bytes.now }
    requires seen { IsSeen X.Key.cmp X.key X.keeps
        table.old.rows table.old.last table.old.wanted table.old.stamps }
    ensures ok { IfOk result (λ after. head_rows_at (X.formats version).read
        (may_follow X.Key.cmp X.key X.keeps next) count bytes.now (table.old.rows, at)
        ≡ Ok (table.new.rows, after)) }
    ensures err { IfErr result (λ fault. BlamesHead fault (head_rows_at (X.formats version).read
        (may_follow X.Key.cmp X.key X.keeps next) count bytes.now (table.old.rows, at))) }
    ensures within { IfOk result (λ after. after ≤ length bytes.now) }
{
    let mut place = at;
    for _row in 0..count {
        place = read_row(table, bytes, version, next, place)?;
    }
    Ok(place)
}

/// Reads so many rows of a head of this version from a place on, and gives the place behind them.
pub fn read_rows<X: HeadRow>(
    alloc: Global,
    bytes: &[u8],
    version: u16,
    next: u64,
    count: u32,
    at: usize,
) -> Result<(List<X>, usize), HeadFault>
    requires { at ≤ length bytes.now }
    ensures told { TellsHead result (head_rows_at (X.formats version).read
        (may_follow X.Key.cmp X.key X.keeps next) count bytes.now ([], at)) }
    ensures within { IfOk result (λ read. read.1 ≤ length bytes.now) }
{
    let room = room_for::<X>(count, bytes.len() - at);
    let mut table = empty_table(alloc, room)?;
    let place = read_more(&mut table, bytes, version, next, count, at)?;
    let Table { rows, .. } = table;
    Ok((rows, place))
}
