//! The rows of the head of an area.
ghost use Rattle.std.specs.Prelude.{◌≡◌, ◌⊎◌, ◌+◌, ◌<◌, ◌^◌, length, map, IfOk};
ghost use Rattle.bbs_model.specs.Valid.{IsValid};
ghost use Rattle.head_codec.specs.Head.{fault_place};
ghost use Rattle.bbs_board.specs.Opening.{rows_in, settled, with_domain, with_domains, Gives};

use crate::storage::OLD;
use bbs_codec::CodecFault;
use bbs_index::Index;
use bbs_journal::LoadFault;
use bbs_model::{RowStore, Rows};
use diego_names::{List, OutOfMemory};
use disk_trait::Area;
use head_codec::{HeadFault, read_head};
use lrp_records::Actual;
use std::alloc::Global;

/// The place of the head in an area.
pub const HEAD: u64 = 23;

fn fault_place(fault: CodecFault) -> usize
    ensures { result ≡ fault_place fault }
{
    match fault {
        CodecFault::Short { at } => at,
        CodecFault::BadKind { at } => at,
        CodecFault::BadField { at } => at,
        CodecFault::Trailing { at } => at,
    }
}

/// The row with the domain of its process among the rows of an index, or without one where that isn't
/// desired.
fn with_domain(index: &Index, row: Actual) -> Actual
    ensures { result ≡ with_domain index.now.rows row }
{
    let domain = match index.desired(&row.key.process) {
        Some(desired) => Some(desired.domain),
        None => None,
    };
    Actual { domain, ..row }
}

/// These rows, each with the domain of its process among the rows of an index.
fn with_domains(alloc: Global, index: &Index, rows: &[Actual]) -> Result<Vec<Actual>, OutOfMemory>
    ensures { IfOk result (λ list. list.items ≡ map (with_domain index.now.rows) rows.entry.now) }
{
    let mut list = Vec::new(alloc);
    for row in rows {
        list.push(with_domain(index, *row))?;
    }
    Ok(list)
}

/// The rows of an old head with the domain of its process in each actual row, under an index. It is
/// done once in a board's life, so it makes an index of the rows as they were to look the processes up.
fn index_with_domains(alloc: Global, rows: Rows) -> Result<Index, OutOfMemory>
    requires { IsValid rows }
    ensures rows { IfOk result (λ index. index.rows ≡ with_domains rows) }
    ensures valid { IfOk result (λ index. IsValid index.rows) }
{
    let index = Index::of(alloc, &rows)?;
    let actual = with_domains(alloc, &index, rows.actual.items())?;
    let settled = Rows {
        actual: List::from(actual),
        ..rows
    };
    Index::of(alloc, &settled)
}

/// The rows that a board begins with under an index, by those of a head of this version.
fn index_of(alloc: Global, version: u16, rows: Rows) -> Result<Index, OutOfMemory>
    requires { IsValid rows }
    ensures rows { IfOk result (λ index. index.rows ≡ settled version rows) }
    ensures valid { IfOk result (λ index. IsValid index.rows) }
{
    if version == OLD {
        return index_with_domains(alloc, rows);
    }
    Index::of(alloc, &rows)
}

/// The rows of the head of an area of this version under an index, or the first defect of the head.
pub fn rows_in(alloc: Global, version: u16, area: Area, head: &[u8]) -> Result<Index, LoadFault>
    requires read { (version ≡ 1) ⊎ (version ≡ 2) }
    requires within { 23 + length head.now < 2 ^ 64 }
    ensures gives { Gives result (rows_in version area head.now) }
    ensures valid { IfOk result (λ index. IsValid index.rows) }
{
    let rows = match read_head(alloc, head, version) {
        Ok(rows) => rows,
        Err(HeadFault::OutOfMemory) => return Err(LoadFault::OutOfMemory),
        Err(HeadFault::Codec(fault)) => {
            let at = HEAD + fault_place(fault) as u64;
            return Err(LoadFault::Damaged { area, at });
        }
    };
    match index_of(alloc, version, rows) {
        Ok(index) => Ok(index),
        Err(_) => Err(LoadFault::OutOfMemory),
    }
}
