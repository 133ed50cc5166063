ghost use Rattle.std.specs.Prelude.{◌≡◌};
ghost use Rattle.bbs_model.specs.Tables.{no_rows};
ghost use Rattle.bbs_model.specs.Valid.{IsValid};

use super::boards::{board, desired};
use bbs_index::Index;
use bbs_model::{DomainRow, RowStore, Rows};
use diego_names::{Key, Name};
use lrp_records::Presence;
use std::alloc::Global;
use std::process::Abort;
use std::test::Fail;

fn come_out(rt: &impl Abort, alloc: Global, index: &Index, rows: &Rows) -> Result<(), Fail> {
    let again = index.rows(alloc)?;
    are_the_boards(rt, &again, rows);
    Ok(())
}

fn are_the_boards(rt: &impl Abort, again: &Rows, rows: &Rows) {
    assert_eq!(rt; again.desired.items(), rows.desired.items());
    assert_eq!(rt; again.actual.items(), rows.actual.items());
    assert_eq!(rt; again.cells.items(), rows.cells.items());
    assert_eq!(rt; again.domains.items(), rows.domains.items());
    assert!(rt; again.tasks.is_empty());
    assert_eq!(rt; again.next, 9);
}

// Checks that an index of the rows of the board gives them out, and tells the cell's claims.
fn is_told(rt: &impl Abort, alloc: Global, rows: &Rows) -> Result<(), Fail>
    requires { IsValid rows.now }
{
    let index = Index::of(alloc, rows)?;
    come_out(rt, alloc, &index, rows)
}

#[test]
fn the_rows_of_a_board_come_out_as_they_went_in(rt: HostRuntime) -> Result<(), Fail> {
    let alloc = rt.alloc();
    let rows = board(alloc)?;
    is_told(&rt, alloc, &rows)
}

fn are_claims(
    rt: &impl Abort,
    alloc: Global,
    index: &Index,
    cell: &Name,
    wanted: &[u32],
) -> Result<(), Fail> {
    let places = index.keys_on(alloc, cell)?;
    are_of_web(rt, places.items(), wanted);
    Ok(())
}

// Checks that these are the ORDINARY instances with these numbers.
fn are_of_web(rt: &impl Abort, places: &[(Key, Presence)], wanted: &[u32]) {
    assert_eq!(rt; places.len(), wanted.len());
    for ((key, presence), wanted) in places.iter().zip(wanted) {
        assert_eq!(rt; (key.process.as_str(), key.index), ("web", *wanted));
        assert_eq!(rt; *presence, Presence::Ordinary);
    }
}

fn board_claims_are(
    rt: &impl Abort,
    alloc: Global,
    rows: &Rows,
    cell: &Name,
    wanted: &[u32],
) -> Result<(), Fail>
    requires { IsValid rows.now }
{
    match Index::of(alloc, rows) {
        Ok(index) => are_claims(rt, alloc, &index, cell, wanted),
        Err(_) => Err(Fail::from("memory")),
    }
}

#[test]
fn the_claims_of_a_cell_are_told_in_the_order_of_their_keys(rt: HostRuntime) -> Result<(), Fail> {
    let alloc = rt.alloc();
    let cell = Name::read(b"c1")?;
    let rows = board(alloc)?;
    board_claims_are(&rt, alloc, &rows, &cell, &[0, 2])
}

// Puts a process twice, takes it away, and checks what is counted.
fn are_counted(rt: &impl Abort, index: &mut Index) -> Result<(), Fail>
    requires { index.old.rows ≡ no_rows }
{
    let web = Name::read(b"web")?;
    index.reserve(1)?;
    index.put_desired(desired(web, web, 3));
    index.put_desired(desired(web, web, 1));
    let counts = index.counts();
    assert_eq!(rt; (counts.desired, counts.wanted), (1, 1));
    index.remove_desired(&web);
    let counts = index.counts();
    assert_eq!(rt; (counts.desired, counts.wanted), (0, 0));
    Ok(())
}

#[test]
fn the_counts_follow_a_put_at_a_known_key_and_a_removal(rt: HostRuntime) -> Result<(), Fail> {
    let mut index = Index::new(rt.alloc());
    are_counted(&rt, &mut index)
}

fn vouched(domain: Name, until: Option<u64>) -> DomainRow {
    DomainRow { domain, until }
}

// The second at which the domain ends, where it is there.
fn end_of(index: &Index, domain: &Name) -> Option<Option<u64>> {
    match index.domain(domain) {
        Some(row) => Some(row.until),
        None => None,
    }
}

fn put(index: &mut Index, row: DomainRow) -> Result<(), Fail> {
    index.reserve(1)?;
    index.put_domain(row);
    Ok(())
}

// Puts a domain twice and takes it away, and checks what is found.
fn is_found(rt: &impl Abort, index: &mut Index) -> Result<(), Fail> {
    let apps = Name::read(b"apps")?;
    put(index, vouched(apps, Some(10)))?;
    put(index, vouched(apps, None))?;
    assert_eq!(rt; end_of(index, &apps), Some(None));
    index.remove_domain(&apps);
    assert_eq!(rt; end_of(index, &apps), None);
    Ok(())
}

#[test]
fn a_domain_is_found_as_it_was_put_last(rt: HostRuntime) -> Result<(), Fail> {
    let mut index = Index::new(rt.alloc());
    is_found(&rt, &mut index)
}
