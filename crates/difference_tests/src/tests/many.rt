//! A process of a thousand instances, wanted and not, on a cell that ends.
ghost use Rattle.std.specs.Prelude.{◌≡◌};
ghost use Rattle.bbs_model.specs.Valid.{IsValid};
ghost use Rattle.differences.specs.Standing.{StandsFor};

use crate::indexes::{first_rows, go, listed_by};
use bbs_index::Index;
use bbs_model::{Command, Op, Rows, Verdict};
use cell_records::Amounts;
use crash_backoff::Moment;
use diego_names::{Instance, Key, Name};
use differences::Differences;
use lrp_records::Desired;
use std::alloc::Global;
use std::test::Fail;

#[derive(Clone, Copy)]
struct Names {
    cell: Name,
    web: Name,
    domain: Name,
}

fn join(cell: Name) -> Op {
    Op::Join {
        cell,
        zone: cell,
        tag: None,
        totals: Amounts {
            memory: 4096,
            disk: 16384,
            containers: 1000,
        },
        ttl: 600,
    }
}

fn desire(n: &Names, instances: u32) -> Op {
    Op::Desire {
        desired: Desired {
            process: n.web,
            domain: n.domain,
            instances,
            memory: 1,
            disk: 1,
            tag: None,
            route: None,
            port: 8080,
        },
    }
}

fn update(process: Name, instances: u32) -> Op {
    Op::Update {
        process,
        instances,
        route: None,
        port: 8080,
    }
}

fn key(process: Name, index: u32) -> Key {
    Key { process, index }
}

fn go_at(index: &mut Index, differences: &mut Differences, now: Moment, op: Op) -> Option<Verdict>
    requires valid { IsValid index.old.rows }
    requires stands { StandsFor differences.old index.old.rows }
    ensures valid { IsValid index.new.rows }
    ensures stands { StandsFor differences.new index.new.rows }
{
    let command = Command { now, op };
    go(index, differences, &command)
}

// What is listed behind an operation: how many commands, and by how many readings.
fn listed(
    alloc: Global,
    index: &mut Index,
    differences: &mut Differences,
    at: u32,
    op: Op,
) -> Option<(usize, u32)>
    requires valid { IsValid index.old.rows }
    requires stands { StandsFor differences.old index.old.rows }
    ensures valid { IsValid index.new.rows }
    ensures stands { StandsFor differences.new index.new.rows }
{
    let now = Moment(at);
    let _verdict = go_at(index, differences, now, op)?;
    listed_by(alloc, index, differences, now)
}

// An instance gets its row, and runs.
fn start(
    index: &mut Index,
    differences: &mut Differences,
    n: &Names,
    number: u32,
) -> Option<Verdict>
    requires valid { IsValid index.old.rows }
    requires stands { StandsFor differences.old index.old.rows }
    ensures valid { IsValid index.new.rows }
    ensures stands { StandsFor differences.new index.new.rows }
{
    let now = Moment(2);
    let made = Op::Make {
        key: key(n.web, number),
    };
    let _made = go_at(index, differences, now, made)?;
    let started = Op::Start {
        key: key(n.web, number),
        instance: Instance { epoch: 0, number },
        cell: n.cell,
    };
    go_at(index, differences, now, started)
}

fn start_all(index: &mut Index, differences: &mut Differences, n: &Names, count: u32) -> Option<u32>
    requires valid { IsValid index.old.rows }
    requires stands { StandsFor differences.old index.old.rows }
    ensures valid { IsValid index.new.rows }
    ensures stands { StandsFor differences.new index.new.rows }
{
    for number in 0..count {
        let _started = start(index, differences, n, number)?;
    }
    Some(count)
}

// What is listed as the process comes, grows to a thousand instances, and all of them run.
fn grow(
    alloc: Global,
    index: &mut Index,
    differences: &mut Differences,
    n: &Names,
) -> Option<[(usize, u32); 4]>
    requires valid { IsValid index.old.rows }
    requires stands { StandsFor differences.old index.old.rows }
    ensures valid { IsValid index.new.rows }
    ensures stands { StandsFor differences.new index.new.rows }
{
    let first = listed(alloc, index, differences, 0, join(n.cell))?;
    let second = listed(alloc, index, differences, 0, desire(n, 1))?;
    let third = listed(alloc, index, differences, 1, update(n.web, 1000))?;
    let _count = start_all(index, differences, n, 1000)?;
    let renew = Op::Renew {
        cell: n.cell,
        epoch: 0,
        ttl: 600,
    };
    let fourth = listed(alloc, index, differences, 3, renew)?;
    Some([first, second, third, fourth])
}

// What is listed as it is wanted in no instance, its domain is fresh, it is wanted again, and its cell ends.
fn shrink(
    alloc: Global,
    index: &mut Index,
    differences: &mut Differences,
    n: &Names,
) -> Option<[(usize, u32); 4]>
    requires valid { IsValid index.old.rows }
    requires stands { StandsFor differences.old index.old.rows }
{
    let domain = n.domain;
    let first = listed(alloc, index, differences, 4, update(n.web, 0))?;
    let second = listed(alloc, index, differences, 5, Op::Fresh { domain, ttl: 0 })?;
    let third = listed(alloc, index, differences, 6, update(n.web, 1000))?;
    let fourth = listed(alloc, index, differences, 700, update(n.web, 1000))?;
    Some([first, second, third, fourth])
}

type Listed = [(usize, u32); 4];

fn live(
    alloc: Global,
    index: &mut Index,
    differences: &mut Differences,
    n: &Names,
) -> Option<(Listed, Listed)>
    requires valid { IsValid index.old.rows }
    requires stands { StandsFor differences.old index.old.rows }
{
    let grown = grow(alloc, index, differences, n)?;
    let shrunk = shrink(alloc, index, differences, n)?;
    Some((grown, shrunk))
}

fn live_from(alloc: Global, rows: &Rows, n: &Names) -> Option<(Listed, Listed)>
    requires { IsValid rows.now }
{
    match Index::of(alloc, rows) {
        Err(_) => None,
        Ok(mut index) => match Differences::of(alloc, rows) {
            Err(_) => None,
            Ok(mut differences) => live(alloc, &mut index, &mut differences, n),
        },
    }
}

fn all_names() -> Result<Names, Fail> {
    Ok(Names {
        cell: Name::read(b"c1")?,
        web: Name::read(b"web")?,
        domain: Name::read(b"apps")?,
    })
}

#[test]
fn a_thousand_instances_are_listed_by_one_reading_each(rt: HostRuntime) -> Result<(), Fail> {
    let n = all_names()?;
    let rows = first_rows(rt.alloc());
    let grown = [(0, 0), (1, 1), (1000, 1000), (0, 0)];
    let shrunk = [(0, 0), (1000, 1000), (0, 0), (1001, 1000)];
    assert_eq!(rt; live_from(rt.alloc(), &rows, &n), Some((grown, shrunk)));
    Ok(())
}
