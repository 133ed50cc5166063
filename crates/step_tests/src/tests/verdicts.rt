//! What a desire comes to on two boards.
ghost use Rattle.std.specs.Prelude.{◌≡◌, ◌≤◌, IfOk, None};
ghost use Rattle.bbs_model.specs.Limits.{most_transitions};
ghost use Rattle.bbs_model.specs.Valid.{IsValid};

use bbs_index::Index;
use bbs_model::{BoardRefusal, Command, Op, Rows, Verdict};
use bbs_transitions::decide;
use crash_backoff::Moment;
use diego_names::{List, Name};
use lrp_records::Desired;
use std::alloc::Global;
use std::test::Fail;

// A process that wants so many instances.
fn process(process: Name, instances: u32) -> Desired
    ensures { result ≡ record {
      process = process;
      domain = process;
      instances = instances;
      memory = 64;
      disk = 128;
      tag = None;
      route = None;
      port = 8080;
    } }
{
    Desired {
        process,
        domain: process,
        instances,
        memory: 64,
        disk: 128,
        tag: None,
        route: None,
        port: 8080,
    }
}

// A board of one process, after so many transitions.
fn board(alloc: Global, web: Name, next: u64) -> Result<Rows, Fail>
    requires { next ≤ most_transitions }
    ensures { IfOk result IsValid }
{
    let desired = vec![in alloc; process(web, 1)]?;
    Ok(Rows {
        desired: List::from(desired),
        actual: List::new(alloc),
        tasks: List::new(alloc),
        cells: List::new(alloc),
        domains: List::new(alloc),
        next,
    })
}

// What the desire comes to on a board of these rows.
fn verdict_on(alloc: Global, rows: &Rows, desired: Desired) -> Result<Verdict, Fail>
    requires { IsValid rows.now }
{
    let command = Command {
        now: Moment(0),
        op: Op::Desire { desired },
    };
    let index = Index::of(alloc, rows)?;
    Ok(decide(&index, &command))
}

// What the desire of so many instances comes to on that board.
fn desire(alloc: Global, next: u64, web: Name, name: Name, instances: u32) -> Result<Verdict, Fail>
    requires { next ≤ most_transitions }
{
    let rows = board(alloc, web, next)?;
    verdict_on(alloc, &rows, process(name, instances))
}

#[test]
fn a_desire_is_refused_by_the_first_cause(rt: HostRuntime) -> Result<(), Fail> {
    let alloc = rt.alloc();
    let web = Name::read(b"web")?;
    let api = Name::read(b"api")?;
    let many = Verdict::Refused(BoardRefusal::TooMany { limit: 1000 });
    let full = Verdict::Refused(BoardRefusal::BoardFull);
    let exists = Verdict::Refused(BoardRefusal::Exists);
    assert_eq!(rt; desire(alloc, 9, web, api, 1000)?, Verdict::Ok);
    assert_eq!(rt; desire(alloc, 9, web, api, 1001)?, many);
    assert_eq!(rt; desire(alloc, 1_099_511_627_776, web, api, 1)?, full);
    assert_eq!(rt; desire(alloc, 1_099_511_627_776, web, web, 1)?, exists);
    Ok(())
}
