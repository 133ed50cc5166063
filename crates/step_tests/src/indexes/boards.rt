//! A board in the middle of its life: in its first round two cells claimed three instances.
ghost use Rattle.std.specs.Prelude.{◌≡◌, false, IfOk, None};
ghost use Rattle.lrp_records.specs.declared.presence.Presence.TheVariants as presences;
ghost use Rattle.lrp_records.specs.declared.state.LrpState.TheVariants as states;
ghost use Rattle.bbs_model.specs.Valid.{IsValid};

use crate::rows::unclaimed;
use bbs_model::{DomainRow, Rows};
use cell_records::{Amounts, CellRow};
use diego_names::{Instance, List, Name};
use lrp_records::{Actual, Desired, LrpState};
use std::alloc::Global;
use std::test::Fail;

// A process that wants so many instances.
pub(crate) fn desired(process: Name, domain: Name, instances: u32) -> Desired
    ensures { result ≡ record {
      process = process;
      domain = domain;
      instances = instances;
      memory = 64;
      disk = 128;
      tag = None;
      route = None;
      port = 8080;
    } }
{
    Desired {
        process,
        domain,
        instances,
        memory: 64,
        disk: 128,
        tag: None,
        route: None,
        port: 8080,
    }
}

// An instance that a cell has claimed, in the container of that epoch and number.
pub(crate) fn claimed(process: Name, index: u32, epoch: u64, number: u32, cell: Name) -> Actual
    ensures { result ≡ record {
      key = record { process = process; index = index };
      presence = presences.Ordinary;
      state = states.Claimed (record { epoch = epoch; number = number }) cell;
      count = 0;
      since = record { 0 = 1 };
      error = false;
      domain = None;
    } }
{
    let instance = Instance { epoch, number };
    Actual {
        state: LrpState::Claimed { instance, cell },
        ..unclaimed(process, index, 1)
    }
}

// A cell that has joined.
pub(crate) fn cell(cell: Name, zone: Name, totals: Amounts, epoch: u64) -> CellRow
    ensures { result ≡ record {
      cell = cell;
      zone = zone;
      tag = None;
      totals = totals;
      epoch = epoch;
      until = 600;
      evacuating = false;
    } }
{
    CellRow {
        cell,
        zone,
        tag: None,
        totals,
        epoch,
        until: 600,
        evacuating: false,
    }
}

// A domain that is fresh for ever.
fn vouched(domain: Name) -> DomainRow
    ensures { result ≡ record { domain = domain; until = None } }
{
    DomainRow {
        domain,
        until: None,
    }
}

// The rows after the round.
pub(crate) fn board(alloc: Global) -> Result<Rows, Fail>
    ensures { IfOk result IsValid }
{
    let process = Name::read(b"web")?;
    let c1 = Name::read(b"c1")?;
    let c2 = Name::read(b"c2")?;
    let apps = Name::read(b"apps")?;
    let totals = Amounts {
        memory: 1024,
        disk: 4096,
        containers: 10,
    };
    let actual = vec![in alloc;
        claimed(process, 0, 0, 1, c1),
        claimed(process, 1, 1, 1, c2),
        claimed(process, 2, 0, 2, c1),
    ]?;
    let cells = vec![in alloc;
        cell(c1, Name::read(b"z1")?, totals, 0),
        cell(c2, Name::read(b"z2")?, totals, 1),
    ]?;
    let desired = vec![in alloc; desired(process, apps, 3)]?;
    let domains = vec![in alloc; vouched(apps)]?;
    Ok(Rows {
        desired: List::from(desired),
        actual: List::from(actual),
        tasks: List::new(alloc),
        cells: List::from(cells),
        domains: List::from(domains),
        next: 9,
    })
}
