//! The opening of the two boards, and the pair of them.
ghost use Rattle.std.specs.Prelude.{◌≡◌, [], Bool, IfOk, IfErr};
ghost use Rattle.bbs_board.specs.View.{IsFresh};
ghost use Rattle.disk_trait.specs.Shows.{KeepsContent};
ghost use Rattle.disk_trait.specs.Steps.{Goes};
ghost use Rattle.program_ends.specs.Ports.{PrintsTo};
ghost use Rattle.standby_board.specs.Ends.{IsStarted};
ghost use Rattle.pair_top.specs.Endings.{line_of, standby_ending, start_ending};
ghost use Rattle.pair_top.specs.Opening.{HasStartCause, OpensPair};
ghost use Rattle.pair_top.specs.Top.{EndsUnpaired, OpensPrimary, PairPorts, ports_at};

use crate::ending::PairEnding;
use crate::lines::ended;
use bbs_board::{Board, Closed, LoadFault, load};
use byte_ports::Sink;
use disk_trait::Disk;
use program_ends::{Ending, open};
use standby_board::{Pair, StartRefusal};
use std::alloc::Global;

/// The disk of a board that was closed.
pub(crate) fn disk_of<D>(closed: Closed<D>) -> D
    ensures { result ≡ closed.disk }
{
    let Closed {
        disk,
        log: _,
        marks: _,
    } = closed;
    disk
}

/// How it ends that could not load the standby.
fn standby_ending(fault: LoadFault) -> PairEnding
    ensures { result ≡ standby_ending fault }
{
    match fault {
        LoadFault::Disk => PairEnding::Run(Ending::Unopened),
        LoadFault::NotABoard { area } => PairEnding::NoStandby { area },
        LoadFault::Damaged { area, at } => PairEnding::DamagedStandby { area, at },
        LoadFault::OutOfMemory => PairEnding::Run(Ending::OutOfMemory),
    }
}

fn start_ending(refusal: StartRefusal) -> PairEnding
    ensures { result ≡ start_ending refusal }
{
    match refusal {
        StartRefusal::Unequal {
            primary: _,
            standby: _,
        } => PairEnding::Unequal,
        StartRefusal::OutOfMemory => PairEnding::Run(Ending::OutOfMemory),
    }
}

/// Makes a pair of two boards that were just loaded. Where they are none, the line that says why is
/// printed, and their disks are given back.
fn start<K: Sink, D: Disk, E: Disk>(
    alloc: Global,
    sink: &mut K,
    primary: Board<D>,
    standby: Board<E>,
) -> Result<Pair<D, E>, (PairEnding, D, E)>
    requires calm { standby.log ≡ [] }
    ensures started { IfOk result (λ pair. IsStarted primary standby 0 pair
        × (K.held sink.new ≡ K.held sink.old) × (K.faults sink.new ≡ K.faults sink.old)) }
    ensures refused { IfErr result (λ e. (e.1 ≡ primary.disk) × (e.2 ≡ standby.disk)
        × HasStartCause e.0 primary standby × (whole : Bool) × PrintsTo whole (line_of e.0)
        (K.held sink.old) (K.held sink.new) (K.faults sink.old) (K.faults sink.new)) }
{
    match Pair::start(alloc, primary, standby, 0) {
        Ok(pair) => Ok(pair),
        Err((primary, standby, refusal)) => Err((
            ended(alloc, sink, start_ending(refusal)),
            disk_of(primary.close()),
            disk_of(standby.close()),
        )),
    }
}

/// Opens the standby beside a primary that was just loaded, and makes a pair of both. Where there is none,
/// the line that says why is printed, and the disks are given back.
fn open_standby<K: Sink, D: Disk, E: Disk>(
    alloc: Global,
    sink: &mut K,
    primary: Board<D>,
    standby: E,
) -> Result<Pair<D, E>, (PairEnding, D, E)>
    requires fresh { IsFresh primary }
    requires begun { (primary.since ≡ D.moment primary.disk)
        × (primary.faults ≡ D.fault_count primary.disk) }
    ensures opens { IfOk result (λ pair. (v : PairPorts) → OpensPrimary primary.base v
        (ports_at D.told D.fault_count D.moment E.told E.fault_count E.moment
        (K.held sink.old) (K.faults sink.old) primary.disk standby)
        → OpensPair D.told D.fault_count D.moment E.told E.fault_count E.moment
        (K.held sink.new) (K.faults sink.new) v pair) }
    ensures ends { IfErr result (λ e. (v : PairPorts) → OpensPrimary primary.base v
        (ports_at D.told D.fault_count D.moment E.told E.fault_count E.moment
        (K.held sink.old) (K.faults sink.old) primary.disk standby)
        → EndsUnpaired e.0 v
        (ports_at D.told D.fault_count D.moment E.told E.fault_count E.moment
        (K.held sink.new) (K.faults sink.new) e.1 e.2)) }
    ensures still { IfErr result (λ e. (e.1 ≡ primary.disk)
        × Goes (E.told standby) (E.told e.2) KeepsContent) }
{
    match load(alloc, standby) {
        Ok(standby) => start(alloc, sink, primary, standby),
        Err((standby, fault)) => Err((
            ended(alloc, sink, standby_ending(fault)),
            disk_of(primary.close()),
            standby,
        )),
    }
}

/// Opens the primary, then the standby, and makes a pair of both. Where there is none, the line that says
/// why is printed, and the disks are given back. No byte of either is changed.
pub(crate) fn open_pair<K: Sink, D: Disk, E: Disk>(
    alloc: Global,
    sink: &mut K,
    primary: D,
    standby: E,
) -> Result<Pair<D, E>, (PairEnding, D, E)>
    ensures opens { IfOk result
        (OpensPair D.told D.fault_count D.moment E.told E.fault_count E.moment
        (K.held sink.new) (K.faults sink.new)
        (ports_at D.told D.fault_count D.moment E.told E.fault_count E.moment
        (K.held sink.old) (K.faults sink.old) primary standby)) }
    ensures ends { IfErr result (λ e. EndsUnpaired e.0
        (ports_at D.told D.fault_count D.moment E.told E.fault_count E.moment
        (K.held sink.old) (K.faults sink.old) primary standby)
        (ports_at D.told D.fault_count D.moment E.told E.fault_count E.moment
        (K.held sink.new) (K.faults sink.new) e.1 e.2)) }
    ensures still { IfErr result (λ e. Goes (D.told primary) (D.told e.1) KeepsContent
        × Goes (E.told standby) (E.told e.2) KeepsContent) }
{
    match open(alloc, sink, primary) {
        Ok(primary) => open_standby(alloc, sink, primary, standby),
        Err((ending, primary)) => Err((PairEnding::Run(ending), primary, standby)),
    }
}
