// A disk of two files, over the calls of a system.
ghost use Rattle.std.specs.Prelude.{◌≡◌, ◌≤◌, true, [], Option, Some, length, is_ok, is_err, IfOk};
ghost use Rattle.std.specs.Option.{ForSome};
ghost use Rattle.byte_ports.specs.Cause.{HasCause};
ghost use Rattle.disk_trait.specs.Past.{Past, content};
ghost use Rattle.disk_trait.specs.Steps.{Goes, ChangesNothing, Changes, Wrote, Synced, Filled, Ticks};
ghost use Rattle.disk_trait.specs.declared.area.Area.{Area};
ghost use Rattle.file_calls.specs.Files.{ticks, has_its_name};
ghost use Rattle.file_calls.specs.Told.{told_past};
ghost use Rattle.file_calls.specs.Made.{Made, measures, reads, writes, syncs};

use crate::measuring::measure;
use crate::reading::read_whole;
use crate::syncing::sync_whole;
use crate::writing::write_whole;
use crate::{CallError, Calls};
use byte_ports::Failed;
use disk_trait::{Area, Disk, Meter};

/// Each area is a file. The disk tells what the files held at the first call and what its calls
/// have done since, as long as the answers are those of a disk, and from the first that isn't it
/// tells nothing.
#[derive(Drop)]
pub struct FileDisk<C: Calls + Drop> {
    calls: C,
    meter: Meter,
    /// The names of both files are on the disk.
    in_folder: bool,
    ghost timed: { meter.clock ≡ ticks (C.Calls.history calls) },
    ghost named: { in_folder ≡ true → (area : Area) → has_its_name area (C.Calls.history calls) ≡ true },
}

impl<C: Calls + Drop> FileDisk<C> {
    ghost use Rattle.file_calls.specs.Disk.{history_of, system_of};

    /// A disk over a system that wasn't called yet.
    pub fn new(calls: C) -> FileDisk<C>
        requires { C.Calls.history calls ≡ [] }
        ensures clock { ⟦<FileDisk<C> as Disk>⟧.moment result ≡ 0 }
        ensures faults { ⟦<FileDisk<C> as Disk>⟧.fault_count result ≡ 0 }
        ensures history { history_of result ≡ [] }
    {
        FileDisk {
            calls,
            meter: Meter::new(),
            in_folder: false,
        }
    }

    /// The system below, for tests of what lies on its files.
    pub fn system(&self) -> &C
        ensures { result.now ≡ system_of self.now }
    {
        &self.calls
    }
}

fn counted<T>(meter: &mut Meter, answer: Result<T, CallError>) -> Result<T, Failed>
    ensures ok { is_ok result ≡ is_ok answer }
    ensures same { IfOk result (λ x. IfOk answer (λ y. x ≡ y)) }
    ensures clock { meter.new.clock ≡ meter.old.clock }
    ensures cause { HasCause (is_err result) meter.old.faults meter.new.faults }
{
    match answer {
        Ok(value) => Ok(value),
        Err(_) => Err(meter.fail()),
    }
}

impl<C: Calls + Drop> Disk for FileDisk<C> {
    ghost use Rattle.file_calls.specs.Disk.{told_by, history_of, calls_of, faults_of};

    ghost told = { told_by };

    ghost moment = { calls_of };

    ghost fault_count = { faults_of };

    ghost use Rattle.file_calls.specs.Told.{told_clock};

    ghost timed = { λ disk p is.
        told_clock C.Calls.first (C.Calls.history disk.calls) p disk.meter.clock disk.timed is };

    fn len(&mut self, area: Area) -> Result<u64, Failed>
        ensures len { IfOk result
            (λ n. ForSome (told_by self.new) (λ p. n ≡ length (content p area))) }
        ensures does { Goes (told_by self.old) (told_by self.new) ChangesNothing }
        ensures time { Ticks (is_ok result) (calls_of self.old) (calls_of self.new) }
        ensures cause { HasCause (is_err result) (faults_of self.old) (faults_of self.new) }
        ensures made { Made (measures area) (is_err result) (calls_of self.old)
            (history_of self.old) (history_of self.new) }
    {
        if !self.meter.tick() {
            return Err(self.meter.fail());
        }
        self.calls.begin();
        let answer = measure(&mut self.calls, area);
        counted(&mut self.meter, answer)
    }

    fn read_at(&mut self, area: Area, at: u64, room: &mut [u8]) -> Result<usize, Failed>
        ensures bound { IfOk result (λ n. n ≤ length room.old) }
        ensures bytes { IfOk result
            (λ n. ForSome (told_by self.new) (λ p. Filled (content p area) at n room.old room.new)) }
        ensures does { Goes (told_by self.old) (told_by self.new) ChangesNothing }
        ensures time { Ticks (is_ok result) (calls_of self.old) (calls_of self.new) }
        ensures cause { HasCause (is_err result) (faults_of self.old) (faults_of self.new) }
        ensures made { Made (reads area) (is_err result) (calls_of self.old)
            (history_of self.old) (history_of self.new) }
    {
        if !self.meter.tick() {
            return Err(self.meter.fail());
        }
        self.calls.begin();
        let answer = read_whole(&mut self.calls, area, at, room);
        counted(&mut self.meter, answer)
    }

    fn write_at(&mut self, area: Area, at: u64, bytes: &[u8]) -> Result<(), Failed>
        requires { ForSome (told_by self.old) (λ p. at ≤ length (content p area)) }
        ensures does { Goes (told_by self.old) (told_by self.new)
            (Changes area (Wrote (is_ok result) at bytes.now)) }
        ensures time { Ticks (is_ok result) (calls_of self.old) (calls_of self.new) }
        ensures cause { HasCause (is_err result) (faults_of self.old) (faults_of self.new) }
        ensures made { Made (writes area) (is_err result) (calls_of self.old)
            (history_of self.old) (history_of self.new) }
    {
        if !self.meter.tick() {
            return Err(self.meter.fail());
        }
        self.calls.begin();
        let answer = write_whole(&mut self.calls, area, at, bytes);
        counted(&mut self.meter, answer)
    }

    fn sync(&mut self, area: Area) -> Result<(), Failed>
        ensures does { Goes (told_by self.old) (told_by self.new)
            (Changes area (Synced (is_ok result))) }
        ensures time { Ticks (is_ok result) (calls_of self.old) (calls_of self.new) }
        ensures cause { HasCause (is_err result) (faults_of self.old) (faults_of self.new) }
        ensures made { Made (syncs area) (is_err result) (calls_of self.old)
            (history_of self.old) (history_of self.new) }
    {
        if !self.meter.tick() {
            return Err(self.meter.fail());
        }
        self.calls.begin();
        let answer = sync_whole(&mut self.calls, &mut self.in_folder, area);
        counted(&mut self.meter, answer)
    }

    fn faults(&self) -> u64 {
        self.meter.faults
    }

    fn clock(&self) -> u64 {
        self.meter.clock
    }
}
