// A disk in memory, whose calls fail where a list says so.
ghost use Rattle.std.specs.Prelude.{◌≡◌, ◌-◌, ◌^◌, ◌<◌, ◌≤◌, ◌+◌, Some, false, length, is_ok, is_err, not, true, IfOk};
ghost use Rattle.std.specs.Option.{ForSome};
ghost use Rattle.byte_ports.specs.Cause.{HasCause};
ghost use Rattle.disk_trait.specs.Past.{Past, content};
ghost use Rattle.disk_trait.specs.Steps.{Goes, ChangesNothing, Changes, Wrote, Synced, Filled, FilledOnly, Ticks};
ghost use Rattle.disk_trait.specs.MemoryAreas.{Numbered, Numbered-prop};

use crate::areas::Areas;
use crate::memory_area::{MemoryArea, fill};
use crate::meter::Meter;
use crate::{Area, Disk};
use byte_ports::Failed;
use std::alloc::Global;

#[derive(Drop)]
pub struct MemoryDisk {
    alloc: Global,
    pub(crate) areas: Areas,
    failing: Vec<u64>,
    meter: Meter,
    starved: u64,
    ghost numbered: { Numbered meter.clock areas } by { Numbered-prop meter.clock areas },
}

impl MemoryDisk {
    ghost use Rattle.disk_trait.specs.Memory.{memory_past, calls_of, faults_of, starved_of, failing_of, fails_next, Starts};

    /// A disk of these bytes, none of them pending. `failing` numbers the device calls that fail,
    /// from 1. It takes no memory.
    pub fn new(alloc: Global, a: Vec<u8>, b: Vec<u8>, failing: Vec<u64>) -> MemoryDisk
        ensures { Starts a.items b.items failing.items result }
    {
        MemoryDisk {
            alloc,
            areas: Areas {
                a: MemoryArea::new(alloc, a),
                b: MemoryArea::new(alloc, b),
            },
            failing,
            meter: Meter::new(),
            starved: 0,
        }
    }

    /// The bytes of an area that a read gives now. It is no device call.
    pub fn bytes(&self, area: Area) -> &[u8]
        ensures { result.now ≡ content (memory_past self.now) area }
    {
        self.areas.part(area).bytes.as_slice()
    }

    /// How many calls failed for want of memory alone.
    pub fn starved(&self) -> u64
        ensures { result ≡ starved_of self.now }
    {
        self.starved
    }

    fn fails_next(&self) -> bool
        ensures value { result ≡ fails_next self.now }
        ensures room { result ≡ false → calls_of self.now < 2 ^ 64 - 1 }
    {
        self.meter.clock == u64::MAX || self.failing.contains(&(self.meter.clock + 1))
    }

    /// A call that changes nothing.
    fn pass(&mut self)
        requires { calls_of self.old < 2 ^ 64 - 1 }
        ensures does { ChangesNothing (memory_past self.old) (memory_past self.new) }
        ensures calls { calls_of self.new ≡ calls_of self.old + 1 }
        ensures faults { faults_of self.new ≡ faults_of self.old }
        ensures starved { starved_of self.new ≡ starved_of self.old }
        ensures failing { failing_of self.new ≡ failing_of self.old }
    {
        let _ticked = self.meter.tick();
    }

    /// A call that changes nothing and fails.
    fn fail(&mut self) -> Failed
        ensures does { ChangesNothing (memory_past self.old) (memory_past self.new) }
        ensures time { Ticks false (calls_of self.old) (calls_of self.new) }
        ensures cause { HasCause true (faults_of self.old) (faults_of self.new) }
        ensures starved { starved_of self.new ≡ starved_of self.old }
        ensures failing { failing_of self.new ≡ failing_of self.old }
    {
        let _ticked = self.meter.tick();
        self.meter.fail()
    }
}

impl MemoryDisk {
    ghost use Rattle.disk_trait.specs.Memory.{memory_past, calls_of, faults_of, starved_of, failing_of};

    /// A call for which there may be no memory.
    fn end(&mut self, found: bool) -> Result<(), Failed>
        ensures areas { memory_past self.new ≡ memory_past self.old }
        ensures ok { is_ok result ≡ found }
        ensures cause { HasCause (is_err result) (faults_of self.old) (faults_of self.new) }
        ensures starved { HasCause (is_err result) (starved_of self.old) (starved_of self.new) }
        ensures failing { failing_of self.new ≡ failing_of self.old }
    {
        if found {
            return Ok(());
        }
        self.starved = self.starved.saturating_add(1);
        Err(self.meter.fail())
    }

    fn try_write(&mut self, area: Area, at: u64, bytes: &[u8]) -> Result<(), Failed>
        requires room { calls_of self.old < 2 ^ 64 - 1 }
        requires at { at ≤ length (content (memory_past self.old) area) }
        ensures does { Changes area (Wrote (is_ok result) at bytes.now)
            (memory_past self.old) (memory_past self.new) }
        ensures calls { calls_of self.new ≡ calls_of self.old + 1 }
        ensures cause { HasCause (is_err result) (faults_of self.old) (faults_of self.new) }
        ensures starved { HasCause (is_err result) (starved_of self.old) (starved_of self.new) }
        ensures failing { failing_of self.new ≡ failing_of self.old }
    {
        let clock = self.meter.clock;
        let found = self
            .areas
            .write(self.alloc, clock, area, at as usize, bytes)
            .is_ok();
        let _ticked = self.meter.tick();
        self.end(found)
    }

    fn try_sync(&mut self, area: Area) -> Result<(), Failed>
        requires { calls_of self.old < 2 ^ 64 - 1 }
        ensures does { Changes area (Synced (is_ok result))
            (memory_past self.old) (memory_past self.new) }
        ensures calls { calls_of self.new ≡ calls_of self.old + 1 }
        ensures cause { HasCause (is_err result) (faults_of self.old) (faults_of self.new) }
        ensures starved { HasCause (is_err result) (starved_of self.old) (starved_of self.new) }
        ensures failing { failing_of self.new ≡ failing_of self.old }
    {
        let clock = self.meter.clock;
        let found = self.areas.sync(clock, area).is_ok();
        let _ticked = self.meter.tick();
        self.end(found)
    }

    /// A write that was to fail. Where there is memory to note it, its range is pending.
    fn fail_write(&mut self, area: Area, at: u64, bytes: &[u8]) -> Failed
        ensures does { Changes area (Wrote false at bytes.now)
            (memory_past self.old) (memory_past self.new) }
        ensures time { Ticks false (calls_of self.old) (calls_of self.new) }
        ensures cause { HasCause true (faults_of self.old) (faults_of self.new) }
        ensures starved { starved_of self.new ≡ starved_of self.old }
        ensures failing { failing_of self.new ≡ failing_of self.old }
    {
        let clock = self.meter.clock;
        if clock == u64::MAX {
            return self.fail();
        }
        let _noted = self.areas.tear(clock, area, at as usize, bytes.len());
        let _ticked = self.meter.tick();
        self.meter.fail()
    }
}

impl Disk for MemoryDisk {
    ghost use Rattle.disk_trait.specs.Memory.{memory_past, calls_of, faults_of, FailsWhereListed};

    ghost told = { λ disk. Some (memory_past disk) };

    ghost moment = { calls_of };

    ghost fault_count = { faults_of };

    ghost use Rattle.std.specs.Prelude.{refl};
    ghost use Rattle.std.proofs.Common.{rules};

    ghost timed = { Prim.search rules };

    fn len(&mut self, area: Area) -> Result<u64, Failed>
        ensures len { IfOk result
            (λ n. ForSome (Some (memory_past self.new)) (λ p. n ≡ length (content p area))) }
        ensures does { Goes (Some (memory_past self.old)) (Some (memory_past self.new)) ChangesNothing }
        ensures time { Ticks (is_ok result) (calls_of self.old) (calls_of self.new) }
        ensures cause { HasCause (is_err result) (faults_of self.old) (faults_of self.new) }
        ensures fails { FailsWhereListed (is_err result) self.old self.new }
    {
        if self.fails_next() {
            return Err(self.fail());
        }
        self.pass();
        Ok(self.bytes(area).len() as u64)
    }

    fn read_at(&mut self, area: Area, at: u64, room: &mut [u8]) -> Result<usize, Failed>
        ensures bound { IfOk result (λ n. n ≤ length room.old) }
        ensures bytes { IfOk result
            (λ n. ForSome (Some (memory_past self.new))
            (λ p. Filled (content p area) at n room.old room.new)) }
        ensures only { IfOk result
            (λ n. FilledOnly (content (memory_past self.old) area) at n room.old room.new) }
        ensures does { Goes (Some (memory_past self.old)) (Some (memory_past self.new)) ChangesNothing }
        ensures time { Ticks (is_ok result) (calls_of self.old) (calls_of self.new) }
        ensures cause { HasCause (is_err result) (faults_of self.old) (faults_of self.new) }
        ensures fails { FailsWhereListed (is_err result) self.old self.new }
    {
        if self.fails_next() {
            return Err(self.fail());
        }
        self.pass();
        Ok(fill(self.bytes(area), at, room))
    }

    fn write_at(&mut self, area: Area, at: u64, bytes: &[u8]) -> Result<(), Failed>
        requires { ForSome (Some (memory_past self.old)) (λ p. at ≤ length (content p area)) }
        ensures does { Goes (Some (memory_past self.old)) (Some (memory_past self.new))
            (Changes area (Wrote (is_ok result) at bytes.now)) }
        ensures time { Ticks (is_ok result) (calls_of self.old) (calls_of self.new) }
        ensures cause { HasCause (is_err result) (faults_of self.old) (faults_of self.new) }
        ensures fails { FailsWhereListed (is_err result) self.old self.new }
    {
        if self.fails_next() {
            return Err(self.fail_write(area, at, bytes));
        }
        self.try_write(area, at, bytes)
    }

    fn sync(&mut self, area: Area) -> Result<(), Failed>
        ensures does { Goes (Some (memory_past self.old)) (Some (memory_past self.new))
            (Changes area (Synced (is_ok result))) }
        ensures time { Ticks (is_ok result) (calls_of self.old) (calls_of self.new) }
        ensures cause { HasCause (is_err result) (faults_of self.old) (faults_of self.new) }
        ensures fails { FailsWhereListed (is_err result) self.old self.new }
    {
        if self.fails_next() {
            return Err(self.fail());
        }
        self.try_sync(area)
    }

    fn faults(&self) -> u64 {
        self.meter.faults
    }

    fn clock(&self) -> u64 {
        self.meter.clock
    }
}
