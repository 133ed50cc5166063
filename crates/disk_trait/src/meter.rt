// The clock and the count of faults, as a disk keeps them.
ghost use Rattle.std.specs.Prelude.{◌≡◌, true, false};
ghost use Rattle.byte_ports.specs.Cause.{HasCause};
ghost use Rattle.disk_trait.specs.Steps.{Ticks};

use byte_ports::Failed;

/// A disk's clock, which counts its device calls, and how often it has failed.
#[derive(Clone, Copy)]
pub struct Meter {
    pub clock: u64,
    pub faults: u64,
}

impl Meter {
    pub fn new() -> Meter
        ensures clock { result.clock ≡ 0 }
        ensures faults { result.faults ≡ 0 }
    {
        Meter {
            clock: 0,
            faults: 0,
        }
    }

    /// A device call begins. The answer is false where the clock is at its last value, and stays there.
    pub fn tick(&mut self) -> bool
        ensures time { Ticks result self.old.clock self.new.clock }
        ensures stands { result ≡ false → self.new.clock ≡ self.old.clock }
        ensures faults { self.new.faults ≡ self.old.faults }
    {
        if self.clock == u64::MAX {
            return false;
        }
        self.clock += 1;
        true
    }

    /// The device call fails.
    pub fn fail(&mut self) -> Failed
        ensures cause { HasCause true self.old.faults self.new.faults }
        ensures clock { self.new.clock ≡ self.old.clock }
    {
        self.faults = self.faults.saturating_add(1);
        Failed
    }
}
