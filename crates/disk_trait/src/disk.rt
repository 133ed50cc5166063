// A disk as its users see it. Its past tells what a read gives and what a stop may leave, at each
// moment so far. A disk may also tell nothing, from the start or from some call on, and then never
// again: of it the causes of its faults and its clock are known.
ghost use Rattle.std.specs.Prelude.{◌≡◌, ℕ, ◌≤◌, Option, Some, length, is_ok, is_err, IfOk};
ghost use Rattle.std.specs.Option.{ForSome};
ghost use Rattle.byte_ports.specs.Cause.{HasCause};
ghost use Rattle.disk_trait.specs.Past.{Past, content};
ghost use Rattle.disk_trait.specs.Steps.{Goes, ChangesNothing, Changes, Wrote, Synced, Filled, Ticks};

use crate::Area;
use byte_ports::Failed;

pub trait Disk {
    /// What the disk has been at each moment so far, where it tells that.
    ghost told: { Self → Option Past };

    /// The number of device calls so far.
    ghost moment: { Self → ℕ };

    /// How often it has failed.
    ghost fault_count: { Self → ℕ };

    /// The length of an area in bytes.
    fn len(&mut self, area: Area) -> Result<u64, Failed>
        ensures len { IfOk result
            (λ n. ForSome (told self.new) (λ p. n ≡ length (content p area))) }
        ensures does { Goes (told self.old) (told self.new) ChangesNothing }
        ensures time { Ticks (is_ok result) (moment self.old) (moment self.new) }
        ensures cause { HasCause (is_err result) (fault_count self.old) (fault_count self.new) };

    /// Fills the room with the area's bytes from `at` on, and answers how many there were: fewer than
    /// it holds where the area ends, and 0 past its end. Behind these the room may hold anything, and
    /// after `Failed` all of it may.
    fn read_at(&mut self, area: Area, at: u64, room: &mut [u8]) -> Result<usize, Failed>
        ensures bound { IfOk result (λ n. n ≤ length room.old) }
        ensures bytes { IfOk result
            (λ n. ForSome (told self.new) (λ p. Filled (content p area) at n room.old room.new)) }
        ensures does { Goes (told self.old) (told self.new) ChangesNothing }
        ensures time { Ticks (is_ok result) (moment self.old) (moment self.new) }
        ensures cause { HasCause (is_err result) (fault_count self.old) (fault_count self.new) };

    /// Writes over what is there, and past the end. Until the area is synced, a stop may leave any
    /// bytes in the range. After `Failed` a read, too, may give any bytes there.
    fn write_at(&mut self, area: Area, at: u64, bytes: &[u8]) -> Result<(), Failed>
        requires { ForSome (told self.old) (λ p. at ≤ length (content p area)) }
        ensures does { Goes (told self.old) (told self.new)
            (Changes area (Wrote (is_ok result) at bytes.now)) }
        ensures time { Ticks (is_ok result) (moment self.old) (moment self.new) }
        ensures cause { HasCause (is_err result) (fault_count self.old) (fault_count self.new) };

    /// After it, a stop leaves of this area what a read gives. After `Failed` what was pending is
    /// still pending, and a later sync covers it.
    fn sync(&mut self, area: Area) -> Result<(), Failed>
        ensures does { Goes (told self.old) (told self.new)
            (Changes area (Synced (is_ok result))) }
        ensures time { Ticks (is_ok result) (moment self.old) (moment self.new) }
        ensures cause { HasCause (is_err result) (fault_count self.old) (fault_count self.new) };

    /// No device call: it takes no moment and cannot fail.
    fn faults(&self) -> u64
        ensures { result ≡ fault_count self.now };

    /// No device call either.
    fn clock(&self) -> u64
        ensures { result ≡ moment self.now };

    /// The clock of what is told is the disk's.
    ghost timed: { (disk : Self) (p : Past) → told disk ≡ Some p → p.clock ≡ moment disk };
}
