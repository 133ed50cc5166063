//! A text that is printed whole, or up to a fault of the sink.
ghost use Rattle.std.specs.Prelude.{◌≡◌, ◌⊎◌, true, Bool, not, IfOk, string_bytes};
ghost use Rattle.std.specs.Io.KnownBytes.{Appends};
ghost use Rattle.byte_ports.specs.Cause.{HasCause};
ghost use Rattle.byte_ports.specs.Content.{HoldsFront};
ghost use Rattle.program_ends.specs.Ending.{EndsAs, constant_line, line_of};
ghost use Rattle.program_ends.specs.Ports.{PrintsTo};
ghost use Rattle.program_ends.specs.declared.ending.Ending.TheVariants.{OutOfMemory as NoMemory};

use crate::ending::{Ending, constant_line};
use crate::place_line::{damaged_line, script_line};
use byte_ports::{Sink, write_whole};
use std::alloc::{AllocError, Global};

/// Puts a text into the sink, and tells whether it was written whole.
pub fn written<K: Sink>(sink: &mut K, text: &[u8]) -> bool
    ensures cause { HasCause (not result) (K.faults sink.old) (K.faults sink.new) }
    ensures front { HoldsFront (K.held sink.old) (K.held sink.new) text.now }
    ensures all { result ≡ true → Appends (K.held sink.old) (K.held sink.new) text.now }
{
    write_whole(sink, text).is_ok()
}

/// Prints the line of an ending that tells no place. Where writing it fails, the ending stays.
pub fn ended_early<K: Sink>(sink: &mut K, ending: Ending) -> Ending
    ensures ending { result ≡ ending }
    ensures prints { (whole : Bool) × PrintsTo whole (constant_line ending)
        (K.held sink.old) (K.held sink.new) (K.faults sink.old) (K.faults sink.new) }
{
    let _whole = written(sink, constant_line(ending));
    ending
}

/// Prints the line of an ending that tells a place, and ends so. Where there was no memory for it, it
/// ends for want of that.
fn ended_at_place<K: Sink>(sink: &mut K, ending: Ending, line: Result<String, AllocError>) -> Ending
    requires { IfOk line (λ s. string_bytes s ≡ line_of ending) }
    ensures ending { (result ≡ ending) ⊎ (result ≡ NoMemory) }
    ensures prints { (whole : Bool) × PrintsTo whole (line_of result)
        (K.held sink.old) (K.held sink.new) (K.faults sink.old) (K.faults sink.new) }
{
    match line {
        Ok(line) => {
            let _whole = written(sink, line.as_bytes());
            ending
        }
        Err(_) => ended_early(sink, Ending::OutOfMemory),
    }
}

/// Prints the line of an ending, whatever it tells. Where there was no memory for that line, it ends for
/// want of it. Where writing it fails, the ending stays.
pub fn ended_before<K: Sink>(alloc: Global, sink: &mut K, ending: Ending) -> Ending
    ensures ending { EndsAs ending result }
    ensures prints { (whole : Bool) × PrintsTo whole (line_of result)
        (K.held sink.old) (K.held sink.new) (K.faults sink.old) (K.faults sink.new) }
{
    match ending {
        Ending::Script(fault) => ended_at_place(sink, ending, script_line(alloc, fault)),
        Ending::Damaged { area, at } => {
            ended_at_place(sink, ending, damaged_line(alloc, area, at))
        }
        other => ended_early(sink, other),
    }
}
