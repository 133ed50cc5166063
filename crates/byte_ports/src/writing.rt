// A text put whole into a sink.
ghost use Rattle.std.specs.Prelude.{OnOk, OnErr, is_err};
ghost use Rattle.std.specs.Io.KnownBytes.{Appends};
ghost use Rattle.byte_ports.specs.Cause.{HasCause};
ghost use Rattle.byte_ports.specs.Content.{HoldsFront, HoldsPart};

use crate::{Failed, Sink};

/// Puts the whole text, piece by piece, and stops at the first fault.
pub fn write_whole<K: Sink>(sink: &mut K, text: &[u8]) -> Result<(), Failed>
    ensures whole { OnOk result (Appends (K.held sink.old) (K.held sink.new) text.now) }
    ensures front { HoldsFront (K.held sink.old) (K.held sink.new) text.now }
    ensures part { OnErr result (HoldsPart (K.held sink.old) (K.held sink.new) text.now) }
    ensures cause { HasCause (is_err result) (K.faults sink.old) (K.faults sink.new) }
{
    let mut rest = text;
    while !rest.is_empty() {
        let count = sink.put(rest)?;
        rest = &rest[count..];
    }
    Ok(())
}
