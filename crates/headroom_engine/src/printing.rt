//! A text is put into the sink whole, or up to a fault.
ghost use Rattle.std.specs.Prelude.{◌≡◌, true, false};
ghost use Rattle.headroom_engine.specs.Ports.{Puts, PutsPart, PutsWhole};

use byte_ports::{Sink, write_whole};

/// Puts a text into the sink, and tells whether it was written whole.
pub(crate) fn written<K: Sink>(sink: &mut K, text: &[u8]) -> bool
    ensures whole { result ≡ true → PutsWhole text.now
        (K.held sink.old) (K.held sink.new) (K.faults sink.old) (K.faults sink.new) }
    ensures part { result ≡ false → PutsPart text.now
        (K.held sink.old) (K.held sink.new) (K.faults sink.old) (K.faults sink.new) }
{
    write_whole(sink, text).is_ok()
}

/// Puts a fault line into the sink, as far as that goes.
pub(crate) fn print_line<K: Sink>(sink: &mut K, line: &[u8])
    ensures { Puts line.now
        (K.held sink.old) (K.held sink.new) (K.faults sink.old) (K.faults sink.new) }
{
    let _whole = written(sink, line);
}
