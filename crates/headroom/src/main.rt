//! The program: all that `headroom_top` does, on standard input and output.
#![tactic(auto)]

use byte_ports::{StdSink, StdSource};
use command_line::words;
use headroom_answers::SitePlanner;
use headroom_engine::{HeadroomEnd, headroom_top};
use std::io;
use std::process::ExitCode;

/// The status where there is no memory for the words.
const OUT_OF_MEMORY: u8 = 7;

/// Standard output has no buffer, so nothing is left to be flushed at the end.
fn main(rt: HostRuntime) -> ExitCode {
    let Ok(words) = words(&rt) else {
        return ExitCode::from(OUT_OF_MEMORY);
    };
    let source = StdSource::new(rt.reader());
    let sink = StdSink::new(io::writer(&rt));
    let HeadroomEnd {
        status,
        source: _,
        sink: _,
    } = headroom_top::<SitePlanner, _, _>(rt.alloc(), &words, source, sink);
    ExitCode::from(status)
}
