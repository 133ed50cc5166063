//! The program: all that `diego_top` does, on standard input and output and two files of the current
//! folder.
#![tactic(auto)]

mod places;
mod streams;

use byte_ports::{OpenGate, StdSink, StdSource};
use command_line::words;
use diego_engine::{TopEnd, diego_top};
use real_files::{FileDisk, RealCalls};
use std::alloc::AllocError;
use std::env::Env;
use std::io;
use std::marker::Brand;
use std::process::ExitCode;
use streams::Streams;

/// The status where there is no memory for the words or the names of the files. No file is touched.
const OUT_OF_MEMORY: u8 = 7;

/// The status where a standard stream is closed and can't be held. No file is touched.
const NO_STREAM: u8 = 4;

/// The words, and the names of the files.
fn asked<R: Env + AllocGlobal>(rt: &R) -> Result<(Vec<String>, String, String), AllocError> {
    let words = words(rt)?;
    let folder = places::folder(rt)?;
    let (a, b) = places::file_names(rt.alloc(), folder.as_str())?;
    Ok((words, a, b))
}

/// Standard output has no buffer, so nothing is left to be flushed at the end. Threads are had here alone,
/// and what goes to one is known of the runtime itself.
fn main(rt: HostRuntime) -> ExitCode {
    let Ok(_streams) = Streams::hold(&rt) else {
        return ExitCode::from(NO_STREAM);
    };
    let Ok((words, a, b)) = asked(&rt) else {
        return ExitCode::from(OUT_OF_MEMORY);
    };
    let disk = FileDisk::new(RealCalls::<&HostRuntime, Brand>::new(&rt, a, b));
    let source = StdSource::new(rt.reader());
    let sink = StdSink::new(io::writer(&rt));
    let TopEnd {
        status,
        source: _,
        sink: _,
        disk: _,
        log: _,
        marks: _,
        answers: _,
        reports: _,
        locks: _,
    } = diego_top(&rt, rt.alloc(), &words, source, sink, disk, &OpenGate);
    ExitCode::from(status)
}
