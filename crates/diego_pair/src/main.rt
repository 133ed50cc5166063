//! The program of the standby pair: all that `pair_top` does, on standard input and output and four files of the
//! current folder.
#![tactic(auto)]

mod places;
mod streams;

use byte_ports::{StdSink, StdSource};
use command_line::words;
use pair_top::{PairEnd, pair_top};
use real_files::{FileDisk, RealCalls};
use std::alloc::AllocError;
use std::env::Env;
use std::io;
use std::marker::Brand;
use std::process::ExitCode;
use streams::Streams;

/// The status where there is no memory for the words or the names of the files. No file is touched.
const OUT_OF_MEMORY: u8 = 7;

/// The status where a standard stream is closed and can't be held. No file is touched.
const NO_STREAM: u8 = 4;

/// The words, and the names of the files of both boards.
struct Settings {
    words: Vec<String>,
    primary: (String, String),
    standby: (String, String),
}

fn given<R: Env + AllocGlobal>(rt: &R) -> Result<Settings, AllocError> {
    let words = words(rt)?;
    let folder = places::folder(rt)?;
    let primary = places::primary_names(rt.alloc(), folder.as_str())?;
    let standby = places::standby_names(rt.alloc(), folder.as_str())?;
    Ok(Settings {
        words,
        primary,
        standby,
    })
}

/// Standard output has no buffer, so nothing is left to be flushed at the end.
fn main(rt: HostRuntime) -> ExitCode {
    let Ok(_streams) = Streams::hold(&rt) else {
        return ExitCode::from(NO_STREAM);
    };
    let Ok(
        Settings {
            words,
            primary,
            standby,
        },
    ) = given(&rt)
    else {
        return ExitCode::from(OUT_OF_MEMORY);
    };
    let (a, b) = primary;
    let primary = FileDisk::new(RealCalls::<&HostRuntime, Brand>::new(&rt, a, b));
    let (a, b) = standby;
    let standby = FileDisk::new(RealCalls::<&HostRuntime, Brand>::new(&rt, a, b));
    let source = StdSource::new(rt.reader());
    let sink = StdSink::new(io::writer(&rt));
    let PairEnd {
        status,
        source: _,
        sink: _,
        primary: _,
        standby: _,
        log: _,
        acknowledged: _,
        answers: _,
    } = pair_top(rt.alloc(), &words, source, sink, primary, standby);
    ExitCode::from(status)
}
