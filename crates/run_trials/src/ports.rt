//! What the program is given in memory, and what becomes of it.
use crate::{Left, left_of};
use byte_ports::{Gate, MemorySink, Sink, Source};
use diego_engine::diego_top_in_memory;
use disk_trait::MemoryDisk;
use std::alloc::{AllocError, Global};
use std::sync::Wait;
use std::thread::Threads;

/// The program's name and what stands behind it.
pub fn words_of(alloc: Global, texts: &[&str]) -> Result<Vec<String>, AllocError> {
    let mut words = Vec::new(alloc);
    for text in texts {
        words.push(String::from_str(alloc, *text)?)?;
    }
    Ok(words)
}

/// A disk of these areas, of which these device calls fail, from 1.
pub fn disk_of(
    alloc: Global,
    a: &[u8],
    b: &[u8],
    failing: &[u64],
) -> Result<MemoryDisk, AllocError> {
    let a = a.to_vec(alloc)?;
    let b = b.to_vec(alloc)?;
    Ok(MemoryDisk::new(alloc, a, b, failing.to_vec(alloc)?))
}

/// A sink of which these calls fail, from 1.
pub fn sink_of(alloc: Global, failing: &[u64]) -> Result<MemorySink, AllocError> {
    Ok(MemorySink::new(alloc, failing.to_vec(alloc)?))
}

/// What the words leave of these ports, where the gate holds up whoever passes it. If there is no memory for the
/// words, nothing is done.
pub fn left_on<R: Threads + Wait + Sync, S: Source + Drop, K: Sink + Drop, G: Gate + Sync>(
    rt: &R,
    alloc: Global,
    texts: &[&str],
    source: S,
    sink: K,
    disk: MemoryDisk,
    gate: &G,
) -> Result<Left<K>, AllocError> {
    match words_of(alloc, texts) {
        Ok(words) => Ok(left_of(diego_top_in_memory(rt, alloc, &words, source, sink, disk, gate))),
        Err(why) => Err(why),
    }
}
