//! What no clause says: that each word comes to its end where there is memory, and the bytes that it prints,
//! over ports in memory.
mod bytes;
mod faults;
mod locks;
mod numbers;
mod shown;

ghost use Rattle.std.specs.Prelude.{◌≡◌, false, map, string_bytes};
ghost use Rattle.program_tools.specs.Words.{asked_of, asks_to_play};

use crate::given::{
    Given, Left, areas_disk, ends, holds, left_of, sink_of, source_of, tells_nothing, words_of,
};
use byte_ports::Sink;
use disk_trait::Disk;
use program_tools::{Asked, read_words, still_top};
use std::alloc::Global;
use std::process::Abort;

// The words, which must not ask for a run.
fn still_words_of(rt: &impl Abort, alloc: Global, texts: &[&str]) -> Vec<String>
    ensures { asks_to_play (asked_of (map (λ w. string_bytes w) result.items)) ≡ false }
{
    let words = words_of(rt, alloc, texts);
    let asked = read_words(alloc, &words);
    assert!(rt;
        !matches!(
            asked,
            Some(Asked::Run) | Some(Asked::Routes) | Some(Asked::Large(_))
        )
    );
    words
}

/// What the words do there with this sink. No call was told.
fn left_at<K: Sink>(
    rt: &impl Abort,
    alloc: Global,
    texts: &[&str],
    given: Given<'_>,
    sink: K,
) -> Left<K> {
    let words = still_words_of(rt, alloc, texts);
    let source = source_of(rt, alloc, b"", &[]);
    let disk = areas_disk(rt, alloc, given.a, given.b, given.calls);
    let left = left_of(still_top(alloc, &words, source, sink, disk));
    tells_nothing(rt, &left);
    left
}

/// The same with a sink in memory.
fn left_by(rt: &impl Abort, alloc: Global, texts: &[&str], given: Given<'_>) -> Left {
    let sink = sink_of(rt, alloc, given.puts);
    left_at(rt, alloc, texts, given, sink)
}

/// Checks the status, the whole of what is printed, and that neither area changes; gives the number of
/// device calls.
fn shows(
    rt: &impl Abort,
    alloc: Global,
    word: &str,
    given: Given<'_>,
    status: u8,
    text: &str,
) -> u64 {
    let left = left_by(rt, alloc, &["diego", word], given);
    ends(rt, &left, status, text);
    holds(rt, &left.disk, given.a, given.b);
    left.disk.clock()
}
