//! The counts of a script of lock commands.
ghost use Rattle.std.specs.Prelude.{◌≡◌, ◌++◌, IfOk, count_by};
ghost use Rattle.lock_runs.specs.Courses.{is_done, summary_behind};

use disk_trait::Disk;
use lock_lines::summary_text;
use locket::{LockItem, Locket};
use payload_log::Entry;
use std::alloc::{AllocError, Global};

fn is_done(item: &LockItem) -> bool
    ensures { result ≡ is_done item.now }
{
    matches!(item, Entry::Done(_))
}

/// How many of these items are done.
fn done_in(items: &[LockItem]) -> usize
    ensures { result ≡ count_by is_done items.now }
{
    items.iter().filter(|item| is_done(item)).count()
}

/// The line behind the answers: what the locket did since it was opened, and the fence that it gave last.
fn summary_of<D: Disk>(alloc: Global, locket: &Locket<D>) -> Result<Vec<u8>, AllocError>
    ensures { IfOk result (λ text. text.items ≡ summary_behind locket.now.base locket.now.log) }
{
    let log = locket.log();
    let done = done_in(log);
    let doubts = log.len() - done;
    summary_text(alloc, done as u64, doubts as u64, locket.state().last)
}

/// The text of the answers with the summary behind it.
pub(crate) fn summed<D: Disk>(
    alloc: Global,
    locket: &Locket<D>,
    mut text: Vec<u8>,
) -> Result<Vec<u8>, AllocError>
    ensures { IfOk result (λ whole. whole.items
        ≡ text.items ++ summary_behind locket.now.base locket.now.log) }
{
    text.extend_from_slice(&summary_of(alloc, locket)?)?;
    Ok(text)
}
