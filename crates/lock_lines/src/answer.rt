//! The line that answers a lock command.
ghost use Rattle.std.specs.Prelude.{◌≡◌, IfOk, OnOk};
ghost use Rattle.line_writing.specs.Writing.{AddsValue};
ghost use Rattle.lock_lines.specs.Printed.{answer_data, answer_line, disk_data, disk_line, lease_data, refused_data};

use crate::why::why_text;
use json::Writer;
use line_writing::{begin, end, line_begun, line_ended, put_number, put_optional_number, put_text};
use locket::LockReply;
use std::alloc::{AllocError, Global};

/// The answer to the command of a line.
pub fn answer_text(alloc: Global, line: u32, reply: &LockReply) -> Result<Vec<u8>, AllocError>
    ensures { IfOk result (λ text. text.items ≡ answer_line line reply.now) }
{
    let mut text = line_begun(alloc)?;
    put_answer(&mut text, alloc, line, reply)?;
    line_ended(text)
}

/// What is told of a line whose command the disk failed to store.
pub fn disk_text(alloc: Global, line: u32) -> Result<Vec<u8>, AllocError>
    ensures { IfOk result (λ text. text.items ≡ disk_line line) }
{
    let mut text = line_begun(alloc)?;
    put_disk(&mut text, line)?;
    line_ended(text)
}

fn put_answer(
    text: &mut Writer,
    alloc: Global,
    line: u32,
    reply: &LockReply,
) -> Result<(), AllocError>
    ensures { OnOk result (AddsValue text.old text.new (answer_data line reply.now)) }
{
    match reply {
        LockReply::Ok { lease } => put_lease(text, "ok", line, lease.fence, Some(lease.until)),
        LockReply::Same { lease } => put_lease(text, "same", line, lease.fence, Some(lease.until)),
        LockReply::Released { fence } => put_lease(text, "ok", line, *fence, None),
        LockReply::Refused(why) => put_refused(text, line, &why_text(alloc, why)?),
    }
}

fn put_lease(
    text: &mut Writer,
    word: &str,
    line: u32,
    fence: u64,
    until: Option<u64>,
) -> Result<(), AllocError>
    ensures { OnOk result (AddsValue text.old text.new (lease_data word.now line fence until)) }
{
    begin(text)?;
    put_text(text, "answer", word)?;
    put_number(text, "fence", fence)?;
    put_number(text, "line", line as u64)?;
    put_optional_number(text, "until", until)?;
    end(text)
}

fn put_refused(text: &mut Writer, line: u32, why: &str) -> Result<(), AllocError>
    ensures { OnOk result (AddsValue text.old text.new (refused_data line why.now)) }
{
    begin(text)?;
    put_text(text, "answer", "refused")?;
    put_number(text, "line", line as u64)?;
    put_text(text, "why", why)?;
    end(text)
}

fn put_disk(text: &mut Writer, line: u32) -> Result<(), AllocError>
    ensures { OnOk result (AddsValue text.old text.new (disk_data line)) }
{
    begin(text)?;
    put_text(text, "answer", "disk")?;
    put_number(text, "line", line as u64)?;
    end(text)
}
