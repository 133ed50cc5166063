//! Lines of lock commands on a locket, one after another, and the text of their answers.
ghost use Rattle.std.specs.Prelude.{◌≡◌, ◌++◌, ◌∷◌, [], OnOk};
ghost use Rattle.lock_lines.specs.Printed.{answer_line, disk_line};
ghost use Rattle.lock_runs.specs.Lines.{RunsOn};

use disk_trait::Disk;
use lock_lines::{LockLine, answer_text, disk_text};
use locket::{LockFault, LockReply, Locket};
use std::alloc::{AllocError, Global};

/// Adds the answer to a line.
fn add_answer(
    alloc: Global,
    answers: &mut Vec<u8>,
    line: u32,
    reply: &LockReply,
) -> Result<(), AllocError>
    ensures { OnOk result (answers.new.items ≡ answers.old.items ++ answer_line line reply.now) }
{
    answers.extend_from_slice(&answer_text(alloc, line, reply)?)
}

/// Adds what is told of a line at which the disk failed.
fn add_fault(alloc: Global, answers: &mut Vec<u8>, line: u32) -> Result<(), AllocError>
    ensures { OnOk result (answers.new.items ≡ answers.old.items ++ disk_line line) }
{
    answers.extend_from_slice(&disk_text(alloc, line)?)
}

/// Runs a line, and adds its answer.
fn run_line<D: Disk>(
    alloc: Global,
    line: &LockLine,
    locket: &mut Locket<D>,
    answers: &mut Vec<u8>,
) -> Result<(), LockFault>
    ensures { RunsOn D.told D.fault_count (line.now ∷ []) result
        answers.old.items answers.new.items locket.old locket.new }
{
    match locket.call(line.command) {
        Ok(reply) => match add_answer(alloc, answers, line.line, &reply) {
            Ok(()) => Ok(()),
            Err(AllocError) => Err(LockFault::OutOfMemory),
        },
        Err(LockFault::Disk) => match add_fault(alloc, answers, line.line) {
            Ok(()) => Err(LockFault::Disk),
            Err(AllocError) => Err(LockFault::OutOfMemory),
        },
        Err(LockFault::OutOfMemory) => Err(LockFault::OutOfMemory),
    }
}

/// Runs these lines, up to one at which the disk fails or memory runs out.
pub(crate) fn run_lines<D: Disk>(
    alloc: Global,
    lines: &[LockLine],
    locket: &mut Locket<D>,
    answers: &mut Vec<u8>,
) -> Result<(), LockFault>
    ensures { RunsOn D.told D.fault_count lines.now result
        answers.old.items answers.new.items locket.old locket.new }
{
    for line in lines {
        match run_line(alloc, line, locket, answers) {
            Ok(()) => {}
            Err(fault) => return Err(fault),
        }
    }
    Ok(())
}
