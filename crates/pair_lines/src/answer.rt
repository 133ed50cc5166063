//! The line that tells how a client's call of the pair ended.
ghost use Rattle.std.specs.Prelude.{◌≡◌, IfOk, OnOk};
ghost use Rattle.line_writing.specs.Writing.{AddsValue};
ghost use Rattle.serde_json.specs.Data.{no_members as nothing_more};
ghost use Rattle.record_print.specs.Printed.{answer_members};
ghost use Rattle.record_print.specs.declared.asked.Asked.TheVariants.{Command as AnOp};
ghost use Rattle.pair_lines.specs.Answers.{answer_line, told_of, told_of_fault, word_line, word_of};

use crate::answered::{PairAnswered, PairEnded};
use bbs_model::{CallFault, Op};
use cell_rep::CallEnd;
use diego_names::Name;
use json::Writer;
use line_writing::{begin, end, line_begun, line_ended, put_number, put_text};
use record_print::{Asked, call_word, subject_text};
use standby_board::{PairFault, PairReply};
use std::alloc::{AllocError, Global};

/// What only a pair answers, and what is told of it in one word.
#[derive(Clone, Copy, Debug, PartialEq, Eq)]
pub(crate) enum PairWord {
    StaleFence,
    Standby,
    Behind,
    OutOfMemory,
    LostReply,
}

/// How an end is told: as a board's caller is told it, or in the word of a pair.
#[derive(Clone, Copy, Debug, PartialEq, Eq)]
pub(crate) enum Told {
    Board(CallEnd),
    Pair(PairWord),
}

/// The answer to a client at a line of the script.
pub fn answer_text(
    alloc: Global,
    client: &Name,
    answered: &PairAnswered,
) -> Result<Vec<u8>, AllocError>
    ensures { IfOk result (λ text. text.items ≡ answer_line client.now answered.now) }
{
    let op = answered.command.op;
    match told_of(&answered.end) {
        Told::Board(end) => {
            let asked = Asked::Command(op);
            record_print::answer_text(alloc, client, answered.line, &asked, &end)
        }
        Told::Pair(word) => word_text(alloc, client, answered.line, &op, word_of(word)),
    }
}

/// How an end is told. Of a lost reply nothing more is told than that.
fn told_of(ended: &PairEnded) -> Told
    ensures { result ≡ told_of ended.now }
{
    match *ended {
        PairEnded::Got(PairReply::Reply(reply)) => Told::Board(CallEnd::Got(reply)),
        PairEnded::Got(PairReply::StaleFence { greatest: _ }) => Told::Pair(PairWord::StaleFence),
        PairEnded::Fault(fault) => told_of_fault(fault),
        PairEnded::CallLost => Told::Board(CallEnd::CallLost),
        PairEnded::ReplyLost(_) => Told::Pair(PairWord::LostReply),
    }
}

fn told_of_fault(fault: PairFault) -> Told
    ensures { result ≡ told_of_fault fault }
{
    match fault {
        PairFault::Disk { place } => Told::Board(CallEnd::Fault(CallFault::Disk { place })),
        PairFault::StandbyDisk { place: _ } => Told::Pair(PairWord::Standby),
        PairFault::Behind { place: _ } => Told::Pair(PairWord::Behind),
        PairFault::OutOfMemory => Told::Pair(PairWord::OutOfMemory),
    }
}

fn word_of(word: PairWord) -> &'static str
    ensures { result.now ≡ word_of word }
{
    match word {
        PairWord::StaleFence => "stale fence",
        PairWord::Standby => "standby",
        PairWord::Behind => "behind",
        PairWord::OutOfMemory => "out of memory",
        PairWord::LostReply => "lost reply",
    }
}

/// An answer that is one word.
fn word_text(
    alloc: Global,
    client: &Name,
    line: u32,
    op: &Op,
    word: &str,
) -> Result<Vec<u8>, AllocError>
    ensures { IfOk result (λ text. text.items ≡ word_line client.now line op.now word.now) }
{
    let mut text = line_begun(alloc)?;
    put_word(&mut text, alloc, client, line, op, word)?;
    line_ended(text)
}

fn put_word(
    text: &mut Writer,
    alloc: Global,
    client: &Name,
    line: u32,
    op: &Op,
    word: &str,
) -> Result<(), AllocError>
    ensures { OnOk result (AddsValue text.old text.new
        (answer_members client.now word.now line (AnOp op.now) nothing_more)) }
{
    begin(text)?;
    put_text(text, "actor", client.as_str())?;
    put_text(text, "answer", word)?;
    put_text(text, "call", call_word(op))?;
    put_number(text, "line", line as u64)?;
    put_text(text, "subject", &subject_text(alloc, op)?)?;
    end(text)
}
