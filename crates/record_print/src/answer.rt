//! The line that tells how a call ended, or that none was made.
ghost use Rattle.std.specs.Prelude.{◌≡◌, IfOk, OnOk};
ghost use Rattle.serde_json.specs.Data.{no_members as nothing_more};
ghost use Rattle.record_print.specs.Printed.{line_text, answer_data, answer_members, refused_data};
ghost use Rattle.line_writing.specs.Writing.{AddsValue};

use crate::asked::Asked;
use crate::spelled::put_subject;
use crate::why::{rep_why_text, why_text};
use crate::word::{asked_word, end_word};
use bbs_model::Reply;
use cell_rep::CallEnd;
use diego_names::Name;
use json::Writer;
use line_writing::{begin, end, line_begun, line_ended, put_number, put_text};
use std::alloc::{AllocError, Global};

/// The answer to an actor at a line of the scenario.
pub fn answer_text(
    alloc: Global,
    actor: &Name,
    line: u32,
    asked: &Asked,
    end: &CallEnd,
) -> Result<Vec<u8>, AllocError>
    ensures { IfOk result
        (λ v. v.items ≡ line_text (answer_data actor.now line asked.now end.now)) }
{
    let mut text = line_begun(alloc)?;
    put_answer(&mut text, alloc, actor, line, asked, end)?;
    line_ended(text)
}

fn put_answer(
    text: &mut Writer,
    alloc: Global,
    actor: &Name,
    line: u32,
    asked: &Asked,
    end: &CallEnd,
) -> Result<(), AllocError>
    ensures { OnOk result (AddsValue text.old text.new (answer_data actor.now line asked.now end.now)) }
{
    match end {
        CallEnd::Got(Reply::Refused { why, place: _ }) => {
            put_refused(text, alloc, actor, line, asked, &why_text(alloc, why)?)
        }
        CallEnd::Local(why) => put_refused(text, alloc, actor, line, asked, rep_why_text(*why)),
        _ => put_plain(text, alloc, actor, line, asked, end_word(end)),
    }
}

fn put_plain(
    text: &mut Writer,
    alloc: Global,
    actor: &Name,
    line: u32,
    asked: &Asked,
    word: &str,
) -> Result<(), AllocError>
    ensures { OnOk result (AddsValue text.old text.new
        (answer_members actor.now word.now line asked.now nothing_more)) }
{
    begin(text)?;
    put_text(text, "actor", actor.as_str())?;
    put_text(text, "answer", word)?;
    put_text(text, "call", asked_word(asked))?;
    put_number(text, "line", line as u64)?;
    put_subject(text, alloc, actor, asked)?;
    end(text)
}

fn put_refused(
    text: &mut Writer,
    alloc: Global,
    actor: &Name,
    line: u32,
    asked: &Asked,
    why: &str,
) -> Result<(), AllocError>
    ensures { OnOk result (AddsValue text.old text.new (refused_data actor.now line asked.now why.now)) }
{
    begin(text)?;
    put_text(text, "actor", actor.as_str())?;
    put_text(text, "answer", "refused")?;
    put_text(text, "call", asked_word(asked))?;
    put_number(text, "line", line as u64)?;
    put_subject(text, alloc, actor, asked)?;
    put_text(text, "why", why)?;
    end(text)
}
