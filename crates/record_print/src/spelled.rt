//! How a key is spelled, and what a command names.
ghost use Rattle.std.specs.Prelude.{◌≡◌, IfOk, OnOk, codes, string_bytes};
ghost use Rattle.serde_json.specs.Data.{string};
ghost use Rattle.line_writing.specs.Writing.{AddsMember};
ghost use Rattle.record_print.specs.Spelled.{asked_subject, job_text, key_text, subject_text, subject_words};

use crate::asked::Asked;
use bbs_model::Op;
use cell_records::JobName;
use diego_names::{Key, Name};
use json::Writer;
use line_writing::put_text;
use std::alloc::{AllocError, Global};

/// The process, a slash, and the index.
pub fn key_text(alloc: Global, key: &Key) -> Result<String, AllocError>
    ensures { IfOk result (λ s. string_bytes s ≡ key_text key.now) }
{
    let process = key.process;
    let index = key.index;
    format!(in alloc; "{process}/{index}")
}

/// What is named: by a name alone, or an instance by its key.
#[derive(Clone, Copy)]
pub(crate) enum Subject<'a> {
    Name(&'a Name),
    Key(&'a Key),
}

fn job_subject(job: &JobName) -> Subject<'_>
    ensures { subject_words result ≡ job_text job.now }
{
    match job {
        JobName::Lrp(key) => Subject::Key(key),
        JobName::Task(name) => Subject::Name(name),
    }
}

fn op_subject(op: &Op) -> Subject<'_>
    ensures { subject_words result ≡ subject_text op.now }
{
    match op {
        Op::Desire { desired } => Subject::Name(&desired.process),
        Op::Update { process, .. } | Op::Undesire { process } => Subject::Name(process),
        Op::Make { key }
        | Op::Claim { key, .. }
        | Op::Start { key, .. }
        | Op::Crash { key, .. }
        | Op::Unclaim { key, .. }
        | Op::Restart { key }
        | Op::Remove { key, .. }
        | Op::PlaceFail { key }
        | Op::Evacuate { key, .. }
        | Op::DropEvacuating { key, .. }
        | Op::Suspect { key, .. }
        | Op::DropSuspect { key, .. } => Subject::Key(key),
        Op::NewTask { name, .. }
        | Op::StartTask { name, .. }
        | Op::CompleteTask { name, .. }
        | Op::CancelTask { name }
        | Op::ResolveTask { name }
        | Op::DeleteTask { name }
        | Op::KickTask { name }
        | Op::ExpireTask { name } => Subject::Name(name),
        Op::Join { cell, .. }
        | Op::Renew { cell, .. }
        | Op::Drain { cell, .. }
        | Op::Vanish { cell } => Subject::Name(cell),
        Op::Fresh { domain, .. } | Op::Forget { domain } => Subject::Name(domain),
    }
}

fn asked_about<'a>(actor: &'a Name, asked: &'a Asked) -> Subject<'a>
    ensures { subject_words result ≡ asked_subject actor.now asked.now }
{
    match asked {
        Asked::Command(op) => op_subject(op),
        Asked::Word(_, Some(job)) => job_subject(job),
        Asked::Word(_, None) => Subject::Name(actor),
    }
}

fn text_of(alloc: Global, subject: &Subject) -> Result<String, AllocError>
    ensures { IfOk result (λ s. string_bytes s ≡ subject_words subject.now) }
{
    match subject {
        Subject::Name(name) => name.to_string(alloc),
        Subject::Key(key) => key_text(alloc, key),
    }
}

/// The key of an instance, or the name of a task.
pub fn job_text(alloc: Global, job: &JobName) -> Result<String, AllocError>
    ensures { IfOk result (λ s. string_bytes s ≡ job_text job.now) }
{
    text_of(alloc, &job_subject(job))
}

/// What a command names: a process, an instance by its key, as `web/0`, a task, a cell, or a domain.
pub fn subject_text(alloc: Global, op: &Op) -> Result<String, AllocError>
    ensures { IfOk result (λ s. string_bytes s ≡ subject_text op.now) }
{
    text_of(alloc, &op_subject(op))
}

// A name is written from where it stands. A key is spelled first, since a writer takes a text whole.
fn put_named(line: &mut Writer, alloc: Global, subject: &Subject) -> Result<(), AllocError>
    ensures { OnOk result (AddsMember line.old line.new (codes "subject")
        (string (subject_words subject.now))) }
{
    match subject {
        Subject::Name(name) => put_text(line, "subject", name.as_str()),
        Subject::Key(key) => put_text(line, "subject", &key_text(alloc, key)?),
    }
}

/// The member that tells what an actor asked about: what its command names, or the job that its line
/// names, or else itself.
pub fn put_subject(
    line: &mut Writer,
    alloc: Global,
    actor: &Name,
    asked: &Asked,
) -> Result<(), AllocError>
    ensures { OnOk result (AddsMember line.old line.new (codes "subject")
        (string (asked_subject actor.now asked.now))) }
{
    put_named(line, alloc, &asked_about(actor, asked))
}
