//! The step of a command by plain scans of the rows: what every faster body is compared with.
ghost use Rattle.std.specs.Prelude.{◌≡◌, ◌<◌, Some, None, OnOk, OnErr, IfOk};
ghost use Rattle.bbs_model.specs.Limits.{most_transitions};
ghost use Rattle.bbs_model.specs.Step.{verdict_of, IsLegal, rows_after, events_of, advanced, edited, edited_again, event_of, event_again};
ghost use Rattle.bbs_model.specs.Valid.{IsValid};

use crate::editing::{copy_of, edit};
use crate::looking::found;
use bbs_model::{Attempt, Command, Edit, Events, Rows, Verdict, attempt_at, judge};
use diego_names::OutOfMemory;
use std::alloc::Global;

/// What the step of a command comes to. It changes nothing and takes no memory.
pub fn decide(rows: &Rows, command: &Command) -> Verdict
    requires { IsValid rows.now }
    ensures { result ≡ verdict_of rows.now command.entry.now }
{
    let attempt = attempt_at(&found(rows, &command.op), command);
    judge(rows.next, &attempt)
}

/// Does what a legal command says, which is one transition, and tells the changes of rows. Where
/// memory runs out, the rows stay.
pub fn apply(alloc: Global, rows: &mut Rows, command: &Command) -> Result<Events, OutOfMemory>
    requires valid { IsValid rows.old }
    requires legal { IsLegal rows.old command.now }
    ensures ok { OnOk result (rows.new ≡ rows_after rows.old command.entry.now) }
    ensures events { IfOk result (λ events. Some events ≡ events_of rows.old command.entry.now) }
    ensures valid { IsValid rows.new }
    ensures err { OnErr result (rows.new ≡ rows.old) }
{
    match attempt_at(&found(rows, &command.op), command) {
        Attempt::Change { first, second } => change(alloc, rows, &first, &second),
        Attempt::Refuse(_) | Attempt::Keep => unreachable!(),
    }
}

/// Makes a transition of one edit or two. Where memory runs out, the rows stay.
fn change(
    alloc: Global,
    rows: &mut Rows,
    first: &Edit,
    second: &Option<Edit>,
) -> Result<Events, OutOfMemory>
    requires { rows.old.next < most_transitions }
    ensures ok { OnOk result (rows.new
        ≡ advanced (edited_again (edited rows.old first.entry.now) second.entry.now)) }
    ensures events { IfOk result (λ events. events ≡ record {
      first = event_of rows.old first.entry.now;
      second = event_again (edited rows.old first.entry.now) second.entry.now;
    }) }
    ensures err { OnErr result (rows.new ≡ rows.old) }
{
    match second {
        None => change_one(alloc, rows, first),
        Some(second) => change_two(alloc, rows, first, second),
    }
}

fn change_one(alloc: Global, rows: &mut Rows, only: &Edit) -> Result<Events, OutOfMemory>
    requires { rows.old.next < most_transitions }
    ensures ok { OnOk result (rows.new ≡ advanced (edited rows.old only.entry.now)) }
    ensures events { IfOk result (λ events.
        events ≡ record { first = event_of rows.old only.entry.now; second = None }) }
    ensures err { OnErr result (rows.new ≡ rows.old) }
{
    let event = edit(alloc, rows, only)?;
    rows.next += 1;
    Ok(Events {
        first: event,
        second: None,
    })
}

/// The second edit is made on what the first made.
fn change_two(
    alloc: Global,
    rows: &mut Rows,
    first: &Edit,
    second: &Edit,
) -> Result<Events, OutOfMemory>
    requires { rows.old.next < most_transitions }
    ensures ok { OnOk result (rows.new
        ≡ advanced (edited (edited rows.old first.entry.now) second.entry.now)) }
    ensures events { IfOk result (λ events. events ≡ record {
      first = event_of rows.old first.entry.now;
      second = Some (event_of (edited rows.old first.entry.now) second.entry.now);
    }) }
    ensures err { OnErr result (rows.new ≡ rows.old) }
{
    let mut new = copy_of(alloc, rows)?;
    let first = edit(alloc, &mut new, first)?;
    let second = edit(alloc, &mut new, second)?;
    new.next += 1;
    *rows = new;
    Ok(Events {
        first,
        second: Some(second),
    })
}
