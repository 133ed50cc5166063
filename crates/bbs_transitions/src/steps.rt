//! The step of a command: what it comes to, and the rows after it.
ghost use Rattle.std.specs.Prelude.{◌≡◌, ◌+◌, ◌≤◌, Some};
ghost use Rattle.bbs_model.specs.Runs.{state_after};
ghost use Rattle.bbs_model.specs.Step.{verdict_of, IsLegal, rows_after, events_of, events_in, changed_by};
ghost use Rattle.bbs_model.specs.Valid.{IsValid};
ghost use Rattle.bbs_transitions.specs.Stepped.{TellsStep, IsDoable};

use crate::Stepped;
use crate::edits::{perform, perform_again};
use crate::looks::look;
use bbs_model::{Attempt, Command, Events, RowStore, Verdict, attempt_at, judge};

/// What the step of a command comes to, by a constant number of look-ups. It changes nothing and takes
/// no memory.
pub fn decide<T: RowStore>(store: &T, command: &Command) -> Verdict
    requires { IsValid (T.state store.now) }
    ensures { result ≡ verdict_of (T.state store.now) command.entry.now }
{
    let found = look(store, &command.op);
    judge(found.next, &attempt_at(&found, command))
}

/// Does what a legal command says, which is one transition, by a constant number of look-ups, puts and
/// removals. It takes no memory: room for two rows was reserved.
pub fn apply<T: RowStore>(store: &mut T, command: &Command) -> Events
    requires valid { IsValid (T.state store.old) }
    requires legal { IsLegal (T.state store.old) command.now }
    requires room { 2 ≤ T.spare store.old }
    ensures state { T.state store.new ≡ rows_after (T.state store.old) command.entry.now }
    ensures events { Some result ≡ events_of (T.state store.old) command.entry.now }
    ensures valid { IsValid (T.state store.new) }
    ensures spare { T.spare store.old ≤ T.spare store.new + 2 }
{
    let found = look(store, &command.op);
    make(store, &attempt_at(&found, command))
}

/// The two in one: does what a command says where it is legal, and tells else why nothing changed. It
/// looks once at the rows that the command names.
pub fn step_in<T: RowStore>(store: &mut T, command: &Command) -> Stepped
    requires valid { IsValid (T.state store.old) }
    requires room { IsLegal (T.state store.old) command.now → 2 ≤ T.spare store.old }
    ensures tells { TellsStep result (T.state store.old) command.entry.now }
    ensures state { T.state store.new ≡ state_after (T.state store.old) command.entry.now }
    ensures valid { IsValid (T.state store.new) }
    ensures spare { T.spare store.old ≤ T.spare store.new + 2 }
{
    let found = look(store, &command.op);
    let attempt = attempt_at(&found, command);
    match judge(found.next, &attempt) {
        Verdict::Ok => Stepped::Done(make(store, &attempt)),
        Verdict::Same => Stepped::Same,
        Verdict::Refused(why) => Stepped::Refused(why),
    }
}

/// Makes the changes of an attempt, which are one transition.
fn make<T: RowStore>(store: &mut T, attempt: &Attempt) -> Events
    requires doable { IsDoable (T.state store.old) attempt.now }
    requires room { 2 ≤ T.spare store.old }
    ensures state { T.state store.new ≡ changed_by (T.state store.old) attempt.entry.now }
    ensures events { Some result ≡ events_in (T.state store.old) attempt.entry.now }
    ensures spare { T.spare store.old ≤ T.spare store.new + 2 }
{
    match attempt {
        Attempt::Change { first, second } => {
            let first = perform(store, first);
            let second = perform_again(store, second);
            store.advance();
            Events { first, second }
        }
        Attempt::Refuse(_) | Attempt::Keep => unreachable!(),
    }
}
