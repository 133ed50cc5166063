//! The words that stand in printed lines.
ghost use Rattle.std.specs.Prelude.{◌≡◌};
ghost use Rattle.record_print.specs.Words.{act_word, check_area_word, asked_word, call_word, change_word, end_word, presence_word, state_word, table_word};

use crate::asked::{ActWord, Asked};
use bbs_model::{CallFault, Change, Op, Reply, Row};
use cell_rep::CallEnd;
use diego_names::StateName;
use disk_trait::Area;
use lrp_records::Presence;

/// The word of a command. A scenario's own words for what a client asks are among them.
pub fn call_word(op: &Op) -> &'static str
    ensures { result.now ≡ call_word op.now }
{
    match op {
        Op::Desire { .. } => "desire",
        Op::Update { .. } => "update",
        Op::Undesire { .. } => "undesire",
        Op::Make { .. } => "make",
        Op::Claim { .. } => "claim",
        Op::Start { .. } => "start",
        Op::Crash { .. } => "crash",
        Op::Unclaim { .. } => "unclaim",
        Op::Restart { .. } => "restart",
        Op::Remove { .. } => "remove",
        Op::PlaceFail { .. } => "placefail",
        Op::Evacuate { .. } => "evacuate",
        Op::DropEvacuating { .. } => "dropevacuating",
        Op::NewTask { .. } => "task",
        Op::StartTask { .. } => "starttask",
        Op::CompleteTask { .. } => "completetask",
        Op::CancelTask { .. } => "cancel",
        Op::ResolveTask { .. } => "resolve",
        Op::DeleteTask { .. } => "delete",
        Op::KickTask { .. } => "kick",
        Op::ExpireTask { .. } => "expire",
        Op::Join { .. } => "join",
        Op::Renew { .. } => "renew",
        Op::Drain { .. } => "drain",
        Op::Vanish { .. } => "vanish",
        Op::Fresh { .. } => "fresh",
        Op::Forget { .. } => "forget",
        Op::Suspect { .. } => "suspect",
        Op::DropSuspect { .. } => "dropsuspect",
    }
}

/// The word of a cell's line that made no command.
pub fn act_word(word: ActWord) -> &'static str
    ensures { result.now ≡ act_word word }
{
    match word {
        ActWord::Join => "join",
        ActWord::Renew => "renew",
        ActWord::Claim => "claim",
        ActWord::Run => "run",
        ActWord::Up => "up",
        ActWord::Crash => "crash",
        ActWord::Finish => "finish",
        ActWord::Settle => "settle",
        ActWord::Evacuate => "evacuate",
        ActWord::Die => "die",
    }
}

pub fn asked_word(asked: &Asked) -> &'static str
    ensures { result.now ≡ asked_word asked.now }
{
    match asked {
        Asked::Command(op) => call_word(op),
        Asked::Word(word, _) => act_word(*word),
    }
}

/// Empty for a call that wanted memory, whose phase isn't printed.
pub fn end_word(end: &CallEnd) -> &'static str
    ensures { result.now ≡ end_word end.now }
{
    match end {
        CallEnd::Got(Reply::Ok { .. }) => "ok",
        CallEnd::Got(Reply::Same { .. }) => "same",
        CallEnd::Got(Reply::Refused { .. }) => "refused",
        CallEnd::Fault(CallFault::Disk { .. }) => "disk",
        CallEnd::Fault(CallFault::OutOfMemory) => "",
        CallEnd::CallLost => "lost call",
        CallEnd::ReplyLost(_) => "lost reply",
        CallEnd::Local(_) => "refused",
        CallEnd::Idle => "none",
    }
}

pub fn change_word(change: Change) -> &'static str
    ensures { result.now ≡ change_word change }
{
    match change {
        Change::Created => "created",
        Change::Changed => "changed",
        Change::Removed => "removed",
    }
}

pub fn table_word(row: &Row) -> &'static str
    ensures { result.now ≡ table_word row.now }
{
    match row {
        Row::Desired(_) => "desired",
        Row::Actual(_) => "actual",
        Row::Task(_) => "task",
        Row::Cell(_) => "cell",
        Row::Domain(_) => "domain",
    }
}

pub fn presence_word(presence: Presence) -> &'static str
    ensures { result.now ≡ presence_word presence }
{
    match presence {
        Presence::Ordinary => "ordinary",
        Presence::Evacuating => "evacuating",
        Presence::Suspect => "suspect",
    }
}

pub fn state_word(state: StateName) -> &'static str
    ensures { result.now ≡ state_word state }
{
    match state {
        StateName::Unclaimed => "unclaimed",
        StateName::Claimed => "claimed",
        StateName::Running => "running",
        StateName::Crashed => "crashed",
        StateName::Pending => "pending",
        StateName::Completed => "completed",
        StateName::Resolving => "resolving",
    }
}

pub fn area_word(area: Area) -> &'static str
    ensures { result.now ≡ check_area_word area }
{
    match area {
        Area::A => "a",
        Area::B => "b",
    }
}
