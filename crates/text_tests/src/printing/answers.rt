//! Answers: each way in which a call ends, and lines that made none.
use super::{desired, instance, key, name, reads};
use bbs_model::{BoardRefusal, CallFault, Op, Reply};
use cell_records::JobName;
use cell_rep::{CallEnd, RepRefusal};
use container_store::StoreRefusal;
use diego_names::{Instance, StateName};
use lrp_records::LrpRefusal;
use record_print::{ActWord, Asked, answer_text};
use std::alloc::Global;
use std::process::Abort;
use std::test::Fail;
use task_records::TaskRefusal;

const OK: Reply = Reply::Ok { place: 0, stamp: 0 };

const SAME: Reply = Reply::Same { place: 0 };

const DISK: CallFault = CallFault::Disk { place: 0 };

const HELD: BoardRefusal = BoardRefusal::Lrp(LrpRefusal::Held {
    by: Instance {
        epoch: 0,
        number: 1,
    },
});

const fn refused(why: BoardRefusal) -> Reply {
    Reply::Refused { why, place: 0 }
}

fn desire() -> Result<Asked, Fail> {
    let desired = desired()?;
    Ok(Asked::Command(Op::Desire { desired }))
}

fn claim() -> Result<Asked, Fail> {
    Ok(Asked::Command(Op::Claim {
        key: key("web", 0)?,
        instance: instance(1, 1),
        cell: name("c2")?,
    }))
}

fn complete() -> Result<Asked, Fail> {
    Ok(Asked::Command(Op::CompleteTask {
        name: name("job")?,
        instance: instance(1, 1),
        failed: false,
    }))
}

fn forget() -> Result<Asked, Fail> {
    let domain = name("apps")?;
    Ok(Asked::Command(Op::Forget { domain }))
}

fn answer_reads(
    rt: &impl Abort,
    alloc: Global,
    actor: &str,
    line: u32,
    asked: &Asked,
    end: &CallEnd,
    want: &str,
) -> Result<(), Fail> {
    let text = answer_text(alloc, &name(actor)?, line, asked, end)?;
    reads(rt, text.as_slice(), want);
    Ok(())
}

#[test]
fn an_answer_tells_what_came_of_a_call_that_was_heard(rt: HostRuntime) -> Result<(), Fail> {
    for (actor, line, asked, end, want) in [
        (
            "cli",
            2,
            desire()?,
            CallEnd::Got(OK),
            r#"{"actor":"cli","answer":"ok","call":"desire","line":2,"subject":"web"}"#,
        ),
        (
            "c1",
            10,
            claim()?,
            CallEnd::Got(SAME),
            r#"{"actor":"c1","answer":"same","call":"claim","line":10,"subject":"web/0"}"#,
        ),
        (
            "cli",
            2,
            desire()?,
            CallEnd::Fault(DISK),
            r#"{"actor":"cli","answer":"disk","call":"desire","line":2,"subject":"web"}"#,
        ),
    ] {
        answer_reads(&rt, rt.alloc(), actor, line, &asked, &end, want)?;
    }
    Ok(())
}

#[test]
fn a_refused_answer_tells_why(rt: HostRuntime) -> Result<(), Fail> {
    let state = StateName::Completed;
    for (actor, line, asked, why, want) in [
        (
            "c2",
            12,
            claim()?,
            HELD,
            r#"{"actor":"c2","answer":"refused","call":"claim","line":12,"subject":"web/0","why":"held 0.1"}"#,
        ),
        (
            "c1",
            8,
            complete()?,
            BoardRefusal::Task(TaskRefusal::WrongState { state }),
            r#"{"actor":"c1","answer":"refused","call":"completetask","line":8,"subject":"job","why":"wrong state completed"}"#,
        ),
        (
            "cli",
            3,
            desire()?,
            BoardRefusal::Exists,
            r#"{"actor":"cli","answer":"refused","call":"desire","line":3,"subject":"web","why":"exists"}"#,
        ),
        (
            "cli",
            5,
            forget()?,
            BoardRefusal::LeaseHolds { until: 60 },
            r#"{"actor":"cli","answer":"refused","call":"forget","line":5,"subject":"apps","why":"lease holds 60"}"#,
        ),
    ] {
        let end = CallEnd::Got(refused(why));
        answer_reads(&rt, rt.alloc(), actor, line, &asked, &end, want)?;
    }
    Ok(())
}

// Whatever was lost, the line is that of the call and says no more.
fn lost_reads(rt: &impl Abort, alloc: Global, end: &CallEnd, what: &str) -> Result<(), Fail> {
    let want = format!(in alloc;
        "{{\"actor\":\"c1\",\"answer\":\"{what}\",\"call\":\"claim\",\"line\":10,\"subject\":\"web/0\"}}"
    )?;
    answer_reads(rt, alloc, "c1", 10, &claim()?, end, want.as_str())
}

#[test]
fn a_lost_call_or_reply_tells_nothing_of_the_board(rt: HostRuntime) -> Result<(), Fail> {
    let alloc = rt.alloc();
    lost_reads(&rt, alloc, &CallEnd::CallLost, "lost call")?;
    lost_reads(&rt, alloc, &CallEnd::ReplyLost(Ok(OK)), "lost reply")?;
    lost_reads(&rt, alloc, &CallEnd::ReplyLost(Ok(SAME)), "lost reply")?;
    lost_reads(
        &rt,
        alloc,
        &CallEnd::ReplyLost(Ok(refused(HELD))),
        "lost reply",
    )?;
    lost_reads(&rt, alloc, &CallEnd::ReplyLost(Err(DISK)), "lost reply")
}

#[test]
fn a_line_without_a_call_tells_its_word_and_its_job_or_cell(rt: HostRuntime) -> Result<(), Fail> {
    let web = Some(JobName::Lrp(key("web", 0)?));
    let job = Some(JobName::Task(name("job")?));
    for (word, of, end, want) in [
        (
            ActWord::Evacuate,
            None,
            CallEnd::Local(RepRefusal::Down),
            r#"{"actor":"c1","answer":"refused","call":"evacuate","line":4,"subject":"c1","why":"down"}"#,
        ),
        (
            ActWord::Run,
            web,
            CallEnd::Local(RepRefusal::Store(StoreRefusal::NoSlot)),
            r#"{"actor":"c1","answer":"refused","call":"run","line":4,"subject":"web/0","why":"no slot"}"#,
        ),
        (
            ActWord::Finish,
            job,
            CallEnd::Local(RepRefusal::Store(StoreRefusal::Unknown)),
            r#"{"actor":"c1","answer":"refused","call":"finish","line":4,"subject":"job","why":"no container"}"#,
        ),
        (
            ActWord::Up,
            job,
            CallEnd::Idle,
            r#"{"actor":"c1","answer":"none","call":"up","line":4,"subject":"job"}"#,
        ),
        (
            ActWord::Die,
            None,
            CallEnd::Idle,
            r#"{"actor":"c1","answer":"none","call":"die","line":4,"subject":"c1"}"#,
        ),
    ] {
        answer_reads(&rt, rt.alloc(), "c1", 4, &Asked::Word(word, of), &end, want)?;
    }
    Ok(())
}
