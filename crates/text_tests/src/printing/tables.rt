//! The words of all commands and the causes of all refusals, as docs/scenario.md lists them.
use super::{TOTALS, desired, instance, key, name};
use bbs_model::{BoardRefusal, Op};
use cell_rep::RepRefusal;
use container_store::StoreRefusal;
use diego_names::StateName;
use lrp_records::LrpRefusal;
use record_print::{ActWord, act_word, call_word, rep_why_text, subject_text, why_text};
use std::alloc::Global;
use std::process::Abort;
use std::test::Fail;
use task_records::TaskRefusal;

fn names(rt: &impl Abort, alloc: Global, op: &Op, word: &str, subject: &str) -> Result<(), Fail> {
    assert_eq!(rt; call_word(op), word);
    let text = subject_text(alloc, op)?;
    assert_eq!(rt; text.as_str(), subject, "of {word}");
    Ok(())
}

fn processes(rt: &impl Abort, alloc: Global) -> Result<(), Fail> {
    let (process, route) = (name("web")?, Some(name("r1")?));
    let desired = desired()?;
    let update = Op::Update {
        process,
        instances: 2,
        route,
        port: 8080,
    };
    names(rt, alloc, &Op::Desire { desired }, "desire", "web")?;
    names(rt, alloc, &update, "update", "web")?;
    names(rt, alloc, &Op::Undesire { process }, "undesire", "web")
}

fn instances(rt: &impl Abort, alloc: Global) -> Result<(), Fail> {
    let (key, cell, instance) = (key("web", 12)?, name("c1")?, instance(7, 2));
    let claim = Op::Claim {
        key,
        instance,
        cell,
    };
    let start = Op::Start {
        key,
        instance,
        cell,
    };
    let of = Some(instance);
    for (op, word) in [
        (Op::Make { key }, "make"),
        (claim, "claim"),
        (start, "start"),
        (Op::Crash { key, instance }, "crash"),
        (Op::Unclaim { key, instance }, "unclaim"),
        (Op::Restart { key }, "restart"),
        (
            Op::Remove {
                key,
                instance: None,
            },
            "remove",
        ),
        (Op::Remove { key, instance: of }, "remove"),
        (Op::PlaceFail { key }, "placefail"),
        (Op::Evacuate { key, instance }, "evacuate"),
        (Op::DropEvacuating { key, instance }, "dropevacuating"),
        (Op::Suspect { key, instance }, "suspect"),
        (Op::DropSuspect { key, instance }, "dropsuspect"),
    ] {
        names(rt, alloc, &op, word, "web/12")?;
    }
    Ok(())
}

fn tasks(rt: &impl Abort, alloc: Global) -> Result<(), Fail> {
    let (name, cell, instance) = (name("job")?, name("c1")?, instance(7, 2));
    let task = Op::NewTask {
        name,
        memory: 64,
        disk: 128,
        tag: None,
    };
    let start = Op::StartTask {
        name,
        instance,
        cell,
    };
    let complete = Op::CompleteTask {
        name,
        instance,
        failed: true,
    };
    for (op, word) in [
        (task, "task"),
        (start, "starttask"),
        (complete, "completetask"),
        (Op::CancelTask { name }, "cancel"),
        (Op::ResolveTask { name }, "resolve"),
        (Op::DeleteTask { name }, "delete"),
        (Op::KickTask { name }, "kick"),
        (Op::ExpireTask { name }, "expire"),
    ] {
        names(rt, alloc, &op, word, "job")?;
    }
    Ok(())
}

fn cells(rt: &impl Abort, alloc: Global) -> Result<(), Fail> {
    let (cell, zone) = (name("c1")?, name("z1")?);
    let join = Op::Join {
        cell,
        zone,
        tag: None,
        totals: TOTALS,
        ttl: 600,
    };
    let (epoch, ttl) = (7, 600);
    for (op, word) in [
        (join, "join"),
        (Op::Renew { cell, epoch, ttl }, "renew"),
        (Op::Drain { cell, epoch }, "drain"),
        (Op::Vanish { cell }, "vanish"),
    ] {
        names(rt, alloc, &op, word, "c1")?;
    }
    Ok(())
}

fn domains(rt: &impl Abort, alloc: Global) -> Result<(), Fail> {
    let (domain, ttl) = (name("apps")?, 60);
    names(rt, alloc, &Op::Fresh { domain, ttl }, "fresh", "apps")?;
    names(rt, alloc, &Op::Forget { domain }, "forget", "apps")
}

fn is_told(rt: &impl Abort, alloc: Global, why: &BoardRefusal, want: &str) -> Result<(), Fail> {
    let text = why_text(alloc, why)?;
    assert_eq!(rt; text.as_str(), want);
    Ok(())
}

fn of_the_board(rt: &impl Abort, alloc: Global) -> Result<(), Fail> {
    let last = 18_446_744_073_709_551_615;
    for (why, want) in [
        (BoardRefusal::Exists, "exists"),
        (BoardRefusal::Unknown, "unknown"),
        (BoardRefusal::NotWanted, "not wanted"),
        (BoardRefusal::TooMany { limit: 1000 }, "too many 1000"),
        (BoardRefusal::TooMany { limit: 50_000 }, "too many 50000"),
        (BoardRefusal::UnknownCell, "unknown cell"),
        (BoardRefusal::StaleEpoch { now: 8 }, "stale epoch 8"),
        (BoardRefusal::BoardFull, "board full"),
        (
            BoardRefusal::LeaseHolds { until: last },
            "lease holds 18446744073709551615",
        ),
    ] {
        is_told(rt, alloc, &why, want)?;
    }
    Ok(())
}

fn of_moves(rt: &impl Abort, alloc: Global) -> Result<(), Fail> {
    let have = instance(7, 2);
    let by = have;
    for (why, want) in [
        (LrpRefusal::Held { by }, "held 7.2"),
        (LrpRefusal::NotRunning, "not running"),
        (LrpRefusal::WrongInstance { have }, "wrong instance 7.2"),
        (
            LrpRefusal::NotDue { at: 4_294_968_255 },
            "not due 4294968255",
        ),
        (LrpRefusal::GivenUp, "given up"),
    ] {
        is_told(rt, alloc, &BoardRefusal::Lrp(why), want)?;
    }
    for (why, want) in [
        (TaskRefusal::WrongInstance { have }, "wrong instance 7.2"),
        (TaskRefusal::NotDue { at: 130 }, "not due 130"),
    ] {
        is_told(rt, alloc, &BoardRefusal::Task(why), want)?;
    }
    Ok(())
}

fn of_states(rt: &impl Abort, alloc: Global) -> Result<(), Fail> {
    for (state, want) in [
        (StateName::Unclaimed, "wrong state unclaimed"),
        (StateName::Claimed, "wrong state claimed"),
        (StateName::Running, "wrong state running"),
        (StateName::Crashed, "wrong state crashed"),
        (StateName::Pending, "wrong state pending"),
        (StateName::Completed, "wrong state completed"),
        (StateName::Resolving, "wrong state resolving"),
    ] {
        let of_row = BoardRefusal::Lrp(LrpRefusal::WrongState { state });
        is_told(rt, alloc, &of_row, want)?;
        let of_task = BoardRefusal::Task(TaskRefusal::WrongState { state });
        is_told(rt, alloc, &of_task, want)?;
    }
    Ok(())
}

fn of_reps(rt: &impl Abort) {
    assert_eq!(rt; rep_why_text(RepRefusal::Down), "down");
    for (why, want) in [
        (StoreRefusal::NoMemoryLeft, "no memory left"),
        (StoreRefusal::NoDiskLeft, "no disk left"),
        (StoreRefusal::NoSlot, "no slot"),
        (StoreRefusal::Unknown, "no container"),
    ] {
        assert_eq!(rt; rep_why_text(RepRefusal::Store(why)), want);
    }
}

#[test]
fn every_line_of_a_cell_has_its_word(rt: HostRuntime) {
    for (word, want) in [
        (ActWord::Join, "join"),
        (ActWord::Renew, "renew"),
        (ActWord::Claim, "claim"),
        (ActWord::Run, "run"),
        (ActWord::Up, "up"),
        (ActWord::Crash, "crash"),
        (ActWord::Finish, "finish"),
        (ActWord::Settle, "settle"),
        (ActWord::Evacuate, "evacuate"),
        (ActWord::Die, "die"),
    ] {
        assert_eq!(rt; act_word(word), want);
    }
}

#[test]
fn every_command_is_told_by_its_word_and_what_it_names(rt: HostRuntime) -> Result<(), Fail> {
    processes(&rt, rt.alloc())?;
    instances(&rt, rt.alloc())?;
    tasks(&rt, rt.alloc())?;
    cells(&rt, rt.alloc())?;
    domains(&rt, rt.alloc())
}

#[test]
fn every_refusal_is_told_by_its_cause(rt: HostRuntime) -> Result<(), Fail> {
    of_the_board(&rt, rt.alloc())?;
    of_moves(&rt, rt.alloc())?;
    of_reps(&rt);
    of_states(&rt, rt.alloc())
}
