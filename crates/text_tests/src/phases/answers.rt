//! Phases of actors: lines that are run more than once, and lines that made no command.
use super::{Case, OK, answer, called, instance, line, name, tells, web};
use bbs_model::{BoardRefusal, Change, Event, Op, Reply, Row};
use cell_records::JobName;
use cell_rep::{CallEnd, CellAct, RepRefusal};
use container_store::StoreRefusal;
use crash_backoff::Moment;
use diego_names::{Name, StateName};
use scenario_lines::{Act, Answered, Line};
use std::test::Fail;
use task_records::{Task, TaskRefusal, TaskState};

fn job(birth: u64, since: u32, change: Change, state: TaskState) -> Result<Event, Fail> {
    let row = Row::Task(Task {
        name: name("job")?,
        birth,
        state,
        since: Moment(since),
        memory: 64,
        disk: 64,
        tag: None,
    });
    Ok(Event { change, row })
}

const fn new_job(name: Name) -> Op {
    Op::NewTask {
        name,
        memory: 64,
        disk: 64,
        tag: None,
    }
}

const fn completed(name: Name, failed: bool) -> Op {
    Op::CompleteTask {
        name,
        instance: instance(0, 1),
        failed,
    }
}

// A line that is run twice, and its answers.
fn finished_twice(name: Name, failed: bool) -> ([Line; 1], [Answered; 2]) {
    let finish = Line {
        times: 2,
        ..line(8, 1, Act::Cell(CellAct::Finish { name, failed }))
    };
    let state = StateName::Completed;
    let refused = CallEnd::Got(Reply::Refused {
        why: BoardRefusal::Task(TaskRefusal::WrongState { state }),
        place: 4,
    });
    let lost = CallEnd::ReplyLost(Ok(Reply::Ok { place: 3, stamp: 3 }));
    let runs = [
        called(&finish, completed(name, failed), lost),
        called(&finish, completed(name, failed), refused),
    ];
    ([finish], runs)
}

#[test]
fn each_run_of_a_line_has_its_answer(rt: HostRuntime) -> Result<(), Fail> {
    let (failed, none) = (false, []);
    let (lines, runs) = finished_twice(name("job")?, failed);
    let case = Case {
        actors: &[(true, "c1"), (false, "cli")],
        lines: &lines,
        round: None,
        parts: &[&runs, &none],
        report: None,
        events: &[job(1, 9, Change::Changed, TaskState::Completed { failed })?],
    };
    let want = [
        r#"{"actor":"c1","answer":"lost reply","call":"completetask","line":8,"subject":"job"}"#,
        r#"{"actor":"c1","answer":"refused","call":"completetask","line":8,"subject":"job","why":"wrong state completed"}"#,
        r#"{"event":"changed","row":{"birth":1,"cell":null,"disk":64,"failed":false,"instance":null,"memory":64,"name":"job","since":9,"state":"completed","tag":null},"table":"task"}"#,
    ];
    tells(&rt, rt.alloc(), &case, &want)
}

// A task that is resolved, deleted and made anew, and the answers.
fn made_anew(name: Name) -> ([Line; 3], [Answered; 3]) {
    let resolve = line(10, 2, Act::Client(Op::ResolveTask { name }));
    let delete = line(11, 2, Act::Client(Op::DeleteTask { name }));
    let make = line(12, 2, Act::Client(new_job(name)));
    let runs = [
        called(&resolve, Op::ResolveTask { name }, OK),
        called(&delete, Op::DeleteTask { name }, OK),
        called(&make, new_job(name), OK),
    ];
    ([resolve, delete, make], runs)
}

#[test]
fn events_of_one_row_stay_in_their_order(rt: HostRuntime) -> Result<(), Fail> {
    let (failed, none) = (false, []);
    let (lines, runs) = made_anew(name("job")?);
    let events = [
        job(1, 10, Change::Changed, TaskState::Resolving { failed })?,
        job(1, 10, Change::Removed, TaskState::Resolving { failed })?,
        job(6, 10, Change::Created, TaskState::Pending)?,
    ];
    let case = Case {
        actors: &[(true, "c1"), (false, "cli")],
        lines: &lines,
        round: None,
        parts: &[&none, &runs],
        report: None,
        events: &events,
    };
    let want = [
        r#"{"actor":"cli","answer":"ok","call":"resolve","line":10,"subject":"job"}"#,
        r#"{"actor":"cli","answer":"ok","call":"delete","line":11,"subject":"job"}"#,
        r#"{"actor":"cli","answer":"ok","call":"task","line":12,"subject":"job"}"#,
        r#"{"event":"changed","row":{"birth":1,"cell":null,"disk":64,"failed":false,"instance":null,"memory":64,"name":"job","since":10,"state":"resolving","tag":null},"table":"task"}"#,
        r#"{"event":"removed","row":{"birth":1,"cell":null,"disk":64,"failed":false,"instance":null,"memory":64,"name":"job","since":10,"state":"resolving","tag":null},"table":"task"}"#,
        r#"{"event":"created","row":{"birth":6,"cell":null,"disk":64,"failed":null,"instance":null,"memory":64,"name":"job","since":10,"state":"pending","tag":null},"table":"task"}"#,
    ];
    tells(&rt, rt.alloc(), &case, &want)
}

#[test]
fn a_line_without_a_command_tells_its_own_word_and_job(rt: HostRuntime) -> Result<(), Fail> {
    let claim = CellAct::Claim {
        job: JobName::Lrp(web(0)?),
        memory: 64,
        disk: 128,
    };
    let job = Some(JobName::Task(name("job")?));
    let lines = [
        line(4, 1, Act::Cell(claim)),
        line(5, 2, Act::Cell(CellAct::Up { job })),
        line(6, 1, Act::Cell(CellAct::Die)),
        line(7, 1, Act::Evacuate),
    ];
    let full = CallEnd::Local(RepRefusal::Store(StoreRefusal::NoMemoryLeft));
    let down = CallEnd::Local(RepRefusal::Down);
    let first = [
        answer(&lines[0], None, full),
        answer(&lines[2], None, CallEnd::Idle),
        answer(&lines[3], None, down),
    ];
    let second = [answer(&lines[1], None, CallEnd::Idle)];
    let case = Case {
        actors: &[(true, "c1"), (true, "c2")],
        lines: &lines,
        round: None,
        parts: &[&first, &second],
        report: None,
        events: &[],
    };
    let want = [
        r#"{"actor":"c1","answer":"refused","call":"claim","line":4,"subject":"web/0","why":"no memory left"}"#,
        r#"{"actor":"c2","answer":"none","call":"up","line":5,"subject":"job"}"#,
        r#"{"actor":"c1","answer":"none","call":"die","line":6,"subject":"c1"}"#,
        r#"{"actor":"c1","answer":"refused","call":"evacuate","line":7,"subject":"c1","why":"down"}"#,
    ];
    tells(&rt, rt.alloc(), &case, &want)
}
