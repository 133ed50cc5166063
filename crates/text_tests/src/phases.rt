//! The text of phases, at lines that were worked out by hand.
mod answers;
mod events;
mod fitting;
mod rounds;
mod telling;

use bbs_model::{Change, Command, Event, Op, Reply, Row};
use cell_records::Amounts;
use cell_rep::CallEnd;
use crash_backoff::Moment;
use diego_names::{Instance, Key, Name};
use lrp_records::{Actual, Desired, LrpState, Presence};
use scenario_lines::{Act, Answered, Line};
use std::test::Fail;
use telling::{Case, complete, tells};

const OK: CallEnd = CallEnd::Got(Reply::Ok { place: 0, stamp: 0 });

const TOTALS: Amounts = Amounts {
    memory: 1024,
    disk: 4096,
    containers: 10,
};

fn name(text: &str) -> Result<Name, Fail> {
    Ok(Name::read(text.as_bytes())?)
}

fn web(index: u32) -> Result<Key, Fail> {
    let process = name("web")?;
    Ok(Key { process, index })
}

const fn instance(epoch: u64, number: u32) -> Instance {
    Instance { epoch, number }
}

fn desired(process: &str, instances: u32) -> Result<Desired, Fail> {
    Ok(Desired {
        process: name(process)?,
        domain: name("apps")?,
        instances,
        memory: 64,
        disk: 128,
        tag: None,
        route: None,
        port: 8080,
    })
}

/// The row of an instance, UNCLAIMED.
fn unclaimed(index: u32, since: u32) -> Result<Actual, Fail> {
    Ok(Actual {
        key: web(index)?,
        presence: Presence::Ordinary,
        state: LrpState::Unclaimed,
        count: 0,
        since: Moment(since),
        error: false,
        domain: None,
    })
}

fn actual_event(change: Change, row: Actual) -> Event {
    let row = Row::Actual(row);
    Event { change, row }
}

/// A line that is run once.
const fn line(line: u32, actor: u32, act: Act) -> Line {
    Line {
        line,
        actor,
        act,
        lost: None,
        times: 1,
    }
}

const fn answer(line: &Line, command: Option<Command>, end: CallEnd) -> Answered {
    Answered {
        actor: line.actor,
        line: line.line,
        command,
        end,
    }
}

/// The answer to a line that made this command.
const fn called(line: &Line, op: Op, end: CallEnd) -> Answered {
    let now = Moment(0);
    answer(line, Some(Command { now, op }), end)
}
