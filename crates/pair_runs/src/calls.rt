//! The calls of a phase: the clients in the order of their numbers, each line as often as it says, with what
//! is lost on the way.
ghost use Rattle.std.specs.Prelude.{◌≡◌, ◌∷◌, [], true, Some, None, OnOk, OnErr, IfOk};
ghost use Rattle.pair_runs.specs.Accounts.{Serves};
ghost use Rattle.pair_runs.specs.Calls.{CallsUnder, EndsUnder};
ghost use Rattle.scenario_lines.specs.declared.act.Loss.TheVariants.{Reply as LostReply};
ghost use Rattle.pair_runs.specs.Served.{is_starved};
ghost use Rattle.pair_runs.specs.Turns.{RunsSome, RunsTurns, line_turn, mark_at, phase_turns, turns_in, turns_of, turns_of_all, turns_with};

use crate::account::Account;
use crate::server::Server;
use bbs_model::Command;
use crash_backoff::Moment;
use diego_names::OutOfMemory;
use pair_lines::{PairAnswered, PairEnded};
use scenario_lines::{Act, Line, Loss, Phase};
use standby_board::{PairFault, PairReply};

fn mark_at(mark: Option<Loss>, number: u32) -> Option<Loss>
    ensures { result ≡ mark_at mark number }
{
    if number == 0 { mark } else { None }
}

fn is_starved(end: &Result<PairReply, PairFault>) -> bool
    ensures { result ≡ is_starved end.now }
{
    matches!(end, Err(PairFault::OutOfMemory))
}

/// How a call ended whose client hears of it. In `Err` it wanted memory.
fn heard(end: Result<PairReply, PairFault>) -> Result<PairEnded, OutOfMemory>
    ensures heard { IfOk result (EndsUnder None end) }
    ensures starved { OnErr result (is_starved end ≡ true) }
{
    if is_starved(&end) {
        return Err(OutOfMemory);
    }
    match end {
        Ok(reply) => Ok(PairEnded::Got(reply)),
        Err(fault) => Ok(PairEnded::Fault(fault)),
    }
}

/// How a call ended whose reply is lost. In `Err` it wanted memory.
fn unheard(end: Result<PairReply, PairFault>) -> Result<PairEnded, OutOfMemory>
    ensures unheard { IfOk result (EndsUnder (Some LostReply) end) }
    ensures starved { OnErr result (is_starved end ≡ true) }
{
    if is_starved(&end) {
        return Err(OutOfMemory);
    }
    Ok(PairEnded::ReplyLost(end))
}

/// A call under a mark. In `Err` memory ran out, and nothing was done.
fn call_under<S: Server>(
    server: &mut S,
    by: u32,
    command: Command,
    mark: Option<Loss>,
) -> Result<PairEnded, OutOfMemory>
    ensures keeps { S.keeps server.old server.new }
    ensures calls { IfOk result (λ end. CallsUnder by command mark (S.view server.old) end
        (S.view server.new)) }
    ensures starved { OnErr result (Serves (S.view server.old) (S.view server.new) []) }
{
    match mark {
        None => heard(server.call(by, command)),
        Some(Loss::Call) => Ok(PairEnded::CallLost),
        Some(Loss::Reply) => unheard(server.call(by, command)),
    }
}

/// One run of a line, whose answer comes behind the others. In `Err` memory ran out, and nothing was done
/// of which there is no answer.
fn run_once<S: Server>(
    server: &mut S,
    line: &Line,
    command: &Command,
    mark: Option<Loss>,
    account: &mut Account,
) -> Result<(), OutOfMemory>
    ensures keeps { S.keeps server.old server.new }
    ensures ran { OnOk result (RunsTurns (line_turn line.now command.entry.now mark ∷ [])
        (S.view server.old) (S.view server.new) account.old.answers account.new.answers) }
    ensures cut { OnErr result (RunsSome (line_turn line.now command.entry.now mark ∷ [])
        (S.view server.old) (S.view server.new) account.old.answers account.new.answers) }
{
    match account.reserve() {
        Ok(()) => {}
        Err(want) => return Err(want),
    }
    let end = match call_under(server, line.actor, *command, mark) {
        Ok(end) => end,
        Err(want) => return Err(want),
    };
    account.add(&PairAnswered {
        actor: line.actor,
        line: line.line,
        command: *command,
        end,
    });
    Ok(())
}

/// The runs of a line with this command, as many as it says.
fn run_times<S: Server>(
    server: &mut S,
    line: &Line,
    command: &Command,
    account: &mut Account,
) -> Result<(), OutOfMemory>
    ensures keeps { S.keeps server.old server.new }
    ensures ran { OnOk result (RunsTurns (turns_with line.now command.entry.now)
        (S.view server.old) (S.view server.new) account.old.answers account.new.answers) }
    ensures cut { OnErr result (RunsSome (turns_with line.now command.entry.now)
        (S.view server.old) (S.view server.new) account.old.answers account.new.answers) }
{
    for number in 0..line.times {
        let mark = mark_at(line.lost, number);
        match run_once(server, line, command, mark, account) {
            Ok(()) => {}
            Err(want) => return Err(want),
        }
    }
    Ok(())
}

/// The runs of a line. A line that is no client's has none.
fn run_line<S: Server>(
    server: &mut S,
    at: Moment,
    line: &Line,
    account: &mut Account,
) -> Result<(), OutOfMemory>
    ensures keeps { S.keeps server.old server.new }
    ensures ran { OnOk result (RunsTurns (turns_of at line.now)
        (S.view server.old) (S.view server.new) account.old.answers account.new.answers) }
    ensures cut { OnErr result (RunsSome (turns_of at line.now)
        (S.view server.old) (S.view server.new) account.old.answers account.new.answers) }
{
    match line.act {
        Act::Client(op) => run_times(server, line, &Command { now: at, op }, account),
        Act::Cell(_) | Act::Evacuate => Ok(()),
    }
}

/// The runs of a line, if it is this actor's.
fn run_line_if<S: Server>(
    server: &mut S,
    at: Moment,
    by: u32,
    line: &Line,
    account: &mut Account,
) -> Result<(), OutOfMemory>
    ensures keeps { S.keeps server.old server.new }
    ensures ran { OnOk result (RunsTurns (turns_in at (line.now ∷ []) by)
        (S.view server.old) (S.view server.new) account.old.answers account.new.answers) }
    ensures cut { OnErr result (RunsSome (turns_in at (line.now ∷ []) by)
        (S.view server.old) (S.view server.new) account.old.answers account.new.answers) }
{
    if line.actor == by {
        run_line(server, at, line, account)
    } else {
        Ok(())
    }
}

/// The runs of the lines of one actor.
fn run_actor<S: Server>(
    server: &mut S,
    at: Moment,
    by: u32,
    lines: &[Line],
    account: &mut Account,
) -> Result<(), OutOfMemory>
    ensures keeps { S.keeps server.old server.new }
    ensures ran { OnOk result (RunsTurns (turns_in at lines.now by)
        (S.view server.old) (S.view server.new) account.old.answers account.new.answers) }
    ensures cut { OnErr result (RunsSome (turns_in at lines.now by)
        (S.view server.old) (S.view server.new) account.old.answers account.new.answers) }
{
    for line in lines {
        match run_line_if(server, at, by, line, account) {
            Ok(()) => {}
            Err(want) => return Err(want),
        }
    }
    Ok(())
}

/// The runs of these lines, of so many actors in the order of their numbers.
fn run_actors<S: Server>(
    server: &mut S,
    at: Moment,
    lines: &[Line],
    actors: u32,
    account: &mut Account,
) -> Result<(), OutOfMemory>
    ensures keeps { S.keeps server.old server.new }
    ensures ran { OnOk result (RunsTurns (turns_of_all at lines.now actors)
        (S.view server.old) (S.view server.new) account.old.answers account.new.answers) }
    ensures cut { OnErr result (RunsSome (turns_of_all at lines.now actors)
        (S.view server.old) (S.view server.new) account.old.answers account.new.answers) }
{
    for number in 0..actors {
        let by = number + 1;
        match run_actor(server, at, by, lines, account) {
            Ok(()) => {}
            Err(want) => return Err(want),
        }
    }
    Ok(())
}

/// The calls of a phase of so many actors. In `Err` memory ran out behind some of them.
pub(crate) fn run_phase<S: Server>(
    server: &mut S,
    phase: &Phase,
    actors: u32,
    account: &mut Account,
) -> Result<(), OutOfMemory>
    ensures keeps { S.keeps server.old server.new }
    ensures ran { OnOk result (RunsTurns (phase_turns actors phase.now)
        (S.view server.old) (S.view server.new) account.old.answers account.new.answers) }
    ensures cut { OnErr result (RunsSome (phase_turns actors phase.now)
        (S.view server.old) (S.view server.new) account.old.answers account.new.answers) }
{
    run_actors(server, phase.at, phase.lines.items(), actors, account)
}
