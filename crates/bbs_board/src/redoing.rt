//! The commands of a journal, each of which the board has taken before: all that is told of one is
//! whether it is legal. A move on an instance's row, as most of them are, finds that row once, and takes
//! no memory.
ghost use Rattle.std.specs.Prelude.{◌≡◌, None, Some, IfOk, OnErr};
ghost use Rattle.std.specs.Bool.{MatchBool};
ghost use Rattle.bbs_index.specs.Redone.{IsRedone};
ghost use Rattle.bbs_model.specs.Step.{attempt_of};
ghost use Rattle.bbs_model.specs.Valid.{IsValid};
ghost use Rattle.bbs_board.specs.Opening.{after_legal};

use bbs_index::Index;
use bbs_model::{Command, Op, RowStore};
use bbs_transitions::redo;
use diego_names::OutOfMemory;
use lrp_records::LrpMove;

// A command of any kind, which may put two rows.
fn redo_any(index: &mut Index, command: &Command) -> Result<bool, OutOfMemory>
    requires { IsValid index.old.rows }
    ensures redone { IfOk result (λ done. IsRedone (attempt_of index.old.rows command.entry.now)
        done index.old.rows index.new.rows) }
    ensures stays { OnErr result (index.new.rows ≡ index.old.rows) }
{
    index.reserve(2)?;
    Ok(redo(index, command))
}

// The moves that no cell makes.
fn redo_alone(index: &mut Index, command: &Command) -> Result<bool, OutOfMemory>
    requires { IsValid index.old.rows }
    ensures redone { IfOk result (λ done. IsRedone (attempt_of index.old.rows command.entry.now)
        done index.old.rows index.new.rows) }
    ensures stays { OnErr result (index.new.rows ≡ index.old.rows) }
{
    let now = command.now;
    match &command.op {
        Op::Crash { key, instance } => {
            let instance = *instance;
            Ok(index.redo_move(key, &LrpMove::Crash { instance }, now))
        }
        Op::Unclaim { key, instance } => {
            let instance = *instance;
            Ok(index.redo_move(key, &LrpMove::Unclaim { instance }, now))
        }
        Op::Restart { key } => Ok(index.redo_move(key, &LrpMove::Restart, now)),
        Op::Remove { key, instance } => {
            let instance = *instance;
            Ok(index.redo_move(key, &LrpMove::Remove { instance }, now))
        }
        Op::PlaceFail { key } => Ok(index.redo_move(key, &LrpMove::PlaceFail, now)),
        _ => redo_any(index, command),
    }
}

// The moves that a cell makes for its container, and all others.
fn redo_by_kind(index: &mut Index, command: &Command) -> Result<bool, OutOfMemory>
    requires { IsValid index.old.rows }
    ensures redone { IfOk result (λ done. IsRedone (attempt_of index.old.rows command.entry.now)
        done index.old.rows index.new.rows) }
    ensures stays { OnErr result (index.new.rows ≡ index.old.rows) }
{
    let now = command.now;
    match &command.op {
        Op::Claim {
            key,
            instance,
            cell,
        } => {
            let (instance, place) = (*instance, *cell);
            let mv = LrpMove::Claim {
                instance,
                cell: place,
            };
            Ok(index.redo_move_by(key, cell, instance.epoch, &mv, now))
        }
        Op::Start {
            key,
            instance,
            cell,
        } => {
            let (instance, place) = (*instance, *cell);
            let mv = LrpMove::Start {
                instance,
                cell: place,
            };
            Ok(index.redo_move_by(key, cell, instance.epoch, &mv, now))
        }
        _ => redo_alone(index, command),
    }
}

/// Does what a command says where it is legal, and tells whether it is.
pub fn redo_command(index: &mut Index, command: &Command) -> Result<bool, OutOfMemory>
    requires { IsValid index.old.rows }
    ensures after { IfOk result (λ legal. MatchBool legal
        (after_legal index.old.rows command.entry.now ≡ Some index.new.rows)
        (after_legal index.old.rows command.entry.now ≡ None)) }
    ensures valid { IsValid index.new.rows }
{
    redo_by_kind(index, command)
}
