//! Commands one after another, by the plain step.
ghost use Rattle.std.specs.Prelude.{◌≡◌, IfOk, OnOk, OnErr};
ghost use Rattle.bbs_model.specs.Step.{verdict_of, IsLegal};
ghost use Rattle.bbs_model.specs.Runs.{state_after, state_after_all, verdicts_of, IsPartWay};
ghost use Rattle.bbs_model.specs.Valid.{IsValid};

use crate::{apply, decide};
use bbs_model::{Command, Rows, Verdict};
use diego_names::OutOfMemory;
use std::alloc::Global;

/// Does a command where it is legal, and tells what it came to. Where memory runs out, which only
/// a legal command takes, the rows stay.
pub fn run(alloc: Global, rows: &mut Rows, command: &Command) -> Result<Verdict, OutOfMemory>
    requires { IsValid rows.old }
    ensures verdict { IfOk result (λ verdict. verdict ≡ verdict_of rows.old command.entry.now) }
    ensures rows { OnOk result (rows.new ≡ state_after rows.old command.entry.now) }
    ensures valid { IsValid rows.new }
    ensures err { OnErr result (IsLegal rows.old command.entry.now × (rows.new ≡ rows.old)) }
{
    match decide(rows, command) {
        Verdict::Ok => match apply(alloc, rows, command) {
            Ok(_) => Ok(Verdict::Ok),
            Err(want) => Err(want),
        },
        Verdict::Same => Ok(Verdict::Same),
        Verdict::Refused(why) => Ok(Verdict::Refused(why)),
    }
}

/// Does each command where it is legal, and tells what each came to. Where memory runs out, the
/// first of them were done and the later ones weren't.
pub fn run_all(
    alloc: Global,
    rows: &mut Rows,
    commands: &[Command],
) -> Result<Vec<Verdict>, OutOfMemory>
    requires { IsValid rows.old }
    ensures verdicts { IfOk result (λ all. all.items ≡ verdicts_of rows.old commands.entry.now) }
    ensures rows { OnOk result (rows.new ≡ state_after_all rows.old commands.entry.now) }
    ensures valid { IsValid rows.new }
    ensures err { OnErr result (IsPartWay rows.old commands.entry.now rows.new) }
{
    let mut verdicts = Vec::new(alloc);
    for command in commands {
        verdicts.push(run(alloc, rows, command)?)?;
    }
    Ok(verdicts)
}
