//! The answer to losses of which each is alone, and its cases.
ghost use Rattle.std.specs.Prelude.{◌≡◌, ◌++◌, OnOk};
ghost use Rattle.std.specs.List.{flat_map};
ghost use Rattle.headroom_print.specs.EachLines.{case_line, each_line, lose_each_lines};

use crate::counts::tried;
use crate::line_kinds::object::add_line;
use crate::line_kinds::value::{Member, Value};
use crate::words::{each_word, verdict_word};
use forecast_records::{Case, EachLost};
use std::alloc::{AllocError, Global};

/// The answer to losses of which each is alone, and what is under it.
pub(crate) fn add_lose_each(
    text: &mut Vec<u8>,
    alloc: Global,
    line: u32,
    each: &EachLost,
) -> Result<(), AllocError>
    ensures { OnOk result (text.new.items ≡ text.old.items ++ lose_each_lines line each.now) }
{
    add_each(text, alloc, line, each)?;
    add_cases(text, alloc, line, each.cases.items())
}

// What happens where each goes alone.
#[tactic(auto, unfolding(crate::specs::EachLines::each_line))]
fn add_each(text: &mut Vec<u8>, alloc: Global, line: u32, each: &EachLost) -> Result<(), AllocError>
    ensures { OnOk result (text.new.items ≡ text.old.items ++ each_line line each.now) }
{
    add_line(
        text,
        alloc,
        &[
            Member("answer", Value::Text("lose_each")),
            Member("cases", Value::Number(tried(each))),
            Member("line", Value::Number(u64::from(line))),
            Member("of", Value::Text(each_word(each.of))),
            Member("tell", Value::Text("answer")),
            Member("verdict", Value::Text(verdict_word(each.verdict))),
            Member("verdicts", Value::Verdicts(each)),
        ],
    )
}

fn add_cases(text: &mut Vec<u8>, alloc: Global, line: u32, cases: &[Case]) -> Result<(), AllocError>
    ensures { OnOk result (text.new.items ≡ text.old.items ++ flat_map (case_line line) cases.now) }
{
    for case in cases {
        add_case(text, alloc, line, case)?;
    }
    Ok(())
}

// One of the losses that are tried.
#[tactic(auto, unfolding(crate::specs::EachLines::case_line))]
fn add_case(text: &mut Vec<u8>, alloc: Global, line: u32, case: &Case) -> Result<(), AllocError>
    ensures { OnOk result (text.new.items ≡ text.old.items ++ case_line line case.now) }
{
    add_line(
        text,
        alloc,
        &[
            Member("cells", Value::Number(case.cells)),
            Member("dark_of_many", Value::Number(case.dark_of_many)),
            Member("displaced", Value::Number(case.displaced)),
            Member("line", Value::Number(u64::from(line))),
            Member("lost", Value::Names(case.lost.items())),
            Member("tags", Value::Tags(case.tags.items())),
            Member("tell", Value::Text("case")),
            Member("unplaced", Value::Number(case.unplaced)),
            Member("verdict", Value::Text(verdict_word(case.verdict))),
            Member("waiting_unplaced", Value::Number(case.waiting_unplaced)),
        ],
    )
}
