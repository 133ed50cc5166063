//! The lines of jobs without room.
ghost use Rattle.std.specs.Prelude.{◌≡◌, ◌++◌, OnOk};
ghost use Rattle.std.specs.List.{flat_map};
ghost use Rattle.headroom_print.specs.UnplacedLines.{first_line, unplaced_line};

use crate::line_kinds::object::add_line;
use crate::line_kinds::value::{Member, Value};
use forecast_records::Unplaced;
use std::alloc::{AllocError, Global};

/// The first job without room, if there is one.
pub(crate) fn add_first(
    text: &mut Vec<u8>,
    alloc: Global,
    line: u32,
    first: &Option<Unplaced>,
) -> Result<(), AllocError>
    ensures { OnOk result (text.new.items ≡ text.old.items ++ first_line line first.now) }
{
    match first {
        Some(unplaced) => add_unplaced(text, alloc, line, unplaced),
        None => Ok(()),
    }
}

/// The jobs without room, in their order.
pub(crate) fn add_all_unplaced(
    text: &mut Vec<u8>,
    alloc: Global,
    line: u32,
    jobs: &[Unplaced],
) -> Result<(), AllocError>
    ensures { OnOk result
        (text.new.items ≡ text.old.items ++ flat_map (unplaced_line line) jobs.now) }
{
    for unplaced in jobs {
        add_unplaced(text, alloc, line, unplaced)?;
    }
    Ok(())
}

// A job without room, and why.
#[tactic(auto, unfolding(crate::specs::UnplacedLines::unplaced_line))]
fn add_unplaced(
    text: &mut Vec<u8>,
    alloc: Global,
    line: u32,
    unplaced: &Unplaced,
) -> Result<(), AllocError>
    ensures { OnOk result (text.new.items ≡ text.old.items ++ unplaced_line line unplaced.now) }
{
    add_line(
        text,
        alloc,
        &[
            Member("as_large", Value::Number(unplaced.as_large)),
            Member("cells", Value::Number(unplaced.reasons.cells)),
            Member("disk", Value::Number(u64::from(unplaced.disk))),
            Member("job", Value::Job(&unplaced.job)),
            Member("lacks", Value::Lacks(&unplaced.reasons)),
            Member("line", Value::Number(u64::from(line))),
            Member("memory", Value::Number(u64::from(unplaced.memory))),
            Member("most_free", Value::Free(&unplaced.most_free)),
            Member("other_tag", Value::Number(unplaced.reasons.other_tag)),
            Member("room_for", Value::Number(unplaced.room_for)),
            Member("tag", Value::NameOrNull(&unplaced.tag)),
            Member("tell", Value::Text("unplaced")),
            Member("waited", Value::Truth(unplaced.waited)),
        ],
    )
}
