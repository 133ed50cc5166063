//! The lines of tags.
ghost use Rattle.std.specs.Prelude.{◌≡◌, ◌++◌, OnOk};
ghost use Rattle.std.specs.List.{flat_map};
ghost use Rattle.headroom_print.specs.TagLines.{tag_line};

use crate::line_kinds::object::add_line;
use crate::line_kinds::value::{Member, Value};
use crate::words::verdict_word;
use forecast_records::TagRoom;
use std::alloc::{AllocError, Global};

/// The tags in their order.
pub(crate) fn add_tags(
    text: &mut Vec<u8>,
    alloc: Global,
    line: u32,
    tags: &[TagRoom],
) -> Result<(), AllocError>
    ensures { OnOk result (text.new.items ≡ text.old.items ++ flat_map (tag_line line) tags.now) }
{
    for tag in tags {
        add_tag(text, alloc, line, tag)?;
    }
    Ok(())
}

// The jobs of a tag, and its cells.
#[tactic(auto, unfolding(crate::specs::TagLines::tag_line))]
fn add_tag(text: &mut Vec<u8>, alloc: Global, line: u32, tag: &TagRoom) -> Result<(), AllocError>
    ensures { OnOk result (text.new.items ≡ text.old.items ++ tag_line line tag.now) }
{
    add_line(
        text,
        alloc,
        &[
            Member("asked", Value::Sums(&tag.asked)),
            Member("cells_left", Value::Number(tag.cells_left)),
            Member("free", Value::Sums(&tag.free)),
            Member("jobs", Value::Number(tag.jobs)),
            Member("line", Value::Number(u64::from(line))),
            Member("tag", Value::NameOrNull(&tag.tag)),
            Member("tell", Value::Text("tag")),
            Member("unplaced", Value::Number(tag.unplaced)),
            Member("unplaced_memory", Value::Number(tag.unplaced_memory)),
            Member("verdict", Value::Text(verdict_word(tag.verdict))),
        ],
    )
}
