//! The jobs of each tag, and its cells.
ghost use Rattle.std.specs.Prelude.{◌≡◌, [], ◌∷◌, ◌++◌, OnOk};
ghost use Rattle.text_table.specs.Texts.{texts_of};
ghost use Rattle.headroom_tables.specs.TagTable.{tag_row, tag_table};

use crate::entries::Entry;
use crate::layout::{Heading, add_row, add_table};
use forecast_records::TagRoom;
use headroom_print::verdict_word;
use std::alloc::{AllocError, Global};
use text_table::Side;

#[tactic(auto, unfolding(crate::specs::TagTable::tag_row))]
fn add_tag(rows: &mut Vec<Vec<String>>, alloc: Global, tag: &TagRoom) -> Result<(), AllocError>
    ensures { OnOk result
        (texts_of rows.new.items ≡ texts_of rows.old.items ++ tag_row tag.now ∷ []) }
{
    add_row(
        rows,
        alloc,
        &[
            Entry::Tag(&tag.tag),
            Entry::Number(tag.cells_left),
            Entry::Number(tag.jobs),
            Entry::Number(tag.unplaced),
            Entry::Amount(tag.asked.memory),
            Entry::Amount(tag.free.memory),
            Entry::Amount(tag.asked.disk),
            Entry::Amount(tag.free.disk),
            Entry::Text(verdict_word(tag.verdict)),
        ],
    )
}

/// The tags in their order.
pub(crate) fn add_tags(
    text: &mut Vec<u8>,
    alloc: Global,
    tags: &[TagRoom],
) -> Result<(), AllocError>
    ensures { OnOk result (text.new.items ≡ text.old.items ++ tag_table tags.now) }
{
    let mut rows = Vec::new(alloc);
    for tag in tags {
        add_tag(&mut rows, alloc, tag)?;
    }
    add_table(
        text,
        alloc,
        &[
            Heading(Side::Left, "TAG"),
            Heading(Side::Right, "CELLS LEFT"),
            Heading(Side::Right, "JOBS"),
            Heading(Side::Right, "NO ROOM"),
            Heading(Side::Right, "MEMORY ASKED"),
            Heading(Side::Right, "FREE"),
            Heading(Side::Right, "DISK ASKED"),
            Heading(Side::Right, "FREE"),
            Heading(Side::Left, "VERDICT"),
        ],
        rows,
    )
}
