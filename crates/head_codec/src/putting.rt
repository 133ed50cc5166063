//! The rows of a board are put into bytes that are there. Nothing here takes memory.
ghost use Rattle.std.specs.Prelude.{◌≡◌, ◌+◌, ◌≤◌, length, take, drop};
ghost use Rattle.std.specs.List.{flat_map};
ghost use Rattle.bbs_model.specs.Valid.{IsValid};
ghost use Rattle.head_codec.specs.Head.{head_spelled};
ghost use Rattle.wire_fields.specs.Field.{PutsText};

use crate::kept::HeadRow;
use crate::writing::counts;
use bbs_codec::Fields;
use bbs_model::Rows;

/// Puts the rows of a table at a place, each behind the one before it, and gives the place behind them.
fn put_rows<X: HeadRow>(out: &mut [u8], rows: &[X], at: usize) -> usize
    requires { at + length (flat_map X.format.spelling rows.now) ≤ length out.old }
    ensures { PutsText out.old at (flat_map X.format.spelling rows.now) out.new result }
{
    let mut place = at;
    for row in rows {
        place = row.put_at(out, place);
    }
    place
}

/// Puts the counts and all tables in front, and gives the place behind them.
fn put_tables(out: &mut [u8], rows: &Rows) -> usize
    requires valid { IsValid rows.now }
    requires room { length (head_spelled 2 rows.now) ≤ length out.old }
    ensures { PutsText out.old 0 (head_spelled 2 rows.now) out.new result }
{
    let place = counts(rows).put_at(out, 0);
    let place = put_rows(out, rows.desired.items(), place);
    let place = put_rows(out, rows.actual.items(), place);
    let place = put_rows(out, rows.tasks.items(), place);
    let place = put_rows(out, rows.cells.items(), place);
    put_rows(out, rows.domains.items(), place)
}

/// Puts what `write_head` writes in front of `out`, and gives how many bytes that are. It takes no memory.
pub fn put_head(out: &mut [u8], rows: &Rows) -> usize
    requires valid { IsValid rows.now }
    requires room { length (head_spelled 2 rows.now) ≤ length out.old }
    ensures bytes { take result out.new ≡ head_spelled 2 rows.now }
    ensures rest { drop result out.new ≡ drop result out.old }
{
    put_tables(out, rows)
}
