//! Whether a further row may follow those that were read.
ghost use Rattle.std.specs.Prelude.{◌≡◌, ℕ, ◌≤◌, ◌&&◌, ◌||◌, ◌∷◌, [], not, true, sum_by, IfOk, OnOk};
ghost use Rattle.std.specs.BTreeSet.{contains};
ghost use Rattle.std.specs.Option.{option_map_or};
ghost use Rattle.std.specs.Ordering.{nat_cmp};
ghost use Rattle.head_codec.specs.Head.{is_above, has_room, is_stamped};
ghost use Rattle.head_codec.specs.Seen.{is_above_last};

use crate::kept::HeadRow;
use bbs_model::MOST_WANTED;
use diego_names::OutOfMemory;
use std::collections::BTreeSet;

fn is_above_last<X: HeadRow>(last: &Option<X>, row: &X) -> bool
    ensures { result ≡ is_above_last X.Key.cmp X.key last.now row.now }
{
    match last {
        Some(last) => last.key().cmp(&row.key()).is_lt(),
        None => true,
    }
}

fn has_room<X: HeadRow>(rows: &[X], wanted: u32, row: &X) -> bool
    requires sum { wanted ≡ sum_by X.keeps.wants rows.now }
    requires few { wanted ≤ 50000 }
    ensures { result ≡ has_room X.keeps rows.now row.now }
{
    rows.len() < X::most() && row.wants() <= MOST_WANTED - wanted
}

/// Whether all but its number allows the row to stand behind these.
pub fn is_next<X: HeadRow>(rows: &[X], last: &Option<X>, wanted: u32, next: u64, row: &X) -> bool
    requires above { is_above X.Key.cmp X.key rows.now row.now
        ≡ is_above_last X.Key.cmp X.key last.now row.now }
    requires sum { wanted ≡ sum_by X.keeps.wants rows.now }
    requires few { wanted ≤ 50000 }
    ensures { result ≡ ((is_above X.Key.cmp X.key rows.now row.now
        && has_room X.keeps rows.now row.now) && X.keeps.suits next row.now) }
{
    is_above_last(last, row) && has_room(rows, wanted, row) && row.suits(next)
}

/// Notes the number of a row, and gives whether it was not among those that were noted.
pub fn note<X: HeadRow>(stamps: &mut BTreeSet<u64>, row: &X) -> Result<bool, OutOfMemory>
    ensures fresh { IfOk result (λ fresh.
        fresh ≡ option_map_or (λ stamp. not (contains nat_cmp stamps.old (stamp row.now)))
        X.keeps.stamp true) }
    ensures noted { OnOk result ((n : ℕ) → contains nat_cmp stamps.new n
        ≡ (is_stamped X.keeps.stamp n (row.now ∷ []) || contains nat_cmp stamps.old n)) }
{
    match row.stamp() {
        Some(stamp) => Ok(stamps.insert(stamp)?),
        None => Ok(true),
    }
}
