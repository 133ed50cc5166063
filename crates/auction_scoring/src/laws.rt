//! The laws of the order of scores. These functions do nothing: they are there for what they ensure.
ghost use Rattle.std.specs.Prelude.{◌≡◌, ◌≢◌, not};
ghost use Rattle.row_tables.specs.Table.{IsKeyOrder};
ghost use Rattle.auction_scoring.specs.Order.{score_order, is_better};
ghost use Rattle.auction_scoring.specs.declared.scores.Score.{Score as AScore};

use crate::scores::Score;

/// Scores stand in a total order, and only equal scores tie: so one cell alone can be the best.
pub fn scores_are_ordered()
    ensures compared { (a b : AScore) → ⟦<Score as Ord>⟧.cmp a b ≡ score_order a b }
    ensures order { IsKeyOrder score_order }
{}

/// Of the scores of two cells exactly one is better.
pub fn better_is_total()
    ensures { (a b : AScore) → a.cell ≢ b.cell → is_better a b ≡ not (is_better b a) }
{}
