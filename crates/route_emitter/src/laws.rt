//! The law of an emitter and the log of its board. The function does nothing: it is there for what it
//! ensures.
ghost use Rattle.std.specs.Prelude.{ℕ, List};
ghost use Rattle.bbs_model.specs.declared.item.Item.{Item as AnItem};
ghost use Rattle.bbs_model.specs.declared.rows.Rows.{Rows as TheRows};
ghost use Rattle.route_emitter.specs.Routing.{FollowsTheLog};

use event_laws::events_tell_all;

/// Who stands for a board's rows at a place of its log, and takes in what the items from there to another
/// place tell, stands for its rows at that place.
pub fn emitters_follow_boards()
    ensures { (base : TheRows) (log : List AnItem) (from upto : ℕ) → FollowsTheLog base log from upto }
{
    events_tell_all();
}
