//! The laws of what finds room. These functions do nothing: they are there for what they ensure.
ghost use Rattle.room_facts.specs.Laws.{
  JobsFitWhereNothingLacks,
  ReasonsAreExact,
  ShortHasNoPlacing,
  ShortHasNoPlacingOfAll,
  AuctionIsAPlacing,
  RoomIsAPlacing,
  AlikeJobsFill,
  NoPlacingHasMore,
};

/// A cell fits a job exactly if it has the job's tag and lacks nothing.
pub fn jobs_fit_where_nothing_lacks()
    ensures { JobsFitWhereNothingLacks }
{}

/// If a job fits nowhere, its reasons count each cell once: under its tag if that is another, else
/// under just those amounts of which it has too little, which are never none.
pub fn reasons_are_exact()
    ensures { ReasonsAreExact }
{}

/// If it is shown that there is too little, no function from the jobs of the tag to cells is a
/// placing, and so none from all jobs.
pub fn short_has_no_placing()
    ensures tag { ShortHasNoPlacing }
    ensures all { ShortHasNoPlacingOfAll }
{}

/// If the auction gives each job a cell, there is a placing: the one that its placements name.
pub fn room_is_a_placing()
    ensures any { AuctionIsAPlacing }
    ensures some { RoomIsAPlacing }
{}

/// Of jobs alike the auction places as many as there are, or as the cells have room for, and no
/// placing has more than that.
pub fn alike_jobs_fill()
    ensures placed { AlikeJobsFill }
    ensures most { NoPlacingHasMore }
{}
