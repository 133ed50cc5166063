//! The laws of the auction. These functions do nothing: they are there for what they ensure.
ghost use Rattle.std.specs.Prelude.{◌≡◌, map};
ghost use Rattle.std.specs.List.{All};
ghost use Rattle.auctioneer.specs.Auction.{auction};
ghost use Rattle.auctioneer.specs.Laws.{job_in, AtEachTurn, UsesRoom, Spreads, NamesAnswer};
ghost use Rattle.auctioneer.specs.Stands.{stands_of};
ghost use Rattle.cell_records.specs.declared.answer.Answer.{Answer as AnAnswer};
ghost use Rattle.cell_records.specs.declared.job.Job.{Job as AJob};
ghost use Rattle.std.specs.Prelude.{List};

/// Each job has one placement, in the order of the jobs, and there is no other.
pub fn each_job_has_one_placement()
    ensures { (cells : List AnAnswer) (jobs : List AJob)
        → map job_in (auction cells jobs) ≡ map (λ j. j.job) jobs }
{}

/// A job is placed on a cell only with the cell's tag and within what the jobs before it left, and
/// has no room exactly where no cell fits it when its turn comes.
pub fn placements_take_room()
    ensures { (cells : List AnAnswer) (jobs : List AJob)
        → AtEachTurn UsesRoom (stands_of cells) jobs (auction cells jobs) }
{}

/// No two placements of one process share a zone while a cell that fits stands in an emptier one.
pub fn placements_spread_over_zones()
    ensures { (cells : List AnAnswer) (jobs : List AJob)
        → AtEachTurn Spreads (stands_of cells) jobs (auction cells jobs) }
{}

/// Each cell that a placement names has answered.
pub fn placements_name_answers()
    ensures { (cells : List AnAnswer) (jobs : List AJob)
        → All (NamesAnswer cells) (auction cells jobs) }
{}
