//! The laws of the step. None of these functions does anything: each is there for what it ensures.
ghost use Rattle.std.specs.Prelude.{ℕ, List};
ghost use Rattle.bbs_laws.specs.Laws.{ChangesWhereLegal, ReplaysWhatWasLegal, GoesOn, KeepsBoard, KeepsValid, ReplaysWhatIsDone, LogGoesOn, CompletesOnce, CompletesOnceOver, EpochsArePast};
ghost use Rattle.bbs_model.specs.Replay.{IsLawful, IsReached};
ghost use Rattle.bbs_model.specs.Tables.{no_rows};
ghost use Rattle.bbs_model.specs.Valid.{IsValid};
ghost use Rattle.bbs_model.specs.declared.command.Command.{Command as ACommand};
ghost use Rattle.bbs_model.specs.declared.item.Item.{Item as AnItem};
ghost use Rattle.bbs_model.specs.declared.rows.Rows.{Rows as TheRows};

/// A board without rows is one that commands may begin with.
pub fn first_board_is_valid()
    ensures { IsValid no_rows }
{}

/// A refusal and a Same change nothing and tell of nothing; an Ok makes one transition.
pub fn refusals_change_nothing()
    ensures { (rows : TheRows) (c : ACommand) → ChangesWhereLegal rows c }
{}

/// A legal command keeps rows valid.
pub fn legal_commands_keep_rows_valid()
    ensures { (rows : TheRows) (c : ACommand) → KeepsValid rows c }
{}

/// Legal commands bring a board from valid rows to valid rows, one transition each, and a replay
/// may be cut anywhere.
pub fn board_is_replayed()
    ensures keeps { (rows : TheRows) (cs : List ACommand) → KeepsBoard rows cs }
    ensures goes_on { (rows : TheRows) (xs ys : List ACommand) → GoesOn rows xs ys }
{}

/// What isn't legal changes nothing: a run comes to the replay of its legal commands alone.
pub fn runs_replay_what_was_legal()
    ensures { (rows : TheRows) (cs : List ACommand) → ReplaysWhatWasLegal rows cs }
{}

/// A log comes to the replay of its Done items alone, and may be cut anywhere.
pub fn logs_replay_what_is_done()
    ensures done { (base : TheRows) (log : List AnItem) → ReplaysWhatIsDone base log }
    ensures goes_on { (base : TheRows) (xs ys : List AnItem) → LogGoesOn base xs ys }
{}

/// A board is found at valid rows, and so is one at which a doubt shows as the last thing that
/// happened. Containers in them are of cells that joined before.
pub fn reached_rows_are_valid()
    ensures valid { (base : TheRows) (log : List AnItem) (from : ℕ) (rows : TheRows) →
        IsValid base → IsLawful base log → IsReached base log from rows → IsValid rows }
    ensures epochs { (base : TheRows) (log : List AnItem) (from : ℕ) (rows : TheRows) →
        IsValid base → IsLawful base log → IsReached base log from rows → EpochsArePast rows }
{}

/// No task gets its outcome twice: neither in one log, nor in one and another that begins where the
/// board was found after it.
pub fn tasks_complete_once()
    ensures once { (base : TheRows) (log : List AnItem) (birth : ℕ) →
        IsValid base → IsLawful base log → CompletesOnce base log birth }
    ensures over_openings { (base : TheRows) (log : List AnItem) (from birth : ℕ) →
        IsValid base → IsLawful base log → CompletesOnceOver base log from birth }
{}
