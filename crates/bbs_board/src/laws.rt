//! What the definition of a board's recovery comes to.
ghost use Rattle.std.specs.Prelude.{Bool};
ghost use Rattle.disk_trait.specs.Past.{Past};
ghost use Rattle.bbs_model.specs.declared.command.Command.{Command};
ghost use Rattle.bbs_model.specs.declared.rows.Rows.{Rows};
ghost use Rattle.bbs_board.specs.Laws.{OpensInOneWay, RecoversOrRefuses, RefusesOnce, OpensOrIsRefused, StopsLeaveBoards, CompletesOnceOverStops};
ghost use Rattle.bbs_board.specs.Stops.{Stores};

/// An image is a board with one set of rows only.
pub fn a_board_is_opened_in_one_way()
    ensures { OpensInOneWay }
{}

/// What is a board is refused for no defect.
pub fn a_board_is_not_refused()
    ensures { RecoversOrRefuses }
{}

/// What is refused is refused for one defect only.
pub fn a_refusal_is_one_refusal()
    ensures { RefusesOnce }
{}

/// Each image is a board, or is refused, whatever stands in it. With the three laws above, what a
/// board recovers is a function of the image.
pub fn an_image_is_a_board_or_refused()
    ensures { OpensOrIsRefused }
{}

/// A stop while a command is stored leaves the board before it or the one after it, and a stop after
/// the acknowledgement the one after it.
pub fn a_stop_leaves_the_board_before_or_after()
    ensures { (stored : Bool) (rows : Rows) (command : Command) (p q : Past)
        → Stores stored rows command p q → StopsLeaveBoards stored rows command p q }
{}

/// A task that got its outcome in a transition which was acknowledged doesn't get another one after a
/// stop, nor in what comes of the board that is opened then.
pub fn tasks_complete_once_over_a_stop()
    ensures { CompletesOnceOverStops }
{}
