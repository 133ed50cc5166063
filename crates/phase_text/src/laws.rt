//! That the order of events is that of the rows of a board.
ghost use Rattle.phase_text.specs.Laws.{StandsInOrder};

/// Rows of one table stand as the table keeps them, and tables one behind the other.
pub fn rows_stand_in_order()
    ensures { StandsInOrder }
{}
