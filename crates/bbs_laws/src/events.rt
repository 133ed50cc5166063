//! The law of the events. The function does nothing: it is there for what it ensures.
ghost use Rattle.bbs_laws.specs.Events.{TellsEachRow, TellsTruth};
ghost use Rattle.bbs_model.specs.declared.command.Command.{Command as ACommand};
ghost use Rattle.bbs_model.specs.declared.rows.Rows.{Rows as TheRows};

/// A command changes one row. An evacuation and a suspicion change two: each puts the row aside
/// first. Each event says what became of its row.
pub fn events_tell_the_changes()
    ensures few { (rows : TheRows) (c : ACommand) → TellsEachRow rows c }
    ensures true_of { (rows : TheRows) (c : ACommand) → TellsTruth rows c }
{}
