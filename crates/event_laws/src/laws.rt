//! The laws of events and of what is over. None of these functions does anything: each is there for
//! what it ensures.
ghost use Rattle.std.specs.Prelude.{ℕ, List};
ghost use Rattle.bbs_laws.specs.Events.{AreTrue};
ghost use Rattle.bbs_model.specs.Replay.{IsLawful};
ghost use Rattle.bbs_model.specs.Step.{IsLegal, rows_after};
ghost use Rattle.bbs_model.specs.Valid.{IsValid};
ghost use Rattle.bbs_model.specs.declared.command.Command.{Command as ACommand};
ghost use Rattle.bbs_model.specs.declared.event.Event.{Event as AnEvent};
ghost use Rattle.bbs_model.specs.declared.event.Events.{Events as TheEvents};
ghost use Rattle.bbs_model.specs.declared.item.Item.{Item as AnItem};
ghost use Rattle.bbs_model.specs.declared.rows.Rows.{Rows as TheRows};
ghost use Rattle.event_laws.specs.Frame.{KeepsOthers};
ghost use Rattle.event_laws.specs.Incarnations.{Incarnation, StaysOver, CompletesOnceInAll};
ghost use Rattle.event_laws.specs.Told.{with_event, IsShown, TellAll, TellsAll, FollowsTheBoard};

/// The events of a legal command are all that it does: the rows before it and its events give the
/// rows after it. Each event is true of the rows just before it.
pub fn events_tell_all()
    ensures { (rows : TheRows) (c : ACommand) → IsLegal rows c → TellsAll rows c }
{}

/// Who has a board's rows at some place, and hears of each transition from there on, has its rows.
pub fn events_lead_along()
    ensures { (rows : TheRows) (cs : List ACommand) → FollowsTheBoard rows cs }
{}

/// What an event says shows in the rows just after it, whatever they were before.
pub fn events_show()
    ensures { (rows : TheRows) (e : AnEvent) → IsShown e.change e.row (with_event e rows) }
{}

/// Events that tell all are true of the rows before and after them, whatever made them.
pub fn due_events_say_so()
    ensures { (old new : TheRows) (events : TheEvents) → TellAll old new events →
        AreTrue old new events }
{}

/// A command changes at most the rows at its own keys.
pub fn commands_change_their_own_rows()
    ensures { (rows : TheRows) (c : ACommand) → KeepsOthers c.op rows (rows_after rows c) }
{}

/// A task that has its outcome, or is gone, never waits for one again, wherever the board is found.
/// So none gets its outcome twice, over any number of stops.
pub fn what_is_over_stays_over()
    ensures stays { (base : TheRows) (log : List AnItem) (birth : ℕ) →
        IsValid base → IsLawful base log → StaysOver base log birth }
    ensures once { (base : TheRows) (incarnations : List Incarnation) (birth : ℕ) →
        CompletesOnceInAll base incarnations birth }
{}
