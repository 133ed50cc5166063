//! The law of readers of a log. The function does nothing: it is there for what it ensures.
ghost use Rattle.std.specs.Prelude.{ℕ, List};
ghost use Rattle.bbs_laws.specs.Hearing.{HearsOn, HearsTheSame};
ghost use Rattle.bbs_model.specs.declared.item.Item.{Item as AnItem};
ghost use Rattle.bbs_model.specs.declared.rows.Rows.{Rows as TheRows};

/// Readings that go on where the last one ended hear each event once, also where the log has grown
/// in between.
pub fn readings_go_on()
    ensures on { (base : TheRows) (log : List AnItem) (from n m : ℕ) → HearsOn base log from n m }
    ensures same { (base : TheRows) (log more : List AnItem) (from n : ℕ) →
        HearsTheSame base log more from n }
{}
