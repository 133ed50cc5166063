//! What the lines of actors keep.
ghost use Rattle.std.specs.Prelude.{List, ℕ, IfOk};
ghost use Rattle.scenario_lines.specs.Contents.{content_of};
ghost use Rattle.scenario_lines.specs.Laws.{FitsItsActor};

/// A line that is read has a cell do what cells do, or a client what clients do, and that once to
/// 1,000 times.
pub fn acts_fit_their_actors()
    ensures { (bytes : List ℕ) → IfOk (content_of bytes) FitsItsActor }
{}
