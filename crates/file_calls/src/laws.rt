// What the premise of a disk of files comes to.
ghost use Rattle.std.specs.Prelude.{◌≡◌, true, List};
ghost use Rattle.file_calls.specs.Call.{Call};
ghost use Rattle.file_calls.specs.Files.{First};
ghost use Rattle.file_calls.specs.Honest.{is_honest};
ghost use Rattle.file_calls.specs.Laws.{Believes, Doubts};

/// Files that answer as the model says are believed for ever, so the premise can be met. The first
/// answer of another kind ends it.
pub fn the_answers_of_the_model_are_believed()
    ensures believed { (first : First) (history : List Call)
        → is_honest first history ≡ true → Believes first history }
    ensures doubted { (first : First) (history : List Call) → Doubts first history }
{}
