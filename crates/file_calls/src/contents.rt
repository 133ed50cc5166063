// What the files of a system held at the first call.
ghost use Rattle.file_calls.specs.Files.{First, blank};

use std::marker::Brand;

/// A function over `F: Contents` is proved for whatever the files held, since no code can read
/// that. So its theorem speaks of a run over real files too, and `main` names `Brand` for it.
pub trait Contents {
    ghost first: { First };
}

impl Contents for Brand {
    ghost first = { blank };
}
