//! Values with causes.
ghost use Rattle.std.specs.Prelude.{◌≡◌, List};
ghost use Rattle.work_causes.specs.Causes.{listed};
ghost use Rattle.work_causes.specs.declared.cause.Cause.{Cause as ACause};
ghost use Rattle.watch_lists.specs.Watched.{one_cause};

use work_causes::{Cause, Causes};

/// A value with causes.
pub trait Timed: Copy {
    // Its causes.
    ghost causes: { Self → List ACause };

    /// Its causes.
    fn causes(&self) -> Causes
        ensures { listed result ≡ causes self.now };
}

impl Timed for Cause {
    ghost causes = { one_cause };

    fn causes(&self) -> Causes {
        Causes {
            first: Some(*self),
            second: None,
            third: None,
        }
    }
}

impl Timed for Causes {
    ghost causes = { listed };

    fn causes(&self) -> Causes {
        *self
    }
}
