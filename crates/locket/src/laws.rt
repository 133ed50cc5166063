//! What every life of a locket is like, and the lives that stops leave. None of these functions does
//! anything: each is there for what it ensures.
ghost use Rattle.std.specs.Prelude.{◌≡◌, List, ℕ, Some};
ghost use Rattle.wire_fields.specs.Laws.{IsBytes};
ghost use Rattle.locket.specs.Bytes.{FitsLock, lock_reading, lock_spelled};
ghost use Rattle.locket.specs.Laws.{LocketOpensInOneWay, LocketOrRefused, LocketRefusedOnce, LocketOpensOrIsRefused, LocketsHaveLives, LivesNeverFall, LeasesAreApart, FencesComeOnce, OneIsHeld, AnswersAreLeases, HeldIsTheLast, LeasesStay, LivesGoOnOverStops, LeasesStayOverStops};
ghost use Rattle.locket.specs.declared.command.LockCommand.{LockCommand as ACommand};

/// A command that was spelled is read back, and bytes that are read as one are its one spelling.
pub fn lock_commands_have_one_spelling()
    ensures back { (c : ACommand) → FitsLock c → lock_reading (lock_spelled c) ≡ Some c }
    ensures one { (bytes : List ℕ) (c : ACommand) → IsBytes bytes → lock_reading bytes ≡ Some c
        → (bytes ≡ lock_spelled c) × FitsLock c }
{}

/// Each image is a locket with one life, or is refused for one defect, whatever stands in it.
pub fn an_image_is_a_locket_or_refused()
    ensures either { LocketOpensOrIsRefused }
    ensures apart { LocketOrRefused }
    ensures one_life { LocketOpensInOneWay }
    ensures one_defect { LocketRefusedOnce }
    ensures lawful { LocketsHaveLives }
{}

/// The moment of the last change and the last fence never fall.
pub fn a_life_never_falls()
    ensures { LivesNeverFall }
{}

/// Of two leases of a life the later one has a greater fence, and begins when the earlier one was
/// released or has run out. So each fence is given once, and one lease is held at most.
pub fn leases_of_a_life_are_apart()
    ensures apart { LeasesAreApart }
    ensures once { FencesComeOnce }
    ensures one { OneIsHeld }
{}

/// The leases of a life are those that were answered, and the one that is held is the last.
pub fn answers_are_leases()
    ensures answers { AnswersAreLeases }
    ensures held { HeldIsTheLast }
    ensures stay { LeasesStay }
{}

/// Whatever a stop leaves goes on from all that was acknowledged by then. So a lease that was
/// acknowledged is one of the life that is opened and of all that follows: no fence comes again over a
/// stop, and no lease begins there before it has ended.
pub fn leases_stay_over_stops()
    ensures lives { LivesGoOnOverStops }
    ensures leases { LeasesStayOverStops }
{}
