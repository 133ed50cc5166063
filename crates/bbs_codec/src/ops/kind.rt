//! The numbers of the kinds.
ghost use Rattle.std.specs.Prelude.{◌≡◌};
ghost use Rattle.bbs_codec.specs.Ops.{said};

use bbs_model::Op;

/// The number of an operation's kind.
pub fn kind_of(op: &Op) -> u8
    ensures { result ≡ (said op.now).kind }
{
    match op {
        Op::Desire { .. } => 1,
        Op::Update { .. } => 2,
        Op::Undesire { .. } => 3,
        Op::Make { .. } => 4,
        Op::Claim { .. } => 5,
        Op::Start { .. } => 6,
        Op::Crash { .. } => 7,
        Op::Unclaim { .. } => 8,
        Op::Restart { .. } => 9,
        Op::Remove { .. } => 10,
        Op::PlaceFail { .. } => 11,
        Op::Evacuate { .. } => 12,
        Op::DropEvacuating { .. } => 13,
        Op::NewTask { .. } => 14,
        Op::StartTask { .. } => 15,
        Op::CompleteTask { .. } => 16,
        Op::CancelTask { .. } => 17,
        Op::ResolveTask { .. } => 18,
        Op::DeleteTask { .. } => 19,
        Op::KickTask { .. } => 20,
        Op::ExpireTask { .. } => 21,
        Op::Join { .. } => 22,
        Op::Renew { .. } => 23,
        Op::Drain { .. } => 24,
        Op::Vanish { .. } => 25,
        Op::Fresh { .. } => 26,
        Op::Forget { .. } => 27,
        Op::Suspect { .. } => 28,
        Op::DropSuspect { .. } => 29,
    }
}
