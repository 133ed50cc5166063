//! Which of the 29 kinds of command a life had.
use bbs_model::Op;

fn kind_of_row(op: &Op) -> u32 {
    match op {
        Op::Make { .. } => 3,
        Op::Claim { .. } => 4,
        Op::Start { .. } => 5,
        Op::Crash { .. } => 6,
        Op::Unclaim { .. } => 7,
        Op::Restart { .. } => 8,
        Op::Remove { .. } => 9,
        Op::PlaceFail { .. } => 10,
        Op::Evacuate { .. } => 11,
        Op::DropEvacuating { .. } => 12,
        Op::Suspect { .. } => 13,
        Op::DropSuspect { .. } => 14,
        _ => kind_of_task(op),
    }
}

fn kind_of_task(op: &Op) -> u32 {
    match op {
        Op::NewTask { .. } => 15,
        Op::StartTask { .. } => 16,
        Op::CompleteTask { .. } => 17,
        Op::CancelTask { .. } => 18,
        Op::ResolveTask { .. } => 19,
        Op::DeleteTask { .. } => 20,
        Op::KickTask { .. } => 21,
        Op::ExpireTask { .. } => 22,
        _ => kind_of_cell(op),
    }
}

fn kind_of_cell(op: &Op) -> u32 {
    match op {
        Op::Join { .. } => 23,
        Op::Renew { .. } => 24,
        Op::Drain { .. } => 25,
        Op::Vanish { .. } => 26,
        Op::Fresh { .. } => 27,
        _ => 28,
    }
}

fn kind_of(op: &Op) -> u32 {
    match op {
        Op::Desire { .. } => 0,
        Op::Update { .. } => 1,
        Op::Undesire { .. } => 2,
        _ => kind_of_row(op),
    }
}

/// How many commands were legal, and a bit for each kind among them.
#[derive(Clone, Copy)]
pub(crate) struct Legal {
    pub(crate) count: u32,
    pub(crate) kinds: u32,
}

/// All kinds.
pub(crate) const EVERY_KIND: u32 = (1 << 29) - 1;

impl Legal {
    pub(crate) fn none() -> Legal {
        Legal { count: 0, kinds: 0 }
    }

    /// With one command more.
    pub(crate) fn with(self, op: &Op) -> Legal {
        Legal {
            count: self.count.wrapping_add(1),
            kinds: self.kinds | 1u32.wrapping_shl(kind_of(op)),
        }
    }

    /// Those of both.
    pub(crate) fn and(self, other: Legal) -> Legal {
        Legal {
            count: self.count.wrapping_add(other.count),
            kinds: self.kinds | other.kinds,
        }
    }
}
