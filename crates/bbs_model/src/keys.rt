//! The keys that a command names: what the board has there is all that its step depends on.
ghost use Rattle.std.specs.Prelude.{◌≡◌};
ghost use Rattle.bbs_model.specs.Found.{process_in, key_in, evacuating_in, suspect_in, task_in, cell_in, looked_cell, domain_in};

use crate::Op;
use diego_names::{Key, Name};
use lrp_records::Actual;

impl Op {
    /// The process that it speaks of, where its step depends on whether that is desired.
    pub fn process(&self) -> Option<Name>
        ensures { result ≡ process_in self.now }
    {
        match *self {
            Op::Desire { desired } => Some(desired.process),
            Op::Update { process, .. } | Op::Undesire { process } => Some(process),
            Op::Make { key } => Some(key.process),
            _ => None,
        }
    }

    /// The instance whose ORDINARY row it speaks of.
    pub fn key(&self) -> Option<Key>
        ensures { result ≡ key_in self.now }
    {
        match *self {
            Op::Make { key } | Op::Restart { key } | Op::PlaceFail { key } => Some(key),
            Op::Claim { key, .. } | Op::Start { key, .. } | Op::Crash { key, .. } => Some(key),
            Op::Unclaim { key, .. } | Op::Remove { key, .. } => Some(key),
            Op::Evacuate { key, .. } | Op::Suspect { key, .. } => Some(key),
            _ => None,
        }
    }

    /// The instance whose EVACUATING row it speaks of.
    pub fn evacuating(&self) -> Option<Key>
        ensures { result ≡ evacuating_in self.now }
    {
        match *self {
            Op::Evacuate { key, .. } | Op::DropEvacuating { key, .. } => Some(key),
            _ => None,
        }
    }

    /// The instance whose SUSPECT row it speaks of.
    pub fn suspect(&self) -> Option<Key>
        ensures { result ≡ suspect_in self.now }
    {
        match *self {
            Op::Suspect { key, .. } | Op::DropSuspect { key, .. } => Some(key),
            _ => None,
        }
    }

    /// The task that it names.
    pub fn task(&self) -> Option<Name>
        ensures { result ≡ task_in self.now }
    {
        match *self {
            Op::NewTask { name, .. } | Op::StartTask { name, .. } => Some(name),
            Op::CompleteTask { name, .. } | Op::CancelTask { name } => Some(name),
            Op::ResolveTask { name } | Op::DeleteTask { name } => Some(name),
            Op::KickTask { name } | Op::ExpireTask { name } => Some(name),
            _ => None,
        }
    }

    /// The cell that it names.
    pub fn cell(&self) -> Option<Name>
        ensures { result ≡ cell_in self.now }
    {
        match *self {
            Op::Claim { cell, .. } | Op::Start { cell, .. } => Some(cell),
            Op::StartTask { cell, .. } | Op::Join { cell, .. } => Some(cell),
            Op::Renew { cell, .. } | Op::Drain { cell, .. } | Op::Vanish { cell } => Some(cell),
            _ => None,
        }
    }

    /// The cell whose row its step looks at: the one that it names, or that of the ORDINARY row that it
    /// suspects.
    pub fn looked_cell(&self, ordinary: &Option<Actual>) -> Option<Name>
        ensures { result ≡ looked_cell self.now ordinary.now }
    {
        match (self, ordinary) {
            (Op::Suspect { .. }, None) => None,
            (Op::Suspect { .. }, Some(row)) => row.state.cell(),
            (_, _) => self.cell(),
        }
    }

    /// The domain that it names.
    pub fn domain(&self) -> Option<Name>
        ensures { result ≡ domain_in self.now }
    {
        match *self {
            Op::Fresh { domain, .. } | Op::Forget { domain } => Some(domain),
            _ => None,
        }
    }
}
