//! The values that are told by the number of their case.
#![tactic(auto, unfolding(crate::specs::Format::seen_at))]

ghost use Rattle.bbs_codec.specs.RowFormats.{presence, lrp_state, task_state, optional_end};

use crate::fields::Fields;
use diego_names::{Instance, Name};
use lrp_records::{LrpState, Presence};
use task_records::TaskState;
use wire_fields::{FieldFault, put_u8, read_u8};

impl Fields for Presence {
    ghost format = { presence };

    fn read_at(bytes: &[u8], at: usize) -> Result<(Presence, usize), FieldFault> {
        let (number, next) = read_u8(bytes, at)?;
        match number {
            0 => Ok((Presence::Ordinary, next)),
            1 => Ok((Presence::Evacuating, next)),
            2 => Ok((Presence::Suspect, next)),
            _ => Err(FieldFault::BadField { at }),
        }
    }

    fn put_at(self, out: &mut [u8], at: usize) -> usize {
        match self {
            Presence::Ordinary => put_u8(out, at, 0),
            Presence::Evacuating => put_u8(out, at, 1),
            Presence::Suspect => put_u8(out, at, 2),
        }
    }

    fn fits(self) {}
}

impl Fields for LrpState {
    ghost format = { lrp_state };

    fn read_at(bytes: &[u8], at: usize) -> Result<(LrpState, usize), FieldFault> {
        let (number, next) = read_u8(bytes, at)?;
        match number {
            0 => Ok((LrpState::Unclaimed, next)),
            1 => {
                let ((instance, cell), next) = <(Instance, Name)>::read_at(bytes, next)?;
                Ok((LrpState::Claimed { instance, cell }, next))
            }
            2 => {
                let ((instance, cell), next) = <(Instance, Name)>::read_at(bytes, next)?;
                Ok((LrpState::Running { instance, cell }, next))
            }
            3 => Ok((LrpState::Crashed, next)),
            _ => Err(FieldFault::BadField { at }),
        }
    }

    fn put_at(self, out: &mut [u8], at: usize) -> usize {
        match self {
            LrpState::Unclaimed => put_u8(out, at, 0),
            LrpState::Claimed { instance, cell } => {
                let at = put_u8(out, at, 1);
                (instance, cell).put_at(out, at)
            }
            LrpState::Running { instance, cell } => {
                let at = put_u8(out, at, 2);
                (instance, cell).put_at(out, at)
            }
            LrpState::Crashed => put_u8(out, at, 3),
        }
    }

    fn fits(self) {
        if let LrpState::Claimed { instance, cell } | LrpState::Running { instance, cell } = self {
            (instance, cell).fits();
        }
    }
}

impl Fields for TaskState {
    ghost format = { task_state };

    fn read_at(bytes: &[u8], at: usize) -> Result<(TaskState, usize), FieldFault> {
        let (number, next) = read_u8(bytes, at)?;
        match number {
            0 => Ok((TaskState::Pending, next)),
            1 => {
                let ((instance, cell), next) = <(Instance, Name)>::read_at(bytes, next)?;
                Ok((TaskState::Running { instance, cell }, next))
            }
            2 => {
                let (failed, next) = bool::read_at(bytes, next)?;
                Ok((TaskState::Completed { failed }, next))
            }
            3 => {
                let (failed, next) = bool::read_at(bytes, next)?;
                Ok((TaskState::Resolving { failed }, next))
            }
            _ => Err(FieldFault::BadField { at }),
        }
    }

    fn put_at(self, out: &mut [u8], at: usize) -> usize {
        match self {
            TaskState::Pending => put_u8(out, at, 0),
            TaskState::Running { instance, cell } => {
                let at = put_u8(out, at, 1);
                (instance, cell).put_at(out, at)
            }
            TaskState::Completed { failed } => {
                let at = put_u8(out, at, 2);
                failed.put_at(out, at)
            }
            TaskState::Resolving { failed } => {
                let at = put_u8(out, at, 3);
                failed.put_at(out, at)
            }
        }
    }

    fn fits(self) {
        if let TaskState::Running { instance, cell } = self {
            (instance, cell).fits();
        }
    }
}

impl Fields for Option<u64> {
    ghost format = { optional_end };

    fn read_at(bytes: &[u8], at: usize) -> Result<(Option<u64>, usize), FieldFault> {
        let (number, next) = read_u8(bytes, at)?;
        match number {
            0 => Ok((None, next)),
            1 => {
                let (until, next) = u64::read_at(bytes, next)?;
                Ok((Some(until), next))
            }
            _ => Err(FieldFault::BadField { at }),
        }
    }

    fn put_at(self, out: &mut [u8], at: usize) -> usize {
        match self {
            None => put_u8(out, at, 0),
            Some(until) => {
                let at = put_u8(out, at, 1);
                until.put_at(out, at)
            }
        }
    }

    fn fits(self) {}
}
