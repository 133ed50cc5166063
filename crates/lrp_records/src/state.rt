ghost use Rattle.std.specs.Prelude.{◌≡◌};
ghost use Rattle.lrp_records.specs.States.{name_of, holder_of, cell_of};

use diego_names::{Instance, Name, StateName};

/// What became of an instance. A claimed or running one says which container holds it, and where.
#[derive(Clone, Copy, Debug, PartialEq, Eq)]
pub enum LrpState {
    /// No cell has it yet.
    Unclaimed,
    /// The cell has made room for it, and does not run it yet.
    Claimed { instance: Instance, cell: Name },
    Running { instance: Instance, cell: Name },
    /// It crashed too often to be tried again at once.
    Crashed,
}

impl LrpState {
    pub fn name(&self) -> StateName
        ensures { result ≡ name_of self.now }
    {
        match self {
            LrpState::Unclaimed => StateName::Unclaimed,
            LrpState::Claimed { .. } => StateName::Claimed,
            LrpState::Running { .. } => StateName::Running,
            LrpState::Crashed => StateName::Crashed,
        }
    }

    /// The container that has the row.
    pub fn holder(&self) -> Option<Instance>
        ensures { result ≡ holder_of self.now }
    {
        match self {
            LrpState::Claimed { instance, .. } | LrpState::Running { instance, .. } => {
                Some(*instance)
            }
            LrpState::Unclaimed | LrpState::Crashed => None,
        }
    }

    /// The cell on which that container is.
    pub fn cell(&self) -> Option<Name>
        ensures { result ≡ cell_of self.now }
    {
        match self {
            LrpState::Claimed { cell, .. } | LrpState::Running { cell, .. } => Some(*cell),
            LrpState::Unclaimed | LrpState::Crashed => None,
        }
    }
}

#[cfg(test)]
mod tests {
    use super::*;
    use std::test::Fail;

    #[test]
    fn a_state_tells_its_name_its_container_and_the_cell(rt: HostRuntime) -> Result<(), Fail> {
        let instance = Instance {
            epoch: 3,
            number: 2,
        };
        let cell = Name::read(b"c1")?;
        for (state, name, holder, place) in [
            (LrpState::Unclaimed, StateName::Unclaimed, None, None),
            (
                LrpState::Claimed { instance, cell },
                StateName::Claimed,
                Some(instance),
                Some(cell),
            ),
            (
                LrpState::Running { instance, cell },
                StateName::Running,
                Some(instance),
                Some(cell),
            ),
            (LrpState::Crashed, StateName::Crashed, None, None),
        ] {
            assert_eq!(rt; state.name(), name);
            assert_eq!(rt; state.holder(), holder, "in {state:?}");
            assert_eq!(rt; state.cell(), place, "in {state:?}");
        }
        Ok(())
    }
}
