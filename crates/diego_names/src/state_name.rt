/// The states of ActualLRPs and of tasks, as refusals and printed lines name them. RUNNING is a state of both.
#[derive(Clone, Copy, Debug, PartialEq, Eq, Hash)]
pub enum StateName {
    Unclaimed,
    Claimed,
    Running,
    Crashed,
    Pending,
    Completed,
    Resolving,
}
