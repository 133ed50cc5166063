/// How far a container has come.
#[derive(Clone, Copy, Debug, PartialEq, Eq)]
pub enum ContainerState {
    /// The cell has made room for it, and does not run it yet.
    Reserved,
    Running,
    /// It ended by itself.
    Completed { failed: bool },
}
