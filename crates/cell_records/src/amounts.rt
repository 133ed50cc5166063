/// How much a cell has in all, or still has to give.
#[derive(Clone, Copy, Debug, PartialEq, Eq)]
pub struct Amounts {
    /// In MB.
    pub memory: u32,
    /// In MB.
    pub disk: u32,
    /// How many containers.
    pub containers: u32,
}
