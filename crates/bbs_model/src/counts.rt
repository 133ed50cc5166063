/// How many rows a board has.
#[derive(Clone, Copy, Debug, PartialEq, Eq)]
pub struct Counts {
    /// Desired processes.
    pub desired: u32,
    /// The instances that all processes want together.
    pub wanted: u32,
    /// Actual rows, of all three presences.
    pub actual: u32,
    pub tasks: u32,
    pub cells: u32,
    pub domains: u32,
}
