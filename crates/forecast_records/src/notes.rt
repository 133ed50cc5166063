/// What a dump tells that is modelled otherwise, or not at all: of each how many. A note of nothing is 0.
#[derive(Clone, Copy, Debug, PartialEq, Eq)]
pub struct Notes {
    /// Instances that are wanted since they have a container: the dump has no desired process.
    pub instances_from_containers: u64,
    /// Cells with optional placement tags, which are passed over.
    pub optional_tags: u64,
    /// The memory in MB that is added to what each instance asks for.
    pub proxy_memory: u32,
    /// Rows that are claimed or running, on a cell that no line names.
    pub rows_of_no_cell: u64,
    /// Cells that are listed and told no state.
    pub silent_cells: u64,
    /// Containers that have not ended, of no wanted instance, where the dump has desired processes.
    pub strays: u64,
    /// Instances on cells and desired processes that name volume drivers, which aren't modelled.
    pub volume_drivers: u64,
}
