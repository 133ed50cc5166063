//! The law of runs at one disk.
use disk_trait::MemoryDisk;
use run_theorem::played_runs_are_faithful;

#[test]
fn the_law_holds_over_a_disk_in_memory() {
    played_runs_are_faithful::<MemoryDisk>();
}
