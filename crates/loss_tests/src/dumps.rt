//! The lines of which dumps are made, and the site that a dump tells.
ghost use Rattle.std.specs.Prelude.{IfSome};
ghost use Rattle.what_if.specs.Sites.{IsSite};

use diego_names::{List, Name, OutOfMemory};
use dump_reader::read_dump;
use forecast_records::Verdict;
use std::alloc::{AllocError, Global};
use what_if::Site;

// A cell with an instance of 256 MB.
pub(crate) const WEB_0: &str = "\
    {\"cell_id\":\"c1\",\"Zone\":\"z1\",\"TotalResources\":{\"MemoryMB\":1024,\"DiskMB\":4096,\"Containers\":50},\
    \"AvailableResources\":{\"MemoryMB\":768,\"DiskMB\":3072,\"Containers\":49},\"LRPs\":[\
    {\"process_guid\":\"web\",\"index\":0,\"MemoryMB\":256,\"DiskMB\":1024}]}\n";

// The same, but it says that all its containers are free.
pub(crate) const WEB_0_NOT_COUNTED: &str = "\
    {\"cell_id\":\"c1\",\"Zone\":\"z1\",\"TotalResources\":{\"MemoryMB\":1024,\"DiskMB\":4096,\"Containers\":50},\
    \"AvailableResources\":{\"MemoryMB\":768,\"DiskMB\":3072,\"Containers\":50},\"LRPs\":[\
    {\"process_guid\":\"web\",\"index\":0,\"MemoryMB\":256,\"DiskMB\":1024}]}\n";

// Another one in its zone.
pub(crate) const WEB_1: &str = "\
    {\"cell_id\":\"c2\",\"Zone\":\"z1\",\"TotalResources\":{\"MemoryMB\":1024,\"DiskMB\":4096,\"Containers\":50},\
    \"AvailableResources\":{\"MemoryMB\":768,\"DiskMB\":3072,\"Containers\":49},\"LRPs\":[\
    {\"process_guid\":\"web\",\"index\":1,\"MemoryMB\":256,\"DiskMB\":1024}]}\n";

// An empty cell in another zone.
pub(crate) const EMPTY: &str = "\
    {\"cell_id\":\"c3\",\"Zone\":\"z2\",\"TotalResources\":{\"MemoryMB\":1024,\"DiskMB\":4096,\"Containers\":50},\
    \"AvailableResources\":{\"MemoryMB\":1024,\"DiskMB\":4096,\"Containers\":50},\"LRPs\":[]}\n";

// The same, but it takes one instance alone.
pub(crate) const SMALL: &str = "\
    {\"cell_id\":\"c3\",\"Zone\":\"z2\",\"TotalResources\":{\"MemoryMB\":256,\"DiskMB\":4096,\"Containers\":50},\
    \"AvailableResources\":{\"MemoryMB\":256,\"DiskMB\":4096,\"Containers\":50},\"LRPs\":[]}\n";

// A cell in a third zone that told no state: a row says that it has one of three instances.
pub(crate) const SILENT: &str = "\
    {\"cell_id\":\"c4\",\"zone\":\"z3\",\"capacity\":{}}\n\
    {\"process_guid\":\"web\",\"instances\":3,\"memory_mb\":256,\"disk_mb\":1024}\n\
    {\"process_guid\":\"web\",\"index\":2,\"state\":\"RUNNING\",\"cell_id\":\"c4\"}\n";

// Cells of 1000 MB: two with an instance of 400 MB, and an empty one.
pub(crate) const A_0: &str = "\
    {\"cell_id\":\"c1\",\"Zone\":\"z1\",\"TotalResources\":{\"MemoryMB\":1000,\"DiskMB\":10000,\"Containers\":10},\
    \"AvailableResources\":{\"MemoryMB\":600,\"DiskMB\":9900,\"Containers\":9},\"LRPs\":[\
    {\"process_guid\":\"a\",\"index\":0,\"MemoryMB\":400,\"DiskMB\":100}]}\n";

pub(crate) const A_1: &str = "\
    {\"cell_id\":\"c2\",\"Zone\":\"z2\",\"TotalResources\":{\"MemoryMB\":1000,\"DiskMB\":10000,\"Containers\":10},\
    \"AvailableResources\":{\"MemoryMB\":600,\"DiskMB\":9900,\"Containers\":9},\"LRPs\":[\
    {\"process_guid\":\"a\",\"index\":1,\"MemoryMB\":400,\"DiskMB\":100}]}\n";

pub(crate) const NO_A: &str = "\
    {\"cell_id\":\"c3\",\"Zone\":\"z2\",\"TotalResources\":{\"MemoryMB\":1000,\"DiskMB\":10000,\"Containers\":10},\
    \"AvailableResources\":{\"MemoryMB\":1000,\"DiskMB\":10000,\"Containers\":10},\"LRPs\":[]}\n";

// Two of a tag, each with an instance of 600 MB.
pub(crate) const S_0: &str = "\
    {\"cell_id\":\"i1\",\"Zone\":\"z1\",\"TotalResources\":{\"MemoryMB\":1000,\"DiskMB\":10000,\"Containers\":10},\
    \"AvailableResources\":{\"MemoryMB\":400,\"DiskMB\":9900,\"Containers\":9},\"LRPs\":[\
    {\"process_guid\":\"s\",\"index\":0,\"MemoryMB\":600,\"DiskMB\":100,\"PlacementTags\":[\"iso\"]}],\"PlacementTags\":[\"iso\"]}\n";

pub(crate) const S_1: &str = "\
    {\"cell_id\":\"i2\",\"Zone\":\"z2\",\"TotalResources\":{\"MemoryMB\":1000,\"DiskMB\":10000,\"Containers\":10},\
    \"AvailableResources\":{\"MemoryMB\":400,\"DiskMB\":9900,\"Containers\":9},\"LRPs\":[\
    {\"process_guid\":\"s\",\"index\":1,\"MemoryMB\":600,\"DiskMB\":100,\"PlacementTags\":[\"iso\"]}],\"PlacementTags\":[\"iso\"]}\n";

fn joined(alloc: Global, lines: &[&str]) -> Result<String, AllocError> {
    let mut text = String::new(alloc);
    for line in lines {
        text.push_str(line)?;
    }
    Ok(text)
}

// The site that a dump of these lines tells.
pub(crate) fn site_of(alloc: Global, lines: &[&str]) -> Option<Site>
    ensures { IfSome result IsSite }
{
    let text = joined(alloc, lines).ok()?;
    if text.len() > 10_000 {
        return None;
    }
    let dump = read_dump(alloc, text.as_bytes()).ok()?;
    Site::of(alloc, &dump).ok()
}

// These names, in their order.
pub(crate) fn names_of(alloc: Global, names: &[Name]) -> Result<List<Name>, OutOfMemory> {
    let list = Vec::from_slice(alloc, names)?;
    Ok(List::from(list))
}

// A verdict as a number, the worst one last.
pub(crate) fn rank(verdict: Verdict) -> u64 {
    match verdict {
        Verdict::Room => 0,
        Verdict::Unplaced => 1,
        Verdict::Short => 2,
    }
}
