//! The ports through which bytes come in and go out, each with a count of its faults.
#![tactic(auto)]

mod failed;
mod failing_calls;
mod gate;
mod memory_sink;
mod memory_source;
mod reading;
mod sink;
mod source;
mod std_sink;
mod std_source;
mod tries;
mod writing;

pub use failed::Failed;
pub use gate::{Gate, OpenGate};
pub use memory_sink::MemorySink;
pub use memory_source::MemorySource;
pub use reading::{ReadFault, read_whole};
pub use sink::Sink;
pub use source::Source;
pub use std_sink::StdSink;
pub use std_source::StdSource;
pub use writing::write_whole;

#[cfg(test)]
mod tests;
