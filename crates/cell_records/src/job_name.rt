use diego_names::{Key, Name};

/// The work that a container is for: an instance of a process, or a task.
#[derive(Clone, Copy, Debug, PartialEq, Eq, Hash)]
pub enum JobName {
    Lrp(Key),
    Task(Name),
}
