use crate::Event;
use diego_names::List;

/// What a reader of a log hears: the changes of rows that some items of it made.
#[derive(Debug, Drop)]
pub struct Heard {
    /// The changes, oldest first.
    pub events: List<Event>,
    /// The place after those items: the next reading goes on there.
    pub upto: u64,
}
