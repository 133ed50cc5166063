// Which file of the system it is, whatever name leads to it.
use std::fs::Metadata;
use std::os::unix::fs::MetadataExt;

/// The device and the number of a file there. As long as a file is open no other one gets them.
#[derive(Clone, Copy, PartialEq, Eq)]
pub(crate) struct Identity {
    device: u64,
    number: u64,
}

impl Identity {
    pub(crate) fn of(found: &Metadata) -> Identity {
        Identity {
            device: found.dev(),
            number: found.ino(),
        }
    }
}
