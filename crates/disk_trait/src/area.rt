// The two parts of a disk.

/// One of the disk's two areas of bytes. Each has a length of its own.
#[derive(Clone, Copy, Debug, PartialEq, Eq)]
pub enum Area {
    A,
    B,
}
