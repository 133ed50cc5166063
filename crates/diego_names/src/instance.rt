/// One container's life. It is never used again: the epoch is the number of transitions in the
/// board's life before its cell joined, and the number counts that cell's containers since then, from 1.
#[derive(Clone, Copy, Debug, PartialEq, Eq, PartialOrd, Ord, Hash)]
pub struct Instance {
    pub epoch: u64,
    pub number: u32,
}
