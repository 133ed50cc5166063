// What a device call did to an area held in memory.

/// A write also keeps the bytes that it laid its own over, fewer than it wrote where the area grew.
#[derive(Drop)]
pub(crate) enum Deed {
    Write {
        from: usize,
        len: usize,
        over: Vec<u8>,
    },
    Tear {
        from: usize,
        len: usize,
    },
    Sync,
}

/// A deed, with the number of its call.
#[derive(Drop)]
pub(crate) struct Entry {
    pub(crate) call: u64,
    pub(crate) deed: Deed,
}
