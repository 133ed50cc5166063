/// How long a row that has crashed waits for its restart.
#[derive(Clone, Copy, Debug, PartialEq, Eq, Hash)]
pub enum Wait {
    /// The restart comes at once.
    Now,
    /// So many seconds pass between the crash and the restart.
    After(u32),
    /// There is no restart any more.
    Never,
}
