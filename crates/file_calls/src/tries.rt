// How often a call of the system is made again.

// A call that a signal interrupted moved nothing and is no fault. It is made again, but not for
// ever: so many calls in all.
pub(crate) const TRIES: u32 = 100;
