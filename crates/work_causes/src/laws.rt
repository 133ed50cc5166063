//! The laws of causes. These functions do nothing: they are there for what they ensure.
ghost use Rattle.work_causes.specs.CauseLaws.{CausesTell, CausesAreAlike};

/// A subject is asked for something exactly if one of its causes holds.
pub fn causes_tell()
    ensures { CausesTell }
{}

/// The causes of a subject depend on its own row and, at a place among the actual rows, on the ORDINARY row
/// beside it and whether the instance is wanted. They name leases and domains, and don't depend on them.
pub fn causes_are_alike()
    ensures { CausesAreAlike }
{}
