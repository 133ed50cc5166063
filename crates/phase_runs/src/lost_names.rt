//! Names of a round's line, which are looked up at each delivery.
ghost use Rattle.std.specs.Prelude.{◌≡◌, ℕ, nat_eq, List as AList, IfOk};
ghost use Rattle.std.specs.Cmp.Lexicographic.{pointwise};
ghost use Rattle.std.specs.HashSet.{contains};
ghost use Rattle.std.specs.Option.{ForSome};
ghost use Rattle.phase_runs.specs.Names.{is_among};

use diego_names::{List, Name, OutOfMemory};
use std::alloc::Global;
use std::collections::HashSet;

/// A list of names, hashed once if there is memory for that. Else the list is looked through.
#[derive(Drop)]
pub(crate) struct LostNames<'a> {
    list: &'a List<Name>,
    hashed: Option<HashSet<Name>>,
    ghost same: { ForSome hashed (λ set. (name : AList ℕ)
        → contains (pointwise nat_eq) set name ≡ is_among list.now name) },
}

fn hash(alloc: Global, names: &[Name]) -> Result<HashSet<Name>, OutOfMemory>
    ensures { IfOk result (λ set. (name : AList ℕ)
        → contains (pointwise nat_eq) set name ≡ is_among names.now name) }
{
    let mut set = HashSet::new(alloc);
    for name in names {
        set.insert(*name)?;
    }
    Ok(set)
}

impl<'a> LostNames<'a> {
    pub(crate) fn of(alloc: Global, list: &'a List<Name>) -> LostNames<'a>
        ensures { result.list.now ≡ list.now }
    {
        LostNames {
            list,
            hashed: hash(alloc, list.items()).ok(),
        }
    }

    /// Whether the name is one of them.
    pub(crate) fn has(&self, name: &Name) -> bool
        ensures { result ≡ is_among self.now.list.now name.now }
    {
        match &self.hashed {
            Some(set) => set.contains(name),
            None => self.list.items().iter().any(|one| one == name),
        }
    }
}
