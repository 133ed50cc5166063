//! What a new lease of a cell, or a new end of a domain, changes of the times of causes.
ghost use Rattle.std.specs.Prelude.{◌≡◌, ◌+◌, ◌<◌, ◌≤◌, ℕ, Option};
ghost use Rattle.work_causes.specs.Causes.{until_of, Ends};
ghost use Rattle.work_causes.specs.declared.cause.Term.{Term as ATerm};
ghost use Rattle.watch_lists.specs.Shifting.{IsNewEnd, IsNewLease, IsShiftedEpoch};
ghost use Rattle.watch_lists.specs.Watched.{IsTimedBy};

use crate::leases::end_under;
use crate::tag::Tag;
use crate::timed::Timed;
use crate::watched::Watched;
use diego_names::Name;
use work_causes::{Cause, Lease, Term};

/// The end of the cell's lease under the epoch of this one, if there is one.
fn shift_epoch<K: Tag, V: Timed>(
    watched: &mut Watched<K, V>,
    cell: &Name,
    of: Option<Lease>,
    before: Option<Lease>,
    after: Option<Lease>,
)
    requires { 0 < watched.old.spare }
    ensures entries { watched.new.entries ≡ watched.old.entries }
    ensures timed { (u u2 : ATerm → Option ℕ) → IsShiftedEpoch cell.now of before after u u2
        → IsTimedBy ⟦<Cause as PartialEq>⟧.eq K.eq u watched.old.watch
        → IsTimedBy ⟦<Cause as PartialEq>⟧.eq K.eq u2 watched.new.watch }
    ensures spare { watched.old.spare ≤ watched.new.spare + 1 }
{
    match of {
        None => {}
        Some(lease) => {
            let epoch = lease.epoch;
            let old = end_under(before, epoch);
            let new = end_under(after, epoch);
            watched.shift(&Term::OfEpoch { cell: *cell, epoch }, Some(old), Some(new));
        }
    }
}

/// The lease of the cell is another one from now on.
pub fn shift_cell<K: Tag, V: Timed>(
    watched: &mut Watched<K, V>,
    cell: &Name,
    before: Option<Lease>,
    after: Option<Lease>,
)
    requires { 2 ≤ watched.old.spare }
    ensures entries { watched.new.entries ≡ watched.old.entries }
    ensures timed { (e e2 : Ends) → IsNewLease cell.now before after e e2
        → IsTimedBy ⟦<Cause as PartialEq>⟧.eq K.eq (until_of e) watched.old.watch
        → IsTimedBy ⟦<Cause as PartialEq>⟧.eq K.eq (until_of e2) watched.new.watch }
    ensures spare { watched.old.spare ≤ watched.new.spare + 2 }
{
    shift_epoch(watched, cell, before, before, after);
    shift_epoch(watched, cell, after, before, after);
}

/// The domain ends at another second from now on.
pub fn shift_domain<K: Tag, V: Timed>(
    watched: &mut Watched<K, V>,
    name: &Name,
    before: Option<Option<u64>>,
    after: Option<Option<u64>>,
)
    requires { 0 < watched.old.spare }
    ensures entries { watched.new.entries ≡ watched.old.entries }
    ensures timed { (e e2 : Ends) → IsNewEnd name.now after e e2
        → IsTimedBy ⟦<Cause as PartialEq>⟧.eq K.eq (until_of e) watched.old.watch
        → IsTimedBy ⟦<Cause as PartialEq>⟧.eq K.eq (until_of e2) watched.new.watch }
    ensures spare { watched.old.spare ≤ watched.new.spare + 1 }
{
    let term = Term::OfDomain { name: *name };
    watched.shift(&term, before.unwrap_or(Some(0)), after.unwrap_or(Some(0)));
}
