//! The groups in which cells are kept apart: by tag, and by zone unless there are many.
ghost use Rattle.std.specs.Prelude.{◌≡◌, ℕ, IfOk, IfSome};
ghost use Rattle.auctioneer.specs.Spots.{IsGroupOf};
ghost use Rattle.auctioneer.specs.declared.stand.Stand.{Stand as AStand};

use crate::stand::Stand;
use diego_names::{Name, OutOfMemory};
use std::alloc::Global;

// For each job each group is looked at. Where zones and tags would make more groups than these, zones aren't
// kept apart: each then has so few cells that they can be put in order one by one.
const MOST: usize = 32;

// The cells of one tag, and of one zone if zones are kept apart.
#[derive(Clone, Copy, PartialEq, Eq)]
pub(crate) struct Group {
    pub(crate) zone: Option<Name>,
    pub(crate) tag: Option<Name>,
}

// The zone of a cell, if zones are kept apart.
fn zone_apart(stand: &Stand, is_apart: bool) -> Option<Name>
    ensures { IfSome result (λ zone. zone ≡ stand.now.zone) }
{
    if is_apart { Some(stand.zone) } else { None }
}

// The number of the cell's group, which is a new one if the cell is the first of it.
pub(crate) fn group_of(
    groups: &mut Vec<Group>,
    stand: &Stand,
    is_apart: bool,
) -> Result<usize, OutOfMemory>
    ensures number { IfOk result (IsGroupOf groups.new.items stand.now) }
    ensures others { (s : AStand) (n : ℕ)
        → IsGroupOf groups.old.items s n → IsGroupOf groups.new.items s n }
{
    let group = Group {
        zone: zone_apart(stand, is_apart),
        tag: stand.tag,
    };
    match groups.iter().position(|known| *known == group) {
        Some(number) => Ok(number),
        None => {
            let number = groups.len();
            groups.push(group)?;
            Ok(number)
        }
    }
}

// Whether zones are kept apart: so are few.
pub(crate) fn are_apart(alloc: Global, stands: &[Stand]) -> Result<bool, OutOfMemory> {
    let mut groups = Vec::new(alloc);
    for stand in stands {
        group_of(&mut groups, stand, true)?;
        if groups.len() > MOST {
            return Ok(false);
        }
    }
    Ok(true)
}
