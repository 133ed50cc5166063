//! The cells of one zone and one tag.
ghost use Rattle.std.specs.Prelude.{◌≡◌};
ghost use Rattle.site_spread.specs.Groups.{group_of, is_in};

use cell_records::Answer;
use diego_names::Name;

/// The cells of one zone and one tag. Groups are ordered by zone, then by tag with none first.
#[derive(Clone, Copy, Debug, PartialEq, Eq, PartialOrd, Ord, Hash)]
pub struct Group {
    pub zone: Name,
    pub tag: Option<Name>,
}

/// The zone and the tag of a cell.
pub fn group_of(answer: &Answer) -> Group
    ensures { result ≡ group_of answer.now }
{
    Group {
        zone: answer.zone,
        tag: answer.tag,
    }
}

/// Whether a zone and a tag are those.
pub fn is_in(group: &Group, zone: &Name, tag: &Option<Name>) -> bool
    ensures { result ≡ is_in group.now zone.now tag.now }
{
    group.zone == *zone && group.tag == *tag
}
