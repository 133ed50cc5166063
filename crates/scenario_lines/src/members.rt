//! The members of a line, each looked up once.
ghost use Rattle.std.specs.Prelude.{◌≡◌, option_map};
ghost use Rattle.std.specs.Coded.{codes};
ghost use Rattle.serde_json.specs.contracts.value.Value as e;
ghost use Rattle.serde_json.specs.View.{view};
ghost use Rattle.scenario_lines.specs.Members.{has, said_for, text_given};
ghost use Rattle.scenario_lines.specs.Places.{object_of, KeepsAll};

use crate::member::Member;
use serde_json::{Map, Value};

/// How many members there are.
const PLACES: usize = 24;

/// A line, and what it says for each member, at the member's place. That is long, so it stays where it was made.
#[derive(Drop)]
pub(crate) struct Members<'v> {
    pub object: &'v Map<String, Value>,
    pub said: &'v [Option<&'v Value>; PLACES],
    ghost kept: { KeepsAll said.now object.now.entries } by { Prim.hlevel (codes, e.the_row.coded) },
}

impl<'v> Members<'v> {
    /// The members of an object, of which this is what it says for each.
    pub fn new(object: &'v Map<String, Value>, said: &'v [Option<&'v Value>; PLACES]) -> Members<'v>
        requires { KeepsAll said.now object.now.entries }
        ensures { result.object.now ≡ object.now }
    {
        Members { object, said }
    }

    /// What the line says for a member.
    pub fn said_for(&self, member: Member) -> Option<&'v Value>
        ensures { option_map (λ said. view said.now) result
            ≡ said_for member (object_of self.now.object.now) }
    {
        let all = self.said;
        let said = &all[..];
        said[member.place()]
    }

    /// Whether the line has the member.
    pub fn has(&self, member: Member) -> bool
        ensures { result ≡ has member (object_of self.now.object.now) }
    {
        self.said_for(member).is_some()
    }

    /// The text of a member.
    pub fn text_in(&self, member: Member) -> Option<&'v str>
        ensures { option_map (λ text. text.now) result
            ≡ text_given member (object_of self.now.object.now) }
    {
        self.said_for(member)?.as_str()
    }
}

/// What an object says for each member: it looks once at each name in the object.
pub(crate) fn said_in(object: &Map<String, Value>) -> [Option<&Value>; PLACES]
    ensures { KeepsAll result object.now.entries }
{
    let mut said = [None; PLACES];
    for (name, value) in object.iter() {
        if let Some(member) = Member::named(name.as_str()) {
            let place = member.place();
            if said[place].is_none() {
                said[place] = Some(value);
            }
        }
    }
    said
}
