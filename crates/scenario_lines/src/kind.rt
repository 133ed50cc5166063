//! What a member has to be.
ghost use Rattle.std.specs.Prelude.{◌≡◌, is_some};
ghost use Rattle.std.specs.List.{list_all};
ghost use Rattle.serde_json.specs.Find.{as_str};
ghost use Rattle.serde_json.specs.View.{view};
ghost use Rattle.scenario_lines.specs.Kinds.{are_texts, in_times, is_of_kind, kind_of, loss_named, loss_of, number_said, port_of, times_of};

use crate::act::Loss;
use crate::member::Member;
use serde_json::Value;

/// What a member is.
#[derive(Clone, Copy, Debug, PartialEq, Eq)]
pub enum Kind {
    Text,
    /// A whole number that 32 bits hold.
    Number,
    /// A number up to 65535.
    Port,
    /// A number from 1 to 1,000.
    Times,
    Truth,
    /// `"call"` or `"reply"`.
    Loss,
    /// A list of texts.
    Texts,
}

impl Member {
    pub(crate) fn kind(self) -> Kind
        ensures { result ≡ kind_of self }
    {
        match self {
            Member::At => Kind::Number,
            Member::Client => Kind::Text,
            Member::Cell => Kind::Text,
            Member::Op => Kind::Text,
            Member::Lost => Kind::Loss,
            Member::Times => Kind::Times,
            Member::Process => Kind::Text,
            Member::Domain => Kind::Text,
            Member::Instances => Kind::Number,
            Member::Memory => Kind::Number,
            Member::Disk => Kind::Number,
            Member::Tag => Kind::Text,
            Member::Route => Kind::Text,
            Member::Port => Kind::Port,
            Member::Index => Kind::Number,
            Member::Name => Kind::Text,
            Member::Zone => Kind::Text,
            Member::Containers => Kind::Number,
            Member::Ttl => Kind::Number,
            Member::Failed => Kind::Truth,
            Member::LoseAsk => Kind::Texts,
            Member::LoseStop => Kind::Texts,
            Member::LoseStart => Kind::Texts,
            Member::LoseReply => Kind::Texts,
        }
    }
}

impl Kind {
    /// Whether a value is of this kind.
    pub(crate) fn is_of(self, value: &Value) -> bool
        ensures { result ≡ is_of_kind self (view value.now) }
    {
        match self {
            Kind::Text => value.as_str().is_some(),
            Kind::Number => number_of(value).is_some(),
            Kind::Port => port_of(value).is_some(),
            Kind::Times => times_of(value).is_some(),
            Kind::Truth => value.as_bool().is_some(),
            Kind::Loss => loss_of(value).is_some(),
            Kind::Texts => are_texts(value),
        }
    }
}

/// The whole number of 32 bits that a value is, written without a point or an exponent.
pub fn number_of(value: &Value) -> Option<u32>
    ensures { result ≡ number_said (view value.now) }
{
    u32::try_from(value.as_u64()?).ok()
}

pub(crate) fn port_of(value: &Value) -> Option<u16>
    ensures { result ≡ port_of (view value.now) }
{
    u16::try_from(value.as_u64()?).ok()
}

pub(crate) fn times_of(value: &Value) -> Option<u32>
    ensures { result ≡ times_of (view value.now) }
{
    in_times(number_of(value)?)
}

fn in_times(number: u32) -> Option<u32>
    ensures { result ≡ in_times number }
{
    if 1 <= number && number <= 1000 {
        Some(number)
    } else {
        None
    }
}

pub(crate) fn loss_of(value: &Value) -> Option<Loss>
    ensures { result ≡ loss_of (view value.now) }
{
    loss_named(value.as_str()?)
}

fn loss_named(text: &str) -> Option<Loss>
    ensures { result ≡ loss_named text.now }
{
    match text {
        "call" => Some(Loss::Call),
        "reply" => Some(Loss::Reply),
        _ => None,
    }
}

fn are_texts(value: &Value) -> bool
    ensures { result ≡ are_texts (view value.now) }
{
    match value.as_array() {
        Some(items) => all_texts(items.as_slice()),
        None => false,
    }
}

fn all_texts(items: &[Value]) -> bool
    ensures { result ≡ list_all (λ item. is_some (as_str (view item))) items.now }
{
    items.iter().all(|item| item.as_str().is_some())
}
