//! A name is kept in place, so that it is copied and takes no memory.

ghost use Rattle.std.specs.Prelude.{◌≡◌, ◌↔◌, ◌≤◌, ◌-◌, [], ◌∷◌, ◌++◌, length, replicate, IfOk, IsNone, Ok, Some, nat_eq};
ghost use Rattle.std.specs.List.{AllPass, list_all};
ghost use Rattle.std.specs.Ordering.{as_partial_cmp};
ghost use Rattle.std.specs.Cmp.{partial_order_from_own_ties};
ghost use Rattle.std.specs.Cmp.Lexicographic.{pointwise};
ghost use Rattle.std.specs.Cmp.Rules.{comparing, hashing};
ghost use Rattle.diego_names.specs.Name.{is_name_byte, first_bad_byte};
ghost use Rattle.diego_names.specs.Order.{name_order};
ghost use Rattle.std.proofs.Common.{rules};

use crate::words::order_of_bytes;
use std::cmp::Ordering;
use std::hash::{Hash, Hasher};
use std::marker::Model;
use std::{fmt, str};
use thiserror::Error;

/// The most bytes that a name has.
const LONGEST: usize = 80;

/// The name of a process, a domain, a cell, a zone, a tag, a route or a task: 1 to 80 bytes, each
/// an ASCII letter, a digit, `.`, `_` or `-`.
#[derive(Clone, Copy)]
pub struct Name {
    bytes: [u8; 80],
    len: u8,
}

/// Why bytes are no name: the first of these that holds.
#[derive(Clone, Copy, Debug, PartialEq, Eq, Error)]
pub enum NameFault {
    #[error("a name is empty")]
    Empty,
    #[error("a name of {len} bytes")]
    TooLong { len: usize },
    /// The place of the first byte that no name has.
    #[error("a bad byte at {at} of a name")]
    BadByte { at: usize },
}

impl Model for Name {
    ghost use Rattle.std.specs.Prelude.{List, ℕ};
    ghost use Rattle.std.specs.Coded.{coded_list, coded_ℕ};

    ghost Value = { List ℕ };

    ghost coded = { coded_list coded_ℕ };

    ghost use Rattle.diego_names.specs.Inside.{name_view, name_inverse, IsNameInside, name_inverse-name_view};

    ghost view = { name_view };

    ghost invariant = { IsNameInside };

    ghost inverse = { name_inverse };

    ghost inverse_ok = { name_inverse-name_view };
}

fn is_name_byte(byte: u8) -> bool
    ensures { result ≡ is_name_byte byte }
{
    let is_upper = (b'A' <= byte) & (byte <= b'Z');
    let is_lower = (b'a' <= byte) & (byte <= b'z');
    let is_digit = (b'0' <= byte) & (byte <= b'9');
    is_upper | is_lower | is_digit | (byte == b'.') | (byte == b'_') | (byte == b'-')
}

// Whether a name may have each of the bytes. It looks at all of them, so that many are looked at at once.
#[tactic(auto, using(std::proofs::lemmas::List::Folds::list_all_more))]
fn are_name_bytes(bytes: &[u8]) -> bool
    ensures { result ≡ list_all is_name_byte bytes.now }
{
    let mut all = true;
    for byte in bytes {
        all = all & is_name_byte(*byte);
    }
    all
}

// The place of the first byte that no name has.
fn first_bad_byte(bytes: &[u8]) -> Option<usize>
    ensures value { result ≡ first_bad_byte bytes.now }
    ensures none { IsNone result ↔ AllPass is_name_byte bytes.now }
{
    if are_name_bytes(bytes) {
        return None;
    }
    bytes.iter().position(|byte| !is_name_byte(*byte))
}

// The bytes, and zeros behind them.
fn padded(bytes: &[u8]) -> [u8; 80]
    requires { length bytes.now ≤ 80 }
    ensures { result ≡ bytes.now ++ replicate (80 - length bytes.now) 0 }
{
    let mut all = [0; LONGEST];
    all[..bytes.len()].copy_from_slice(bytes);
    all
}

impl Name {
    ghost use Rattle.diego_names.specs.Name.{IsName};
    ghost use Rattle.diego_names.specs.Reading.{name_reading};

    /// The name that these bytes are.
    pub fn read(bytes: &[u8]) -> Result<Name, NameFault>
        ensures exact { result ≡ name_reading bytes.now }
        ensures name { IfOk result (λ name. IsName name × (name ≡ bytes.now)) }
        ensures whole { IsName bytes.now → result ≡ Ok bytes.now }
    {
        if bytes.is_empty() {
            return Err(NameFault::Empty);
        }
        if bytes.len() > LONGEST {
            return Err(NameFault::TooLong { len: bytes.len() });
        }
        match first_bad_byte(bytes) {
            Some(at) => Err(NameFault::BadByte { at }),
            None => Ok(Name {
                bytes: padded(bytes),
                len: bytes.len() as u8,
            }),
        }
    }

    pub fn bytes(&self) -> &[u8]
        ensures value { result.now ≡ self.now }
        ensures name { IsName self.now }
    {
        &self.bytes[..self.len as usize]
    }

    // The bytes behind either name are 0, and no byte of a name is: so the arrays stand in the order of the names.
    fn order(&self, other: &Name) -> Ordering
        ensures { result ≡ name_order self.now other.now }
    {
        let end = self.len.max(other.len) as usize;
        order_of_bytes(&self.bytes, &other.bytes, end)
    }

    /// The name as text: its bytes are ASCII.
    pub fn as_str(&self) -> &str
        ensures { result.now ≡ self.now }
    {
        match str::from_utf8(self.bytes()) {
            Ok(text) => text,
            Err(_) => unreachable!(),
        }
    }
}

impl PartialEq for Name {
    ghost eq = { pointwise nat_eq };

    ghost laws = { Prim.search (comparing, rules) };

    fn eq(&self, other: &Name) -> bool {
        self.len == other.len && self.order(other).is_eq()
    }
}

impl Eq for Name {
    ghost laws = { Prim.search (comparing, rules) };
}

impl Ord for Name {
    ghost cmp = { name_order };

    ghost total = { Prim.search (comparing, rules) };

    ghost matches_partial_cmp = { Prim.search (comparing, rules) };

    ghost matches_eq = { Prim.search (comparing, rules) };

    fn cmp(&self, other: &Name) -> Ordering {
        self.order(other)
    }
}

impl PartialOrd for Name {
    ghost partial_cmp = { as_partial_cmp (name_order) };

    ghost laws = { partial_order_from_own_ties (Prim.search (comparing, rules))
        (Prim.search (comparing, rules)) };

    fn partial_cmp(&self, other: &Name) -> Option<Ordering> {
        Some(self.cmp(other))
    }
}

impl Hash for Name {
    // One write of all bytes, since a hasher takes many at once.
    ghost hash_input = { λ name. name ∷ [] };

    ghost respects_eq = { Prim.search (hashing, rules) };

    fn hash<H: Hasher>(&self, state: &mut H) {
        state.write(self.bytes());
    }
}

impl fmt::Debug for Name {
    fn fmt<W: fmt::Write>(&self, f: &mut fmt::Formatter<W>) -> fmt::Result {
        fmt::Debug::fmt(&self.as_str(), f)
    }
}

impl fmt::Display for Name {
    ghost output = { λ name. Some name };

    fn fmt<W: fmt::Write>(&self, f: &mut fmt::Formatter<W>) -> fmt::Result {
        f.write_str(self.as_str())
    }
}
