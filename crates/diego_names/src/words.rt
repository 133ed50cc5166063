//! Two names are compared by words of eight bytes, since names that meet mostly begin alike.

ghost use Rattle.std.specs.Prelude.{◌≡◌, ◌≤◌, ◌+◌, ◌*◌, ◌/◌, ℕ, drop, length, replicate, nat_eq};
ghost use Rattle.std.specs.Int.{w64, from_be_bytes};
ghost use Rattle.std.specs.Cmp.Lexicographic.{pointwise};
ghost use Rattle.diego_names.specs.Order.{name_order};

use std::cmp::Ordering;

// The eight bytes from a place on, as one number: the first byte is the highest, so that words are ordered as their bytes are.
fn word_at(bytes: &[u8; 80], at: usize) -> u64
    requires { at + 8 ≤ 80 }
    ensures { result ≡ from_be_bytes w64 (drop at bytes.now) }
{
    u64::from_be_bytes([
        bytes[at],
        bytes[at + 1],
        bytes[at + 2],
        bytes[at + 3],
        bytes[at + 4],
        bytes[at + 5],
        bytes[at + 6],
        bytes[at + 7],
    ])
}

/// Compares bytes of which none but zeros stand from `end` on.
pub(crate) fn order_of_bytes(a: &[u8; 80], b: &[u8; 80], end: usize) -> Ordering
    requires end { end ≤ 80 }
    requires rest { drop end a.now ≡ drop end b.now }
    ensures { result ≡ name_order a.now b.now }
{
    for word in 0..(end + 7) / 8 {
        let one = word_at(a, 8 * word);
        let other = word_at(b, 8 * word);
        if one != other {
            return one.cmp(&other);
        }
    }
    Ordering::Equal
}
