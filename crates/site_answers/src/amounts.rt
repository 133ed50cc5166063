//! Amounts added up, and the most of them.
ghost use Rattle.std.specs.Prelude.{◌≡◌, ℕ, ◌+◌, ◌-◌, ◌≤◌, ◌^◌, length};
ghost use Rattle.room_facts.specs.Rooms.{AreUpTo};
ghost use Rattle.site_answers.specs.Sums.{larger, most_of, sums_of, with_more};

use cell_records::Amounts;
use room_facts::Sums;

const NOTHING: Sums = Sums {
    memory: 0,
    disk: 0,
    containers: 0,
};

const NONE: Amounts = Amounts {
    memory: 0,
    disk: 0,
    containers: 0,
};

// How many there are.
pub(crate) fn number_of(amounts: &[Amounts]) -> u64
    ensures { result ≡ length amounts.now }
{
    amounts.len() as u64
}

// With these amounts more.
fn with_more(sums: Sums, more: Amounts) -> Sums
    requires { AreUpTo (2 ^ 64 - 2 ^ 32) sums }
    ensures value { result ≡ with_more sums more }
    ensures most { (n : ℕ) → AreUpTo n sums → AreUpTo (n + (2 ^ 32 - 1)) result }
{
    Sums {
        memory: sums.memory + u64::from(more.memory),
        disk: sums.disk + u64::from(more.disk),
        containers: sums.containers + u64::from(more.containers),
    }
}

// The amounts in all.
pub(crate) fn sums_of(amounts: &[Amounts]) -> Sums
    requires { length amounts.now ≤ 2 ^ 32 }
    ensures { result ≡ sums_of amounts.now }
{
    let mut sums = NOTHING;
    for more in amounts {
        sums = with_more(sums, *more);
    }
    sums
}

// Of each amount the larger one.
fn larger(a: Amounts, b: Amounts) -> Amounts
    ensures { result ≡ larger a b }
{
    Amounts {
        memory: a.memory.max(b.memory),
        disk: a.disk.max(b.disk),
        containers: a.containers.max(b.containers),
    }
}

// Of each amount the most.
pub(crate) fn most_of(amounts: &[Amounts]) -> Amounts
    ensures { result ≡ most_of amounts.now }
{
    let mut most = NONE;
    for next in amounts {
        most = larger(most, *next);
    }
    most
}
