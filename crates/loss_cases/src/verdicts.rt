//! Verdicts: which is which, and the worst of them.
ghost use Rattle.std.specs.Prelude.{◌≡◌, count_by};
ghost use Rattle.loss_cases.specs.Cases.{is_room, is_short, is_unplaced, worst};
ghost use Rattle.what_if.specs.Verdicts.{worse};

use forecast_records::Verdict;

// The worse of two.
pub(crate) fn worse(first: Verdict, second: Verdict) -> Verdict
    ensures { result ≡ worse first second }
{
    match first {
        Verdict::Room => second,
        Verdict::Unplaced => match second {
            Verdict::Room | Verdict::Unplaced => Verdict::Unplaced,
            Verdict::Short => Verdict::Short,
        },
        Verdict::Short => Verdict::Short,
    }
}

// The worst of them, and room where there is none.
pub(crate) fn worst(verdicts: &[Verdict]) -> Verdict
    ensures { result ≡ worst verdicts.now }
{
    let mut so_far = Verdict::Room;
    for verdict in verdicts {
        so_far = worse(so_far, *verdict);
    }
    so_far
}

// Whether all find room.
pub(crate) fn is_room(verdict: Verdict) -> bool
    ensures { result ≡ is_room verdict }
{
    match verdict {
        Verdict::Room => true,
        Verdict::Unplaced | Verdict::Short => false,
    }
}

// Whether it is shown that not all find room.
fn is_short(verdict: Verdict) -> bool
    ensures { result ≡ is_short verdict }
{
    match verdict {
        Verdict::Short => true,
        Verdict::Room | Verdict::Unplaced => false,
    }
}

// Whether neither is so.
fn is_unplaced(verdict: Verdict) -> bool
    ensures { result ≡ is_unplaced verdict }
{
    match verdict {
        Verdict::Unplaced => true,
        Verdict::Room | Verdict::Short => false,
    }
}

// Of how many all find room.
pub(crate) fn count_room(verdicts: &[Verdict]) -> u64
    ensures { result ≡ count_by is_room verdicts.now }
{
    verdicts.iter().filter(|verdict| is_room(**verdict)).count() as u64
}

// Of how many it is shown that not all find room.
pub(crate) fn count_short(verdicts: &[Verdict]) -> u64
    ensures { result ≡ count_by is_short verdicts.now }
{
    verdicts
        .iter()
        .filter(|verdict| is_short(**verdict))
        .count() as u64
}

// Of how many neither is so.
pub(crate) fn count_unplaced(verdicts: &[Verdict]) -> u64
    ensures { result ≡ count_by is_unplaced verdicts.now }
{
    verdicts
        .iter()
        .filter(|verdict| is_unplaced(**verdict))
        .count() as u64
}
