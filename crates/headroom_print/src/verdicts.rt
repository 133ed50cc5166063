//! The worst verdict of several answers.
ghost use Rattle.std.specs.Prelude.{◌≡◌};
ghost use Rattle.headroom_print.specs.Worst.{verdict_of, worse, worst};

use forecast_records::{Finding, Found, Verdict};

/// The verdict of all answers: `Short` where one is short, else `Unplaced` where one is unplaced,
/// else `Room`.
pub fn worst(found: &[Found]) -> Verdict
    ensures { result ≡ worst found.now }
{
    let mut so_far = Verdict::Room;
    for one in found {
        so_far = worse(so_far, verdict_of(&one.finding));
    }
    so_far
}

fn verdict_of(finding: &Finding) -> Verdict
    ensures { result ≡ verdict_of finding.now }
{
    match finding {
        Finding::Show(shown) => shown.verdict,
        Finding::Lose(lost) => lost.verdict,
        Finding::LoseEach(each) => each.verdict,
        Finding::LoseInTurn(turns) => turns.verdict,
        Finding::Drain(drained) => drained.verdict,
        Finding::Fit(fitted) => fitted.verdict,
    }
}

fn worse(a: Verdict, b: Verdict) -> Verdict
    ensures { result ≡ worse a b }
{
    match a {
        Verdict::Room => b,
        Verdict::Unplaced => match b {
            Verdict::Room | Verdict::Unplaced => Verdict::Unplaced,
            Verdict::Short => Verdict::Short,
        },
        Verdict::Short => Verdict::Short,
    }
}
