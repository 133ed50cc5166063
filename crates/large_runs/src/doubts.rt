//! Whether anything in a log is in doubt.
ghost use Rattle.std.specs.Prelude.{◌≡◌};
ghost use Rattle.std.specs.List.{list_all};
ghost use Rattle.large_runs.specs.Large.{is_calm, is_done};

use bbs_model::Item;

fn is_done(item: &Item) -> bool
    ensures { result ≡ is_done item.now }
{
    match item {
        Item::Done(..) => true,
        Item::Doubt(..) => false,
    }
}

/// Nothing in the log is in doubt.
pub(crate) fn is_calm(log: &[Item]) -> bool
    ensures { result ≡ is_calm log.now }
{
    log.iter().all(|item| is_done(item))
}
