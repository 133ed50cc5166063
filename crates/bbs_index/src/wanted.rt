//! How many instances desired rows want.
ghost use Rattle.std.specs.Prelude.{◌≡◌, ◌<◌, ◌^◌};
ghost use Rattle.bbs_index.specs.Index.{instances_in, instances_of};

use lrp_records::Desired;

// The instances that a row wants, if there is one.
pub(crate) fn instances_of(row: Option<Desired>) -> u32
    ensures { result ≡ instances_of row }
{
    match row {
        Some(row) => row.instances,
        None => 0,
    }
}

// The instances that the rows want together.
pub(crate) fn instances_in(rows: &[Desired]) -> u32
    requires { instances_in rows.now < 2 ^ 32 }
    ensures { result ≡ instances_in rows.now }
{
    let mut wanted = 0;
    for row in rows {
        wanted += row.instances;
    }
    wanted
}
