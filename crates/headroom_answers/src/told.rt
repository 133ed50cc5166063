//! What is told of a dump.
ghost use Rattle.std.specs.Prelude.{◌≡◌, IfOk};
ghost use Rattle.dump_reader.specs.Facts.{IsDump};
ghost use Rattle.headroom_answers.specs.Findings.{findings_of, told_of};
ghost use Rattle.what_if.specs.Sites.{IsSite};

use crate::answers::all_found;
use diego_names::{List, OutOfMemory};
use dump_reader::Dump;
use forecast_records::{Found, Notes};
use site_answers::notes_of;
use std::alloc::Global;
use what_if::{Site, proxy_of};

/// What is told of a dump and of all that is asked about it.
#[derive(Debug, Drop)]
pub struct Told {
    /// What the dump tells that is modelled otherwise.
    pub notes: Notes,
    /// The answer to each question, in the order of their lines.
    pub found: List<Found>,
}

/// The answer to each question of a dump, on its site.
pub fn findings(alloc: Global, site: &Site, dump: &Dump) -> Result<List<Found>, OutOfMemory>
    requires { IsSite site.now }
    ensures { IfOk result (λ found. found ≡ findings_of site.now dump.now) }
{
    all_found(alloc, site, proxy_of(dump), dump.questions.items())
}

/// What is told of a dump. It costs the making of one site, and what the questions do, one after
/// another.
pub fn tell(alloc: Global, dump: &Dump) -> Result<Told, OutOfMemory>
    requires { IsDump dump.now }
    ensures { IfOk result (λ told. told ≡ told_of dump.now) }
{
    let notes = notes_of(alloc, dump)?;
    let site = Site::of(alloc, dump)?;
    let found = findings(alloc, &site, dump)?;
    Ok(Told { notes, found })
}
