//! Which area holds the journal.
ghost use Rattle.std.specs.Prelude.{◌≡◌, false, IfErr};
ghost use Rattle.bbs_journal.specs.Opening.{active_of, newer};
ghost use Rattle.bbs_journal.specs.Header.{gate_of};
ghost use Rattle.bbs_journal.specs.LoadFaults.{is_load_disk_fault};

use crate::header::Header;
use crate::{LoadFault, OtherGate};
use disk_trait::Area;

/// The place of the generation in an area.
pub(crate) const GENERATION_AT: u64 = 11;

/// The area that is read, its version and its generation.
#[derive(Clone, Copy, Debug)]
pub(crate) struct Active {
    pub(crate) area: Area,
    pub(crate) version: u16,
    pub(crate) generation: u64,
}

/// Both areas are open, and this is what their headers tell.
fn choose_newer(a: Active, b: Active) -> Result<Active, LoadFault>
    ensures value { result ≡ newer a b }
    ensures told { IfErr result (λ e. is_load_disk_fault e ≡ false) }
{
    if a.generation == b.generation {
        return Err(LoadFault::Damaged {
            area: Area::B,
            at: GENERATION_AT,
        });
    }
    if b.generation < a.generation {
        return Ok(a);
    }
    Ok(b)
}

/// These are the headers of both areas.
pub(crate) fn choose(a: Header, b: Header) -> Result<Active, LoadFault>
    ensures value { result ≡ active_of a b }
    ensures told { IfErr result (λ e. is_load_disk_fault e ≡ false) }
{
    match a {
        Header::Foreign => Err(LoadFault::NotABoard { area: Area::A }),
        Header::Closed(_) => match b {
            Header::Foreign => Err(LoadFault::NotABoard { area: Area::B }),
            Header::Closed(_) => Err(LoadFault::NotABoard { area: Area::A }),
            Header::Cut(at) => Err(LoadFault::Damaged { area: Area::B, at }),
            Header::Open {
                version,
                generation,
            } => Ok(Active {
                area: Area::B,
                version,
                generation,
            }),
        },
        Header::Cut(at) => match b {
            Header::Foreign => Err(LoadFault::NotABoard { area: Area::B }),
            _ => Err(LoadFault::Damaged { area: Area::A, at }),
        },
        Header::Open {
            version,
            generation,
        } => match b {
            Header::Foreign => Err(LoadFault::NotABoard { area: Area::B }),
            Header::Closed(_) => Ok(Active {
                area: Area::A,
                version,
                generation,
            }),
            Header::Cut(at) => Err(LoadFault::Damaged { area: Area::B, at }),
            Header::Open {
                version: other_version,
                generation: other,
            } => choose_newer(
                Active {
                    area: Area::A,
                    version,
                    generation,
                },
                Active {
                    area: Area::B,
                    version: other_version,
                    generation: other,
                },
            ),
        },
    }
}

/// What such a header tells of its gate.
pub(crate) fn gate_in(header: Header) -> OtherGate
    ensures { result ≡ gate_of header }
{
    match header {
        Header::Closed(gate) => gate,
        _ => OtherGate::Loose,
    }
}
