//! The rows as a round read them last. They are copied again only if the log has grown since.
ghost use Rattle.std.specs.Prelude.{◌≡◌, IfOk, OnOk};
ghost use Rattle.bbs_model.specs.PortView.{Looks};
ghost use Rattle.converge_round.specs.SeenRows.{AreSeen, WereSeen};

use bbs_model::{Port, Rows};
use diego_names::OutOfMemory;
use std::alloc::Global;

/// The rows, and a length that the log had reached before they were read. If the log is no longer than that, then nobody has
/// changed them.
#[derive(Debug, Drop)]
pub(crate) struct SeenRows {
    pub(crate) place: u64,
    pub(crate) rows: Rows,
}

impl SeenRows {
    /// Reads the rows. The length of the log is asked first: what others do in between makes the next `renew` read again.
    pub fn read<P: Port>(alloc: Global, port: &mut P) -> Result<SeenRows, OutOfMemory>
        ensures keeps { P.keeps port.old port.new }
        ensures number { P.number port.new ≡ P.number port.old }
        ensures looks { Looks (P.view port.old) (P.view port.new) }
        ensures seen { IfOk result (AreSeen (P.view port.new)) }
    {
        let place = port.place();
        match port.rows(alloc) {
            Err(want) => Err(want),
            Ok(rows) => Ok(SeenRows { place, rows }),
        }
    }

    /// Makes them the rows of now.
    pub fn renew<P: Port>(&mut self, alloc: Global, port: &mut P) -> Result<(), OutOfMemory>
        requires { WereSeen (P.view port.old) self.old }
        ensures keeps { P.keeps port.old port.new }
        ensures number { P.number port.new ≡ P.number port.old }
        ensures looks { Looks (P.view port.old) (P.view port.new) }
        ensures seen { OnOk result (AreSeen (P.view port.new) self.new) }
    {
        if port.place() == self.place {
            return Ok(());
        }
        match SeenRows::read(alloc, port) {
            Err(want) => Err(want),
            Ok(fresh) => {
                *self = fresh;
                Ok(())
            }
        }
    }
}
