//! The records that are written field by field.
#![tactic(auto, unfolding(crate::specs::Format::seen_at))]

ghost use Rattle.std.specs.Prelude.{◌≡◌};
ghost use Rattle.bbs_codec.specs.Formats.{key, amounts, desired, desired_parts};

use crate::fields::Fields;
use cell_records::Amounts;
use diego_names::{Key, Name};
use lrp_records::Desired;
use wire_fields::FieldFault;

impl Fields for Key {
    ghost format = { key };

    fn read_at(bytes: &[u8], at: usize) -> Result<(Key, usize), FieldFault> {
        let (process, at) = Name::read_at(bytes, at)?;
        let (index, at) = u32::read_at(bytes, at)?;
        Ok((Key { process, index }, at))
    }

    fn put_at(self, out: &mut [u8], at: usize) -> usize {
        (self.process, self.index).put_at(out, at)
    }

    fn fits(self) {
        (self.process, self.index).fits();
    }
}

impl Fields for Amounts {
    ghost format = { amounts };

    fn read_at(bytes: &[u8], at: usize) -> Result<(Amounts, usize), FieldFault> {
        let ((memory, disk, containers), at) = <(u32, u32, u32)>::read_at(bytes, at)?;
        let amounts = Amounts {
            memory,
            disk,
            containers,
        };
        Ok((amounts, at))
    }

    fn put_at(self, out: &mut [u8], at: usize) -> usize {
        (self.memory, self.disk, self.containers).put_at(out, at)
    }

    fn fits(self) {
        (self.memory, self.disk, self.containers).fits();
    }
}

/// The names of a desired row, its sizes, and its tag and route with the port.
type DesiredParts = (
    (Name, Name),
    (u32, u32, u32),
    (Option<Name>, Option<Name>, u16),
);

fn desired_parts(row: Desired) -> DesiredParts
    ensures { result ≡ desired_parts row }
{
    (
        (row.process, row.domain),
        (row.instances, row.memory, row.disk),
        (row.tag, row.route, row.port),
    )
}

impl Fields for Desired {
    ghost format = { desired };

    fn read_at(bytes: &[u8], at: usize) -> Result<(Desired, usize), FieldFault> {
        let (parts, at) = DesiredParts::read_at(bytes, at)?;
        let ((process, domain), (instances, memory, disk), (tag, route, port)) = parts;
        let row = Desired {
            process,
            domain,
            instances,
            memory,
            disk,
            tag,
            route,
            port,
        };
        Ok((row, at))
    }

    fn put_at(self, out: &mut [u8], at: usize) -> usize {
        desired_parts(self).put_at(out, at)
    }

    fn fits(self) {
        desired_parts(self).fits();
    }
}
