//! Two and three values, one behind the other.
#![tactic(auto, unfolding(crate::specs::Format::seen_at))]

ghost use Rattle.bbs_codec.specs.Format.{both, three};

use crate::fields::Fields;
use wire_fields::FieldFault;

impl<A: Fields, B: Fields> Fields for (A, B) {
    ghost format = { both A.format B.format };

    fn read_at(bytes: &[u8], at: usize) -> Result<((A, B), usize), FieldFault> {
        let (first, at) = A::read_at(bytes, at)?;
        let (second, at) = B::read_at(bytes, at)?;
        Ok(((first, second), at))
    }

    fn put_at(self, out: &mut [u8], at: usize) -> usize {
        let (first, second) = self;
        let at = first.put_at(out, at);
        second.put_at(out, at)
    }

    fn fits(self) {
        let (first, second) = self;
        first.fits();
        second.fits();
    }
}

impl<A: Fields, B: Fields, C: Fields> Fields for (A, B, C) {
    ghost format = { three A.format B.format C.format };

    fn read_at(bytes: &[u8], at: usize) -> Result<((A, B, C), usize), FieldFault> {
        let (first, at) = A::read_at(bytes, at)?;
        let ((second, third), at) = <(B, C)>::read_at(bytes, at)?;
        Ok(((first, second, third), at))
    }

    fn put_at(self, out: &mut [u8], at: usize) -> usize {
        let (first, second, third) = self;
        let at = first.put_at(out, at);
        (second, third).put_at(out, at)
    }

    fn fits(self) {
        let (first, second, third) = self;
        first.fits();
        second.fits();
        third.fits();
    }
}
