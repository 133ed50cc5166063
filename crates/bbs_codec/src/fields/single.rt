//! The values that are one field.
ghost use Rattle.bbs_codec.specs.Format.{number16, number32, number64, truth, name, optional_name, instance, optional_instance};

use crate::fields::Fields;
use diego_names::{Instance, Name};
use wire_fields::{
    FieldFault, put_instance, put_name, put_optional_instance, put_optional_name, put_truth,
    put_u16, put_u32, put_u64, read_instance, read_name, read_optional_instance,
    read_optional_name, read_truth, read_u16, read_u32, read_u64,
};

impl Fields for u16 {
    ghost format = { number16 };

    fn read_at(bytes: &[u8], at: usize) -> Result<(u16, usize), FieldFault> {
        read_u16(bytes, at)
    }

    fn put_at(self, out: &mut [u8], at: usize) -> usize {
        put_u16(out, at, self)
    }

    fn fits(self) {}
}

impl Fields for u32 {
    ghost format = { number32 };

    fn read_at(bytes: &[u8], at: usize) -> Result<(u32, usize), FieldFault> {
        read_u32(bytes, at)
    }

    fn put_at(self, out: &mut [u8], at: usize) -> usize {
        put_u32(out, at, self)
    }

    fn fits(self) {}
}

impl Fields for u64 {
    ghost format = { number64 };

    fn read_at(bytes: &[u8], at: usize) -> Result<(u64, usize), FieldFault> {
        read_u64(bytes, at)
    }

    fn put_at(self, out: &mut [u8], at: usize) -> usize {
        put_u64(out, at, self)
    }

    fn fits(self) {}
}

impl Fields for bool {
    ghost format = { truth };

    fn read_at(bytes: &[u8], at: usize) -> Result<(bool, usize), FieldFault> {
        read_truth(bytes, at)
    }

    fn put_at(self, out: &mut [u8], at: usize) -> usize {
        put_truth(out, at, self)
    }

    fn fits(self) {}
}

impl Fields for Name {
    ghost format = { name };

    fn read_at(bytes: &[u8], at: usize) -> Result<(Name, usize), FieldFault> {
        read_name(bytes, at)
    }

    fn put_at(self, out: &mut [u8], at: usize) -> usize {
        put_name(out, at, self)
    }

    fn fits(self) {
        let _bytes = self.bytes();
    }
}

impl Fields for Option<Name> {
    ghost format = { optional_name };

    fn read_at(bytes: &[u8], at: usize) -> Result<(Option<Name>, usize), FieldFault> {
        read_optional_name(bytes, at)
    }

    fn put_at(self, out: &mut [u8], at: usize) -> usize {
        put_optional_name(out, at, self)
    }

    fn fits(self) {
        if let Some(name) = self {
            name.fits();
        }
    }
}

impl Fields for Instance {
    ghost format = { instance };

    fn read_at(bytes: &[u8], at: usize) -> Result<(Instance, usize), FieldFault> {
        read_instance(bytes, at)
    }

    fn put_at(self, out: &mut [u8], at: usize) -> usize {
        put_instance(out, at, self)
    }

    fn fits(self) {}
}

impl Fields for Option<Instance> {
    ghost format = { optional_instance };

    fn read_at(bytes: &[u8], at: usize) -> Result<(Option<Instance>, usize), FieldFault> {
        read_optional_instance(bytes, at)
    }

    fn put_at(self, out: &mut [u8], at: usize) -> usize {
        put_optional_instance(out, at, self)
    }

    fn fits(self) {}
}
