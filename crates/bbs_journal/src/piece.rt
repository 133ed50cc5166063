//! The bytes of an area, read in large pieces of which the frames are taken one by one.
ghost use Rattle.std.specs.Prelude.{◌≡◌, ◌≤◌, true, is_ok, is_err, length, IfOk};
ghost use Rattle.byte_ports.specs.Cause.{HasCause};
ghost use Rattle.disk_trait.specs.Past.{Image};
ghost use Rattle.disk_trait.specs.Steps.{Goes};
ghost use Rattle.bbs_journal.specs.Pieces.{StartsBy, Covers, Reaches, IsPieceOf, part_of};
ghost use Rattle.disk_trait.specs.Shows.{Shows, Peeks};

use crate::body::LONGEST;
use byte_ports::Failed;
use disk_trait::{Area, Disk};
use std::alloc::{AllocError, Global};

/// How many bytes are asked for at a time.
const SIZE: usize = 65536;

/// The bytes that the last read gave: so many, from a place of the area on.
#[derive(Drop)]
pub(crate) struct Piece {
    room: Vec<u8>,
    from: u64,
    count: usize,
}

impl Piece {
    /// Nothing has been read.
    pub(crate) fn new(alloc: Global, at: u64) -> Result<Piece, AllocError>
        ensures starts { IfOk result (λ p. StartsBy p at) }
        ensures none { IfOk result (λ p. p.count ≡ 0) }
    {
        let room = Vec::from_elem(alloc, 0u8, SIZE)?;
        Ok(Piece {
            room,
            from: at,
            count: 0,
        })
    }

    /// Whether it reaches as far as a frame at this place may, in an area of `len` bytes.
    fn reaches(&self, at: u64, len: u64) -> bool
        requires starts { StartsBy self.now at }
        requires within { at ≤ len }
        ensures { result ≡ true → Covers self.now at × Reaches self.now at len }
    {
        let skipped = at - self.from;
        if skipped > self.count as u64 {
            return false;
        }
        let left = self.count as u64 - skipped;
        left >= LONGEST as u64 || left >= len - at
    }

    /// The bytes at this place, as many as the longest frame has.
    pub(crate) fn part(&self, at: u64, len: u64) -> &[u8]
        requires covers { Covers self.now at }
        requires within { at ≤ len }
        ensures { result.now ≡ part_of self.now at len }
    {
        let skipped = (at - self.from) as usize;
        let count = (self.count - skipped).min(LONGEST).min((len - at) as usize);
        &self.room[skipped..skipped + count]
    }

    /// Reads on from this place, unless what was read reaches far enough. `len` is the area's length.
    pub(crate) fn reach<D: Disk>(
        &mut self,
        disk: &mut D,
        area: Area,
        at: u64,
        len: u64,
    ) -> Result<(), Failed>
        requires starts { StartsBy self.old at }
        requires within { at ≤ len }
        ensures covers { is_ok result ≡ true → Covers self.new at }
        ensures shows { is_ok result ≡ true → (c : Image) → Shows (D.told disk.new) c →
            len ≡ length (c area) → IsPieceOf self.old (c area) →
            Reaches self.new at len × IsPieceOf self.new (c area) }
        ensures does { Goes (D.told disk.old) (D.told disk.new) Peeks }
        ensures cause { HasCause (is_err result) (D.fault_count disk.old) (D.fault_count disk.new) }
    {
        if self.reaches(at, len) {
            return Ok(());
        }
        self.count = disk.read_at(area, at, &mut self.room)?;
        self.from = at;
        Ok(())
    }
}
