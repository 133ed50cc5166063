//! The log: a journal, and what was put into it since the log began.
ghost use Rattle.std.specs.Prelude.{◌≡◌, ◌<◌, ◌≤◌, ◌^◌, length, is_ok, OnOk, IsOk};
ghost use Rattle.disk_trait.specs.Steps.{Goes};
ghost use Rattle.payload_log.specs.Adds.{GrowsByOne, PassesAdd, TakesAdd};
ghost use Rattle.payload_log.specs.Entries.{stored_in};
ghost use Rattle.payload_log.specs.View.{CanBegin, IsBegun, payloads_in};

use crate::entry::{Entry, entry_of};
use crate::payload::Payload;
use crate::putting::put;
use bbs_journal::{DiskFault, Journal, Loaded};
use diego_names::OutOfMemory;
use disk_trait::Disk;
use std::alloc::Global;
use std::marker::Model;
use std::snapshot::Snapshot;

/// A journal that only grows, for one caller. It never switches to the other area.
#[derive(Drop)]
pub struct PayloadLog<D: Disk, X: Payload> {
    pub(crate) journal: Journal<D>,
    // What was opened when the log began, for clauses alone: it has no bytes.
    pub(crate) head: Snapshot<Vec<u8>>,
    pub(crate) frames: Snapshot<Vec<Vec<u8>>>,
    pub(crate) log: Vec<Entry<X>>,
    // The disk's clock at the end of the call of each entry.
    pub(crate) marks: Vec<u64>,
    // The disk's clock and its count of faults when the log began.
    pub(crate) since: u64,
    pub(crate) faults: u64,
}

impl<D: Disk, X: Payload> Model for PayloadLog<D, X> {
    ghost use Rattle.std.specs.Prelude.{◌-◌, min, vec_len, vec_capacity};
    ghost use Rattle.bbs_journal.specs.Reading.{payloads_of};
    ghost use Rattle.bbs_journal.specs.View.{is_waiting};
    ghost use Rattle.payload_log.specs.Opened.{opened_in};
    ghost use Rattle.payload_log.specs.View.{LogView, IsSound};

    ghost Value = { LogView D X };

    ghost view = { λ l. record {
      disk = l.journal.disk;
      start = opened_in l.journal l.head.value.items (payloads_of l.frames.value.items);
      log = l.log.items;
      marks = l.marks.items;
      since = l.since;
      faults = l.faults;
      waits = is_waiting l.journal.waiting;
      room = min (vec_capacity l.log - vec_len l.log) (vec_capacity l.marks - vec_len l.marks);
    } };

    ghost invariant = { λ l. IsSound X.spelling D.told D.fault_count
        (opened_in l.journal l.head.value.items (payloads_of l.frames.value.items))
        l.log.items l.marks.items l.since l.faults l.journal };
}

impl<D: Disk, X: Payload> PayloadLog<D, X> {
    /// Goes on behind what was loaded. `faults` is the disk's count of faults now. It takes no memory.
    pub fn begin(alloc: Global, loaded: Loaded<D>, faults: u64) -> PayloadLog<D, X>
        requires can { CanBegin D.told loaded }
        requires faults { faults ≡ D.fault_count loaded.journal.disk }
        ensures { IsBegun D.moment loaded faults result }
    {
        let Loaded {
            journal,
            head,
            frames,
            broken: _,
            version: _,
        } = loaded;
        PayloadLog {
            since: journal.clock(),
            faults,
            journal,
            head: Snapshot::of(&head),
            frames: Snapshot::of(&frames),
            log: Vec::new(alloc),
            marks: Vec::new(alloc),
        }
    }

    /// Makes room for one entry more. Where there is no memory for it nothing but the room has changed.
    pub fn reserve(&mut self) -> Result<(), OutOfMemory>
        ensures stays { self.new ≡ record self.old { room = self.new.room } }
        ensures room { OnOk result (1 ≤ self.new.room) }
        ensures succeeds { 1 ≤ self.old.room → IsOk result }
        ensures kept { self.old.room ≤ self.new.room }
    {
        self.log.reserve(1)?;
        self.marks.reserve(1)?;
        Ok(())
    }

    /// Puts a payload, by the four device calls of an append. Two more come first where an earlier
    /// fault left a gate to be mended, and two last where the append failed at its own gate. It takes
    /// no memory. At `DiskFault` the payload is in doubt: where nothing waits no later stop shows it,
    /// else one may, until the next is acknowledged.
    pub fn add(&mut self, payload: &X) -> Result<(), DiskFault>
        requires room { 1 ≤ self.old.room }
        requires few { length (payloads_in X.spelling self.old) < 2 ^ 48 }
        ensures grows { GrowsByOne (is_ok result) payload.entry.now (D.moment self.new.disk)
            self.old self.new }
        ensures does { Goes (D.told self.old.disk) (D.told self.new.disk)
            (PassesAdd self.old.waits (is_ok result) self.new.waits self.old.start
            (stored_in X.spelling self.old.log) (X.spelling payload.entry.now)) }
        ensures takes { TakesAdd D.moment D.fault_count (is_ok result) self.old self.new }
    {
        let mut bytes = [0u8; 512];
        let len = payload.put(&mut bytes);
        let stored = put(&mut self.journal, &bytes[..len]);
        let entry = entry_of(stored.is_ok(), payload);
        let mark = self.journal.clock();
        self.log.push_reserved(entry);
        self.marks.push_reserved(mark);
        stored
    }
}
