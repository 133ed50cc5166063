//! Looking for a journal on a disk that stays as it is.
ghost use Rattle.std.specs.Prelude.{◌≡◌, ◌+◌, ◌<◌, ◌≤◌, IfOk, IfErr, length, take, drop};
ghost use Rattle.byte_ports.specs.Cause.{HasCause};
ghost use Rattle.disk_trait.specs.Past.{Image};
ghost use Rattle.disk_trait.specs.Steps.{Goes};
ghost use Rattle.bbs_journal.specs.Header.{IsVersion};
ghost use Rattle.bbs_journal.specs.Opening.{headed};
ghost use Rattle.bbs_journal.specs.LoadFaults.{is_load_disk_fault, IsFree, Fails, failed};
ghost use Rattle.bbs_journal.specs.NotLoaded.{IsWhy, IsCutAt, is_disk_why};
ghost use Rattle.disk_trait.specs.Shows.{Shows, Peeks};
ghost use Rattle.bbs_journal.specs.Found.{IsChosen, IsSized, IsFoundIn, IsCounted};

use crate::active::{Active, choose, gate_in};
use crate::frame_list::read_frames;
use crate::head::check_head;
use crate::header::read_header;
use crate::look::{Front, fill, look, measure};
use crate::place::Place;
use crate::{LoadFault, LongHead, NotLoaded, OtherGate};
use disk_trait::{Area, Disk};
use std::alloc::Global;

/// The area that is read, its first bytes, and what is known of the gate of the other area.
#[derive(Clone, Copy)]
pub(crate) struct Chosen {
    pub(crate) active: Active,
    pub(crate) front: Front,
    pub(crate) gate: OtherGate,
}

/// What a disk holds, with the place of the defect that ends the frames, if one does.
#[derive(Drop)]
pub(crate) struct Found {
    pub(crate) place: Place,
    pub(crate) head: Vec<u8>,
    pub(crate) payloads: Vec<Vec<u8>>,
    pub(crate) broken: Option<u64>,
}

fn choose_area<D: Disk>(disk: &mut D) -> Result<Chosen, LoadFault>
    ensures shows { IfOk result (λ x. (c : Image) → Shows (D.told disk.new) c → IsChosen c x) }
    ensures read { IfOk result (λ x. IsVersion x.active.version) }
    ensures fault { IfErr result (λ e. (c : Image) → Shows (D.told disk.new) c →
        Fails e (headed c)) }
    ensures does { Goes (D.told disk.old) (D.told disk.new) Peeks }
    ensures cause { HasCause (failed is_load_disk_fault result)
        (D.fault_count disk.old) (D.fault_count disk.new) }
{
    let a = look(disk, Area::A)?;
    let b = look(disk, Area::B)?;
    let header_a = read_header(a.bytes());
    let header_b = read_header(b.bytes());
    match choose(header_a, header_b) {
        Err(fault) => Err(fault),
        Ok(active) => match active.area {
            Area::A => Ok(Chosen {
                active,
                front: a,
                gate: gate_in(header_b),
            }),
            Area::B => Ok(Chosen {
                active,
                front: b,
                gate: gate_in(header_a),
            }),
        },
    }
}

fn read_head<D: Disk>(
    alloc: Global,
    disk: &mut D,
    area: Area,
    size: u32,
) -> Result<Vec<u8>, LoadFault>
    ensures len { IfOk result (λ v. length v.items ≡ size) }
    ensures shows { IfOk result (λ v. (c : Image) → Shows (D.told disk.new) c →
        23 + size ≤ length (c area) → v.items ≡ take size (drop 23 (c area))) }
    ensures free { IfErr result IsFree }
    ensures does { Goes (D.told disk.old) (D.told disk.new) Peeks }
    ensures cause { HasCause (failed is_load_disk_fault result)
        (D.fault_count disk.old) (D.fault_count disk.new) }
{
    let mut head = Vec::from_elem(alloc, 0u8, size as usize)?;
    fill(disk, area, 23, &mut head)?;
    Ok(head)
}

/// The area has `len` bytes, and its head has `size`.
fn read_sized<D: Disk>(
    alloc: Global,
    disk: &mut D,
    chosen: Chosen,
    len: u64,
    size: u32,
) -> Result<Found, LoadFault>
    requires fits { 23 + size ≤ len }
    requires read { IsVersion chosen.active.version }
    ensures shows { IfOk result (λ f. (c : Image) → Shows (D.told disk.new) c →
        IsChosen c chosen → IsSized c chosen.active len size → IsFoundIn c f) }
    ensures counts { IfOk result IsCounted }
    ensures head { IfOk result (λ f. length f.head.items ≡ size) }
    ensures free { IfErr result IsFree }
    ensures does { Goes (D.told disk.old) (D.told disk.new) Peeks }
    ensures cause { HasCause (failed is_load_disk_fault result)
        (D.fault_count disk.old) (D.fault_count disk.new) }
{
    let area = chosen.active.area;
    let head = read_head(alloc, disk, area, size)?;
    let frames = read_frames(alloc, disk, area, 23 + size as u64, len)?;
    let place = Place {
        area,
        version: chosen.active.version,
        generation: chosen.active.generation,
        end: frames.end,
        frames: frames.payloads.len() as u64,
        broken: frames.broken.is_some(),
        gate: chosen.gate,
    };
    Ok(Found {
        place,
        head,
        payloads: frames.payloads,
        broken: frames.broken,
    })
}

/// The first `most` bytes of a head, which has `size` and is longer. Its area has `len` bytes.
fn cut_head<D: Disk>(
    alloc: Global,
    disk: &mut D,
    chosen: Chosen,
    len: u64,
    size: u32,
    most: u32,
) -> NotLoaded
    requires fits { 23 + size ≤ len }
    requires longer { most < size }
    requires read { IsVersion chosen.active.version }
    ensures why { (c : Image) → Shows (D.told disk.new) c →
        IsChosen c chosen → IsSized c chosen.active len size → IsWhy result c }
    ensures cut { IsCutAt most result }
    ensures does { Goes (D.told disk.old) (D.told disk.new) Peeks }
    ensures cause { HasCause (is_disk_why result) (D.fault_count disk.old) (D.fault_count disk.new) }
{
    match read_head(alloc, disk, chosen.active.area, most) {
        Ok(begin) => NotLoaded::LongHead(LongHead {
            area: chosen.active.area,
            version: chosen.active.version,
            begin,
        }),
        Err(fault) => NotLoaded::Fault(fault),
    }
}

fn read_area<D: Disk>(
    alloc: Global,
    disk: &mut D,
    chosen: Chosen,
    most: u32,
) -> Result<Found, NotLoaded>
    requires { IsVersion chosen.active.version }
    ensures shows { IfOk result (λ f. (c : Image) → Shows (D.told disk.new) c →
        IsChosen c chosen → IsFoundIn c f) }
    ensures counts { IfOk result IsCounted }
    ensures short { IfOk result (λ f. length f.head.items ≤ most) }
    ensures why { IfErr result (λ e. (c : Image) → Shows (D.told disk.new) c →
        IsChosen c chosen → IsWhy e c) }
    ensures cut { IfErr result (IsCutAt most) }
    ensures does { Goes (D.told disk.old) (D.told disk.new) Peeks }
    ensures cause { HasCause (failed is_disk_why result)
        (D.fault_count disk.old) (D.fault_count disk.new) }
{
    let len = measure(disk, chosen.active.area)?;
    match check_head(chosen.active, chosen.front.bytes(), len) {
        Err(fault) => Err(NotLoaded::Fault(fault)),
        Ok(size) => {
            if most < size {
                return Err(cut_head(alloc, disk, chosen, len, size, most));
            }
            Ok(read_sized(alloc, disk, chosen, len, size)?)
        }
    }
}

/// Both areas' first bytes tell which of them is read; then come its head, where it has `most` bytes at
/// the most, and all its frames.
pub(crate) fn find<D: Disk>(alloc: Global, disk: &mut D, most: u32) -> Result<Found, NotLoaded>
    ensures shows { IfOk result (λ f. (c : Image) → Shows (D.told disk.new) c → IsFoundIn c f) }
    ensures counts { IfOk result IsCounted }
    ensures short { IfOk result (λ f. length f.head.items ≤ most) }
    ensures why { IfErr result (λ e. (c : Image) → Shows (D.told disk.new) c → IsWhy e c) }
    ensures cut { IfErr result (IsCutAt most) }
    ensures does { Goes (D.told disk.old) (D.told disk.new) Peeks }
    ensures cause { HasCause (failed is_disk_why result)
        (D.fault_count disk.old) (D.fault_count disk.new) }
{
    let chosen = choose_area(disk)?;
    read_area(alloc, disk, chosen, most)
}
