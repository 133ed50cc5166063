//! What becomes of a disk if somebody moves, removes or replaces its files while it has them open.
use super::*;
use crate::tests::folder;
use disk_trait::{Area, Disk};
use std::marker::Brand;
use std::test::Fail;

type Lent<'a> = FileDisk<RealCalls<&'a HostRuntime, Brand>>;

#[derive(Clone, Copy)]
enum Way {
    Move,
    MoveTheFolder,
    Remove,
    Replace,
    Exchange,
}

// A board's files are board/a and board/b of a folder of the test's own.
fn path(rt: &HostRuntime, folder: &str, name: &str) -> Result<String, Fail> {
    Ok(format!(in rt.alloc(); "{folder}/{name}")?)
}

fn renames(rt: &HostRuntime, folder: &str, from: &str, to: &str) -> Result<(), Fail> {
    let from = path(rt, folder, from)?;
    let to = path(rt, folder, to)?;
    std::fs::rename(rt, from.as_str(), to.as_str())?;
    Ok(())
}

fn makes(rt: &HostRuntime, folder: &str, name: &str) -> Result<(), Fail> {
    let name = path(rt, folder, name)?;
    std::fs::write(rt, name.as_str(), b"12345")?;
    Ok(())
}

fn removes(rt: &HostRuntime, folder: &str, name: &str) -> Result<(), Fail> {
    let name = path(rt, folder, name)?;
    std::fs::remove_file(rt, name.as_str())?;
    Ok(())
}

fn harm(rt: &HostRuntime, folder: &str, way: Way) -> Result<(), Fail> {
    match way {
        Way::Move => renames(rt, folder, "board/b", "free"),
        Way::MoveTheFolder => renames(rt, folder, "board", "there"),
        Way::Remove => removes(rt, folder, "board/b"),
        Way::Replace => {
            makes(rt, folder, "free")?;
            renames(rt, folder, "free", "board/b")
        }
        Way::Exchange => {
            renames(rt, folder, "board/a", "free")?;
            renames(rt, folder, "board/b", "board/a")?;
            renames(rt, folder, "free", "board/b")
        }
    }
}

// Gives each file its name back, where that is still to be had.
fn mend(rt: &HostRuntime, folder: &str, way: Way) -> Result<(), Fail> {
    match way {
        Way::Move => renames(rt, folder, "free", "board/b"),
        Way::MoveTheFolder => renames(rt, folder, "there", "board"),
        Way::Remove | Way::Replace => Ok(()),
        Way::Exchange => harm(rt, folder, way),
    }
}

fn stores(disk: &mut Lent<'_>, area: Area) -> bool {
    disk.write_at(area, 0, b"x").is_ok() && disk.sync(area).is_ok()
}

// Nothing is answered any more.
fn stays_refused(disk: &mut Lent<'_>) -> bool {
    let mut room = *b".";
    let len = disk.len(Area::A).is_err();
    let read = disk.read_at(Area::A, 0, &mut room).is_err();
    let write = disk.write_at(Area::A, 0, b"z").is_err();
    let sync = disk.sync(Area::A).is_err();
    len && read && write && sync && disk.sync(Area::B).is_err()
}

// The file that isn't written to is harmed as well as the one that is.
fn sees(rt: &HostRuntime, folder: &str, disk: &mut Lent<'_>, way: Way) -> Result<bool, Fail> {
    let stored = stores(disk, Area::A) && stores(disk, Area::B);
    harm(rt, folder, way)?;
    let written = disk.write_at(Area::A, 0, b"y").is_ok();
    let refused = disk.sync(Area::A).is_err();
    mend(rt, folder, way)?;
    Ok(stored && written && refused && stays_refused(disk))
}

fn disk_sees(rt: &HostRuntime, folder: &str, a: String, b: String, way: Way) -> Result<bool, Fail> {
    let mut disk = FileDisk::new(RealCalls::<&HostRuntime, Brand>::new(rt, a, b));
    sees(rt, folder, &mut disk, way)
}

fn is_seen(rt: &HostRuntime, folder: &str, way: Way) -> Result<bool, Fail> {
    let a = path(rt, folder, "board/a")?;
    let b = path(rt, folder, "board/b")?;
    disk_sees(rt, folder, a, b, way)
}

fn in_own_folder(rt: &HostRuntime, test: &str, way: Way) -> Result<bool, Fail> {
    let folder = folder(rt, test)?;
    let board = path(rt, folder.as_str(), "board")?;
    std::fs::create_dir_all(rt, board.as_str())?;
    let seen = is_seen(rt, folder.as_str(), way)?;
    std::fs::remove_dir_all(rt, folder.as_str())?;
    Ok(seen)
}

#[test]
fn a_file_that_is_moved_fails_the_next_sync(rt: HostRuntime) -> Result<(), Fail> {
    assert!(rt; in_own_folder(&rt, "move", Way::Move)?);
    assert!(rt; in_own_folder(&rt, "move_folder", Way::MoveTheFolder)?);
    assert!(rt; in_own_folder(&rt, "remove", Way::Remove)?);
    assert!(rt; in_own_folder(&rt, "replace", Way::Replace)?);
    assert!(rt; in_own_folder(&rt, "exchange", Way::Exchange)?);
    Ok(())
}

// Another file in the place of the open one has another length.
fn keeps_its_length(rt: &HostRuntime, folder: &str, disk: &mut Lent<'_>) -> Result<bool, Fail> {
    let stored = stores(disk, Area::A);
    renames(rt, folder, "a", "free")?;
    makes(rt, folder, "a")?;
    Ok(stored && disk.len(Area::A) == Ok(1))
}

fn disk_keeps_its_length(
    rt: &HostRuntime,
    folder: &str,
    a: String,
    b: String,
) -> Result<bool, Fail> {
    let mut disk = FileDisk::new(RealCalls::<&HostRuntime, Brand>::new(rt, a, b));
    keeps_its_length(rt, folder, &mut disk)
}

#[test]
fn a_length_is_that_of_the_open_file(rt: HostRuntime) -> Result<(), Fail> {
    let folder = folder(&rt, "length")?;
    std::fs::create_dir(&rt, folder.as_str())?;
    let a = path(&rt, folder.as_str(), "a")?;
    let b = path(&rt, folder.as_str(), "b")?;
    assert!(rt; disk_keeps_its_length(&rt, folder.as_str(), a, b)?);
    std::fs::remove_dir_all(&rt, folder.as_str())?;
    Ok(())
}
