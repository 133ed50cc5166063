use super::*;
use crate::two_files::write_to;
use byte_ports::Failed;
use disk_trait::{Area, Disk};
use std::fs::OpenOptions;
use std::marker::Brand;
use std::test::Fail;

type Tried = FileDisk<RealCalls<HostRuntime, Brand>>;

fn disk(rt: &HostRuntime, a: &str, b: &str) -> Result<Tried, Fail> {
    let a = String::from_str(rt.alloc(), a)?;
    let b = String::from_str(rt.alloc(), b)?;
    Ok(FileDisk::new(RealCalls::new(rt.clone()?, a, b)))
}

// A folder of the test's own, which isn't there yet.
pub(crate) fn folder(rt: &HostRuntime, test: &str) -> Result<String, Fail> {
    let all = std::env::temp_dir(rt)?;
    let id = std::process::id(rt.process());
    Ok(format!(in rt.alloc(); "{}/real_files_{id}_{test}", all.as_str())?)
}

#[test]
fn two_files_keep_what_is_written(rt: HostRuntime) -> Result<(), Fail> {
    let alloc = rt.alloc();
    let folder = folder(&rt, "keep")?;
    std::fs::create_dir(&rt, folder.as_str())?;
    let a = format!(in alloc; "{}/a", folder.as_str())?;
    let b = format!(in alloc; "{}/b", folder.as_str())?;

    let mut first = disk(&rt, a.as_str(), b.as_str())?;
    assert_eq!(rt; first.len(Area::A), Ok(0));
    assert!(rt; first.write_at(Area::A, 0, b"xy").is_ok());
    assert!(rt; first.write_at(Area::A, 0, b"abde").is_ok());
    assert!(rt; first.sync(Area::A).is_ok());
    assert!(rt; first.write_at(Area::B, 0, b"f").is_ok());
    assert!(rt; first.sync(Area::B).is_ok());
    assert_eq!(rt; first.clock(), 6);
    assert_eq!(rt; first.faults(), 0);
    drop(first);

    let mut second = disk(&rt, a.as_str(), b.as_str())?;
    let mut room = *b"......";
    assert_eq!(rt; second.read_at(Area::A, 1, &mut room), Ok(3));
    assert_eq!(rt; room.as_slice(), b"bde...".as_slice());
    assert_eq!(rt; second.len(Area::B), Ok(1));

    // Each area is the file of its own name.
    let in_a = std::fs::read(&rt, a.as_str())?;
    let in_b = std::fs::read(&rt, b.as_str())?;
    assert_eq!(rt; in_a.as_slice(), b"abde".as_slice());
    assert_eq!(rt; in_b.as_slice(), b"f".as_slice());
    std::fs::remove_dir_all(&rt, folder.as_str())?;
    Ok(())
}

#[test]
fn a_file_has_one_disk_at_a_time(rt: HostRuntime) -> Result<(), Fail> {
    let alloc = rt.alloc();
    let folder = folder(&rt, "lock")?;
    std::fs::create_dir(&rt, folder.as_str())?;
    let a = format!(in alloc; "{}/a", folder.as_str())?;
    let b = format!(in alloc; "{}/b", folder.as_str())?;
    let mut first = disk(&rt, a.as_str(), b.as_str())?;
    let mut second = disk(&rt, a.as_str(), b.as_str())?;
    assert_eq!(rt; first.len(Area::A), Ok(0));
    assert_eq!(rt; second.len(Area::B), Err(Failed));
    drop(first);
    assert_eq!(rt; second.len(Area::B), Ok(0));
    drop(second);

    // Nor have two areas one file.
    let mut twice = disk(&rt, a.as_str(), a.as_str())?;
    assert_eq!(rt; twice.len(Area::A), Err(Failed));
    std::fs::remove_dir_all(&rt, folder.as_str())?;
    Ok(())
}

#[test]
fn what_is_no_ordinary_file_is_a_fault(rt: HostRuntime) -> Result<(), Fail> {
    let table: [&str; 5] = ["/dev/full", "/dev/null", "/", "no_such_folder/a", ""];
    for name in table {
        let mut disk = disk(&rt, name, "no_such_folder/b")?;
        assert_eq!(rt; disk.len(Area::A), Err(Failed), "{name}");
        assert_eq!(rt; disk.sync(Area::B), Err(Failed), "{name}");
        assert_eq!(rt; disk.clock(), 2);
        assert_eq!(rt; disk.faults(), 2);
    }
    Ok(())
}

#[test]
fn a_link_to_nothing_makes_its_file(rt: HostRuntime) -> Result<(), Fail> {
    let alloc = rt.alloc();
    let folder = folder(&rt, "link")?;
    std::fs::create_dir(&rt, folder.as_str())?;
    let a = format!(in alloc; "{}/a", folder.as_str())?;
    let b = format!(in alloc; "{}/b", folder.as_str())?;
    let there = format!(in alloc; "{}/there", folder.as_str())?;
    std::os::unix::fs::symlink(&rt, there.as_str(), a.as_str())?;
    let mut disk = disk(&rt, a.as_str(), b.as_str())?;
    assert!(rt; disk.write_at(Area::A, 0, b"x").is_ok());
    assert!(rt; disk.sync(Area::A).is_ok());
    assert_eq!(rt;
        std::fs::read(&rt, there.as_str())?.as_slice(),
        b"x".as_slice()
    );
    std::fs::remove_dir_all(&rt, folder.as_str())?;
    Ok(())
}

#[test]
fn a_folder_that_was_removed_fails_a_sync(rt: HostRuntime) -> Result<(), Fail> {
    let alloc = rt.alloc();
    let folder = folder(&rt, "gone")?;
    std::fs::create_dir(&rt, folder.as_str())?;
    let a = format!(in alloc; "{}/a", folder.as_str())?;
    let b = format!(in alloc; "{}/b", folder.as_str())?;
    let mut disk = disk(&rt, a.as_str(), b.as_str())?;
    assert!(rt; disk.write_at(Area::A, 0, b"x").is_ok());
    std::fs::remove_dir_all(&rt, folder.as_str())?;
    assert_eq!(rt; disk.sync(Area::A), Err(Failed));
    assert_eq!(rt; disk.faults(), 1);
    Ok(())
}

#[test]
fn a_full_device_refuses_a_write(rt: HostRuntime) -> Result<(), Fail> {
    let full = OpenOptions::new().write(true).open(&rt, "/dev/full")?;
    assert!(rt; write_to(&full, 0, b"x").is_err());
    let null = OpenOptions::new().write(true).open(&rt, "/dev/null")?;
    assert!(rt; write_to(&null, 0, b"x").is_ok());
    assert!(rt; write_to(&null, u64::MAX, b"x").is_err());
    assert!(rt; null.sync_data().is_err());
    Ok(())
}
