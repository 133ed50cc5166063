// Two files of the system, opened at their first use, one line for a call of the system.
ghost use Rattle.std.specs.Prelude.{◌≡◌, ◌<◌, ◌≤◌, ◌^◌, true, false, not, length, is_ok, is_some, IfOk, OnOk};

use crate::folders::{leads_to, sync_folders};
use crate::identity::Identity;
use crate::locked::LockedFile;
use disk_trait::Area;
use std::fs::{File, OpenOptions};
use std::io;
use std::io::ErrorKind;
use std::os::fd::AsRawFd;
use std::os::unix::fs::FileExt;
use std::rt::Files;

/// The system refuses to read or write from a further place on.
const LAST_PLACE: u64 = (1 << 63) - 1;

/// The numbers of the standard streams are 0 to this one.
const LAST_STREAM: i32 = 2;

#[derive(Drop)]
struct Opened {
    a: LockedFile,
    b: LockedFile,
}

#[derive(Drop)]
pub(crate) struct TwoFiles<R: Files<File = File> + AllocGlobal + Drop> {
    rt: R,
    a: String,
    b: String,
    opened: Option<Opened>,
    /// A name was found that doesn't lead to its open file any more. Then no call is made again.
    moved: bool,
}

impl<R: Files<File = File> + AllocGlobal + Drop> TwoFiles<R> {
    pub(crate) fn new(rt: R, a: String, b: String) -> TwoFiles<R> {
        TwoFiles {
            rt,
            a,
            b,
            opened: None,
            moved: false,
        }
    }

    pub(crate) fn len(&mut self, area: Area) -> io::Result<u64>
        ensures kept { is_some self.old.opened ≡ true → is_some self.new.opened ≡ true }
        ensures moved { self.old.moved ≡ true
            → (is_ok result ≡ false) × (self.new.moved ≡ true) }
    {
        self.open()?;
        Ok(self.file(area)?.metadata()?.len())
    }

    pub(crate) fn read_some(&mut self, area: Area, at: u64, room: &mut [u8]) -> io::Result<usize>
        ensures kept { is_some self.old.opened ≡ true → is_some self.new.opened ≡ true }
        ensures moved { self.old.moved ≡ true
            → (is_ok result ≡ false) × (self.new.moved ≡ true) }
        ensures count { IfOk result (λ n. (n ≤ length room.old) × (at < 2 ^ 63)) }
    {
        self.open()?;
        read_from(self.file(area)?, at, room)
    }

    pub(crate) fn write_some(&mut self, area: Area, at: u64, bytes: &[u8]) -> io::Result<usize>
        ensures kept { is_some self.old.opened ≡ true → is_some self.new.opened ≡ true }
        ensures moved { self.old.moved ≡ true
            → (is_ok result ≡ false) × (self.new.moved ≡ true) }
        ensures count { IfOk result (λ n. (0 < n) × (n ≤ length bytes.now) × (at < 2 ^ 63)) }
    {
        self.open()?;
        write_to(self.file(area)?, at, bytes)
    }

    /// The folder is that of the file itself where the name is a link, and the one above it is synced
    /// as well.
    pub(crate) fn sync_name(&mut self, area: Area) -> io::Result<()>
        ensures kept { is_some self.old.opened ≡ true → is_some self.new.opened ≡ true }
        ensures moved { self.old.moved ≡ true
            → (is_ok result ≡ false) × (self.new.moved ≡ true) }
    {
        self.open()?;
        sync_folders(&self.rt, self.name(area))
    }

    /// It is done only if both names then still lead to the open files.
    pub(crate) fn sync_data(&mut self, area: Area) -> io::Result<()>
        ensures kept { is_some self.old.opened ≡ true → is_some self.new.opened ≡ true }
        ensures moved { self.old.moved ≡ true
            → (is_ok result ≡ false) × (self.new.moved ≡ true) }
    {
        self.open()?;
        self.file(area)?.sync_data()?;
        self.find_again()
    }

    // What is written to a file that was moved away or replaced is not on the board. So the sync that
    // was just made doesn't count, and no call is made behind it.
    fn find_again(&mut self) -> io::Result<()>
        ensures kept { is_some self.old.opened ≡ true → is_some self.new.opened ≡ true }
        ensures moved { self.new.moved ≡ not (is_ok result) }
    {
        let found = self.leads(Area::A) && self.leads(Area::B);
        self.moved = !found;
        if !found {
            return Err(ErrorKind::NotFound.into());
        }
        Ok(())
    }

    fn leads(&self, area: Area) -> bool {
        match (&self.opened, area) {
            (Some(opened), Area::A) => leads_to(&self.rt, self.a.as_str(), opened.a.identity()),
            (Some(opened), Area::B) => leads_to(&self.rt, self.b.as_str(), opened.b.identity()),
            (None, _) => false,
        }
    }

    fn name(&self, area: Area) -> &str {
        match area {
            Area::A => self.a.as_str(),
            Area::B => self.b.as_str(),
        }
    }

    // Opens and locks both files, where that wasn't done yet. From then on both stay open, and their
    // locks had.
    fn open(&mut self) -> io::Result<()>
        ensures kept { is_some self.old.opened ≡ true → is_some self.new.opened ≡ true }
        ensures moved { self.old.moved ≡ true
            → (is_ok result ≡ false) × (self.new.moved ≡ true) }
        ensures opened { OnOk result (is_some self.new.opened ≡ true) }
    {
        if self.moved {
            return Err(ErrorKind::NotFound.into());
        }
        if self.opened.is_none() {
            let a = open_locked(&self.rt, self.a.as_str())?;
            let b = open_locked(&self.rt, self.b.as_str())?;
            self.opened = Some(Opened { a, b });
        }
        Ok(())
    }

    fn file(&self, area: Area) -> io::Result<&File> {
        match (&self.opened, area) {
            (Some(opened), Area::A) => Ok(opened.a.file()),
            (Some(opened), Area::B) => Ok(opened.b.file()),
            (None, _) => Err(ErrorKind::NotFound.into()),
        }
    }
}

fn read_from(file: &File, at: u64, room: &mut [u8]) -> io::Result<usize>
    ensures { IfOk result (λ n. (n ≤ length room.old) × (at < 2 ^ 63)) }
{
    let count = file.read_at(room, at)?;
    if at > LAST_PLACE {
        return Err(ErrorKind::InvalidInput.into());
    }
    Ok(count)
}

pub(crate) fn write_to(file: &File, at: u64, bytes: &[u8]) -> io::Result<usize>
    ensures { IfOk result (λ n. (0 < n) × (n ≤ length bytes.now) × (at < 2 ^ 63)) }
{
    let count = file.write_at(bytes, at)?;
    if count == 0 || at > LAST_PLACE {
        return Err(ErrorKind::WriteZero.into());
    }
    Ok(count)
}

/// An ordinary file that nobody else has locked. Where the name is free the file is made, and where
/// the name is a link to nothing too, at the place that the link names. Whatever else stands there
/// is not opened. A file never gets the number of a standard stream, so that what is meant for the
/// stream can't land in it.
fn open_locked<R: Files<File = File>>(rt: &R, name: &str) -> io::Result<LockedFile> {
    match rt.metadata(name) {
        Ok(found) if !found.is_file() => return Err(ErrorKind::Unsupported.into()),
        Ok(_) => {}
        Err(error) if error.kind() == ErrorKind::NotFound => {}
        Err(error) => return Err(error),
    }
    let mut how = OpenOptions::new();
    how.read(true).write(true).create(true);
    let file = how.open(rt, name)?;
    let found = file.metadata()?;
    if !found.is_file() || file.as_raw_fd() <= LAST_STREAM {
        return Err(ErrorKind::Unsupported.into());
    }
    LockedFile::lock(file, Identity::of(&found))
}
