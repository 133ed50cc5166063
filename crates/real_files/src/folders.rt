// The folders that have a file's name, and whether it still leads to the file.
use crate::identity::Identity;
use std::fs::File;
use std::io;
use std::io::ErrorKind;
use std::path::Path;
use std::rt::Files;

/// The name leads to this file. One that can't be looked at doesn't.
pub(crate) fn leads_to<R: Files>(rt: &R, name: &str, identity: Identity) -> bool {
    match rt.metadata(name) {
        Ok(found) => Identity::of(&found) == identity,
        Err(_) => false,
    }
}

/// Syncs the folder that has the file's name, and the one above it, which has the folder's. Where the
/// name is a link the folder is that of the file itself. To find that one takes memory, and so does
/// a name that doesn't begin at the root.
pub(crate) fn sync_folders<R: Files<File = File> + AllocGlobal>(
    rt: &R,
    name: &str,
) -> io::Result<()> {
    if rt.symlink_metadata(name)?.is_symlink() || !name.starts_with('/') {
        let found = rt.canonicalize(rt.alloc(), name)?;
        return sync_above(rt, found.as_path());
    }
    sync_above(rt, Path::new(name))
}

fn sync_above<R: Files<File = File>>(rt: &R, path: Path<'_>) -> io::Result<()> {
    let Some(folder) = path.parent() else {
        return Err(ErrorKind::NotFound.into());
    };
    File::open(rt, folder)?.sync_all()?;
    match folder.parent() {
        Some(above) => sync_if_open(rt, above),
        None => Ok(()),
    }
}

// A folder that this user may not read can't be synced, and has to be left out. Nor can one on a file
// system that syncs no folders, as a read-only one: nobody changes its names.
fn sync_if_open<R: Files<File = File>>(rt: &R, folder: Path<'_>) -> io::Result<()> {
    match File::open(rt, folder) {
        Ok(open) => unless(ErrorKind::InvalidInput, open.sync_all()),
        Err(error) => unless(ErrorKind::PermissionDenied, Err(error)),
    }
}

// The result, but for an error of this kind, which counts as none.
fn unless(kind: ErrorKind, end: io::Result<()>) -> io::Result<()> {
    match end {
        Err(error) if error.kind() == kind => Ok(()),
        Err(error) => Err(error),
        Ok(()) => Ok(()),
    }
}
