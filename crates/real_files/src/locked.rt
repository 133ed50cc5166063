// A file of which nothing is read or written before its lock was had.
ghost use Rattle.std.specs.Prelude.{◌≡◌, true, is_ok};

use crate::identity::Identity;
use std::fs::{File, TryLockError};
use std::io;
use std::marker::Model;

/// An open file whose lock the system gave to this opening. The lock is kept as long as the value.
#[derive(Drop)]
pub(crate) struct LockedFile {
    file: File,
    identity: Identity,
    // what the system answered, kept so that no other value can be made
    had: bool,
}

impl Model for LockedFile {
    ghost use Rattle.std.specs.Prelude.{◌≡◌, Bool, true};

    ghost Value = { Bool };

    ghost view = { λ locked. locked.had };

    ghost invariant = { λ locked. locked.had ≡ true };
}

impl LockedFile {
    /// The file, once its lock is had; it is not waited for.
    ///
    /// # Errors
    ///
    /// The system's, where another opening has the lock or there are no locks. The file is closed.
    pub(crate) fn lock(file: File, identity: Identity) -> io::Result<LockedFile> {
        let answer = file.try_lock();
        LockedFile::given(file, identity, answer)
    }

    // The file, if the system gave its lock.
    fn given(
        file: File,
        identity: Identity,
        answer: Result<(), TryLockError>,
    ) -> io::Result<LockedFile>
        ensures { is_ok result ≡ is_ok answer }
    {
        let had = answer.is_ok();
        match answer {
            Ok(()) => Ok(LockedFile {
                file,
                identity,
                had,
            }),
            Err(error) => Err(error.into()),
        }
    }

    /// The file, which its lock was had of.
    pub(crate) fn file(&self) -> &File
        ensures { self.now ≡ true }
    {
        &self.file
    }

    /// Which file it is.
    pub(crate) fn identity(&self) -> Identity {
        self.identity
    }
}
