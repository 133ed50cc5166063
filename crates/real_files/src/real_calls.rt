// Each method makes its call, and then notes it with the answer.
ghost use Rattle.std.specs.Prelude.{◌≡◌, []};

use crate::two_files::TwoFiles;
use disk_trait::Area;
use file_calls::{CallError, Calls, Contents, Record};
use std::fs::File;
use std::io;
use std::io::ErrorKind;
use std::marker::PhantomData;
use std::rt::Files;

/// Two files of the system. They are opened and locked at the first call, and made where they are
/// missing. A call for which that fails is refused, and the next one tries again. `F` stands for
/// what the files held then, whatever that was.
#[derive(Drop)]
pub struct RealCalls<R: Files<File = File> + AllocGlobal + Drop, F: Contents> {
    files: TwoFiles<R>,
    noted: Record,
    contents: PhantomData<F>,
}

impl<R: Files<File = File> + AllocGlobal + Drop, F: Contents> RealCalls<R, F> {
    /// The files of these names. None is touched yet.
    pub fn new(rt: R, a: String, b: String) -> RealCalls<R, F>
        ensures { ⟦<RealCalls<R, F> as Calls>⟧.history result ≡ [] }
    {
        RealCalls {
            files: TwoFiles::new(rt, a, b),
            noted: Record::new(),
            contents: PhantomData,
        }
    }
}

fn refusal(error: io::Error) -> CallError {
    match error.kind() {
        ErrorKind::Interrupted => CallError::Interrupted,
        _ => CallError::Refused,
    }
}

impl<R: Files<File = File> + AllocGlobal + Drop, F: Contents> Calls for RealCalls<R, F> {
    ghost first = { F.Contents.first };

    ghost history = { λ system. system.noted.calls };

    fn begin(&mut self) {
        self.noted.began();
    }

    fn announce(&mut self, area: Area, at: u64, len: usize) {
        self.noted.means(area, at, len);
    }

    fn len(&mut self, area: Area) -> Result<u64, CallError> {
        let answer = self.files.len(area).map_err(refusal);
        self.noted.measured(area, &answer);
        answer
    }

    fn read_some(&mut self, area: Area, at: u64, room: &mut [u8]) -> Result<usize, CallError> {
        let answer = self.files.read_some(area, at, room).map_err(refusal);
        self.noted.read(area, at, &answer, room);
        answer
    }

    fn write_some(&mut self, area: Area, at: u64, bytes: &[u8]) -> Result<usize, CallError> {
        let answer = self.files.write_some(area, at, bytes).map_err(refusal);
        self.noted.written(area, at, &answer, bytes);
        answer
    }

    fn sync_name(&mut self, area: Area) -> Result<(), CallError> {
        let answer = self.files.sync_name(area).map_err(refusal);
        self.noted.named(area, answer.is_ok());
        answer
    }

    fn sync_data(&mut self, area: Area) -> Result<(), CallError> {
        let answer = self.files.sync_data(area).map_err(refusal);
        self.noted.flushed(area, answer.is_ok());
        answer
    }
}
