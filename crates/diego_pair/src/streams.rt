// The numbers of the standard streams, 0 to 2, which no file of the board may have.
use std::fs::{File, OpenOptions};
use std::io;
use std::os::fd::AsRawFd;
use std::rt::Files;

const INPUT: i32 = 0;

const LAST: i32 = 2;

const NULL_DEVICE: &str = "/dev/null";

/// The streams that were closed when the program began, each held open on the null device in the one
/// way in which it can't be used. So a read of standard input fails, and a write of the others.
#[derive(Drop)]
pub(crate) struct Streams {
    _held: [Option<File>; 3],
}

impl Streams {
    /// The system gives a file the least number that is free, so a number above 2 says that none of
    /// the three is.
    pub(crate) fn hold<R: Files<File = File>>(rt: &R) -> io::Result<Streams> {
        let mut held = [None, None, None];
        for place in held.iter_mut() {
            *place = hold_one(rt)?;
            if place.is_none() {
                break;
            }
        }
        Ok(Streams { _held: held })
    }
}

fn hold_one<R: Files<File = File>>(rt: &R) -> io::Result<Option<File>> {
    let file = OpenOptions::new().write(true).open(rt, NULL_DEVICE)?;
    let number = file.as_raw_fd();
    if number == INPUT {
        return Ok(Some(file));
    }
    drop(file);
    if number > LAST {
        return Ok(None);
    }
    Ok(Some(File::open(rt, NULL_DEVICE)?))
}
