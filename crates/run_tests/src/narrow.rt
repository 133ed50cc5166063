//! A writer that takes so many bytes, and then fails.
use std::alloc::Global;
use std::io::{Error, ErrorKind, Result as IoResult, Write};
use std::process::Abort;

/// It takes 40 bytes a call while there is space, and then it fails.
#[derive(Drop)]
pub struct Narrow {
    bytes: Vec<u8>,
    space: usize,
}

impl Narrow {
    pub fn new(alloc: Global, space: usize) -> Narrow {
        Narrow {
            bytes: Vec::new(alloc),
            space,
        }
    }
}

impl Write for Narrow {
    fn write(&mut self, buf: &[u8]) -> IoResult<usize> {
        let count = buf.len().min(self.space).min(40);
        if count == 0 {
            return Err(Error::from(ErrorKind::BrokenPipe));
        }
        self.bytes.extend_from_slice(&buf[..count])?;
        self.space -= count;
        Ok(count)
    }

    fn flush(&mut self) -> IoResult<()> {
        Ok(())
    }
}

/// A writer that had so much space must hold that front of the text.
pub fn holds_front(rt: &impl Abort, narrow: &Narrow, text: &str, space: usize) {
    assert_eq!(rt;
        Some(narrow.bytes.as_slice()),
        text.as_bytes().get(..space.min(text.len()))
    );
}
