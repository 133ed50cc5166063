// The adapters over readers and writers of std, with fakes that misbehave and with a real file.
use crate::{Failed, ReadFault, Sink, Source, StdSink, StdSource, read_whole, write_whole};
use std::alloc::Global;
use std::fs;
use std::io::{Error, ErrorKind, Read, Result as IoResult, Write};
use std::test::Fail;

const FILE: &str = "byte_ports_test.txt";

// It gives these bytes, two a call, and is interrupted some times before each call.
#[derive(Drop)]
struct Slow<'a> {
    rest: &'a [u8],
    times: u32,
    so_far: u32,
}

impl Read for Slow<'_> {
    fn read(&mut self, buf: &mut [u8]) -> IoResult<usize> {
        if self.so_far < self.times {
            self.so_far += 1;
            return Err(Error::from(ErrorKind::Interrupted));
        }
        self.so_far = 0;
        let count = self.rest.len().min(buf.len()).min(2);
        buf[..count].copy_from_slice(&self.rest[..count]);
        self.rest = &self.rest[count..];
        Ok(count)
    }
}

// It takes two bytes a call while there is space, then nothing or an error, and is interrupted some times
// before each call.
#[derive(Drop)]
struct Narrow {
    bytes: Vec<u8>,
    space: usize,
    refusal: Option<ErrorKind>,
    times: u32,
    so_far: u32,
}

impl Narrow {
    fn new(alloc: Global, space: usize, refusal: Option<ErrorKind>, times: u32) -> Self {
        Narrow {
            bytes: Vec::new(alloc),
            space,
            refusal,
            times,
            so_far: 0,
        }
    }
}

impl Write for Narrow {
    fn write(&mut self, buf: &[u8]) -> IoResult<usize> {
        if self.so_far < self.times {
            self.so_far += 1;
            return Err(Error::from(ErrorKind::Interrupted));
        }
        self.so_far = 0;
        let count = buf.len().min(self.space).min(2);
        if count == 0 {
            return match self.refusal {
                Some(kind) => Err(Error::from(kind)),
                None => Ok(0),
            };
        }
        self.bytes.extend_from_slice(&buf[..count])?;
        self.space -= count;
        Ok(count)
    }

    fn flush(&mut self) -> IoResult<()> {
        Ok(())
    }
}

#[test]
fn a_slice_is_read_to_its_end(rt: HostRuntime) -> Result<(), Fail> {
    let mut source = StdSource::new(b"abc".as_slice());
    let read = read_whole(rt.alloc(), &mut source, 3).ok().ok_or("failed")?;
    assert_eq!(rt; read.as_slice(), b"abc".as_slice());
    Ok(())
}

#[test]
fn a_vector_is_written_to(rt: HostRuntime) -> Result<(), Fail> {
    let mut held = Vec::new(rt.alloc());
    assert_eq!(rt; write_whole(&mut StdSink::new(&mut held), b"abc"), Ok(()));
    assert_eq!(rt; held.as_slice(), b"abc".as_slice());
    Ok(())
}

#[test]
fn a_short_read_is_not_the_end_and_an_interrupt_no_fault(rt: HostRuntime) -> Result<(), Fail> {
    for times in [0, 1, 99] {
        let rest = b"abcde".as_slice();
        let mut source = StdSource::new(Slow {
            rest,
            times,
            so_far: 0,
        });
        let read = read_whole(rt.alloc(), &mut source, 5).ok().ok_or("failed")?;
        assert_eq!(rt; read.as_slice(), b"abcde".as_slice(), "after {times}");
    }
    let rest = b"abcde".as_slice();
    let mut source = StdSource::new(Slow {
        rest,
        times: 100,
        so_far: 0,
    });
    assert_eq!(rt; source.take(&mut [0; 4]), Err(Failed));
    Ok(())
}

#[test]
fn a_short_write_is_not_the_end_and_an_interrupt_no_fault(rt: HostRuntime) {
    for times in [0, 1, 99] {
        let mut narrow = Narrow::new(rt.alloc(), 9, None, times);
        let whole = write_whole(&mut StdSink::new(&mut narrow), b"abcde");
        assert_eq!(rt; whole, Ok(()), "after {times}");
        assert_eq!(rt; narrow.bytes.as_slice(), b"abcde".as_slice());
    }
    let mut narrow = Narrow::new(rt.alloc(), 9, None, 100);
    assert_eq!(rt; StdSink::new(&mut narrow).put(b"a"), Err(Failed));
    assert!(rt; narrow.bytes.is_empty());
}

#[test]
fn a_writer_that_refuses_is_a_fault(rt: HostRuntime) {
    let refusals = [
        None,
        Some(ErrorKind::Interrupted),
        Some(ErrorKind::BrokenPipe),
    ];
    for refusal in refusals {
        let mut narrow = Narrow::new(rt.alloc(), 3, refusal, 0);
        let whole = write_whole(&mut StdSink::new(&mut narrow), b"abcdef");
        assert_eq!(rt; whole, Err(Failed));
        assert_eq!(rt; narrow.bytes.as_slice(), b"abc".as_slice());
    }
}

#[test]
fn a_file_is_written_and_read_back(rt: HostRuntime) -> Result<(), Fail> {
    let mut sink = StdSink::new(fs::create(&rt, FILE)?);
    assert_eq!(rt; write_whole(&mut sink, b"one\ntwo\n"), Ok(()));
    let mut source = StdSource::new(fs::open(&rt, FILE)?);
    let read = read_whole(rt.alloc(), &mut source, 8).ok().ok_or("failed")?;
    assert_eq!(rt; read.as_slice(), b"one\ntwo\n".as_slice());
    let mut source = StdSource::new(fs::open(&rt, FILE)?);
    let read = read_whole(rt.alloc(), &mut source, 7);
    assert_eq!(rt; read.err(), Some(ReadFault::TooLong));
    fs::remove_file(&rt, FILE)?;
    Ok(())
}

#[test]
fn a_folder_that_is_read_as_a_file_is_a_fault(rt: HostRuntime) -> Result<(), Fail> {
    let mut source = StdSource::new(fs::open(&rt, ".")?);
    assert_eq!(rt; source.take(&mut [0; 4]), Err(Failed));
    Ok(())
}

#[test]
fn standard_output_takes_a_piece(rt: HostRuntime) {
    let mut sink = StdSink::new(rt.stdout());
    assert_eq!(rt; sink.put(b"byte ports\n"), Ok(11));
}
