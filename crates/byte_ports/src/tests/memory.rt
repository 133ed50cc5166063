// The source and the sink in memory.
use crate::{Failed, MemorySink, MemorySource, ReadFault, Sink, Source, read_whole, write_whole};
use std::test::Fail;

#[test]
fn a_memory_source_gives_its_bytes_in_order(rt: HostRuntime) -> Result<(), Fail> {
    let alloc = rt.alloc();
    let mut source = MemorySource::new(b"abcde".to_vec(alloc)?, Vec::new(alloc));
    for want in ["ab", "cd", "e", "", ""] {
        let mut room = [0; 2];
        let count = source.take(&mut room).ok().ok_or("failed")?;
        assert_eq!(rt; room.get(..count), Some(want.as_bytes()));
    }
    Ok(())
}

#[test]
fn a_source_fails_at_the_listed_calls_and_loses_nothing(rt: HostRuntime) -> Result<(), Fail> {
    let alloc = rt.alloc();
    let mut source = MemorySource::new(b"abc".to_vec(alloc)?, vec![in alloc; 1, 3]?);
    let mut room = [0; 2];
    assert_eq!(rt; source.take(&mut room), Err(Failed));
    assert_eq!(rt; source.take(&mut room), Ok(2));
    assert_eq!(rt; source.take(&mut room), Err(Failed));
    assert_eq!(rt; source.take(&mut room), Ok(1));
    assert_eq!(rt; room, *b"cb");
    Ok(())
}

#[test]
fn a_sink_fails_at_the_listed_calls_and_keeps_what_it_holds(rt: HostRuntime) -> Result<(), Fail> {
    let alloc = rt.alloc();
    let mut sink = MemorySink::new(alloc, vec![in alloc; 2]?);
    assert_eq!(rt; sink.put(b"ab"), Ok(2));
    assert_eq!(rt; sink.put(b"cd"), Err(Failed));
    assert_eq!(rt; sink.bytes(), b"ab".as_slice());
    assert_eq!(rt; write_whole(&mut sink, b"ef"), Ok(()));
    assert_eq!(rt; sink.bytes(), b"abef".as_slice());
    assert_eq!(rt; sink.starved(), 0);
    Ok(())
}

#[test]
fn a_source_is_read_whole_up_to_the_limit(rt: HostRuntime) -> Result<(), Fail> {
    let alloc = rt.alloc();
    // Bytes, limit, and whether they are within it. A room holds 4,096 bytes.
    let cases = [
        (0, 0, true),
        (1, 0, false),
        (3, 3, true),
        (4, 3, false),
        (4095, 4096, true),
        (4096, 4096, true),
        (4097, 4096, false),
        (9000, 9000, true),
        (9000, 8999, false),
    ];
    for (len, limit, fits) in cases {
        let bytes = vec![in alloc; 7u8; len]?;
        let mut source = MemorySource::new(bytes, Vec::new(alloc));
        match read_whole(alloc, &mut source, limit) {
            Ok(read) => {
                assert!(rt; fits, "{len} bytes at {limit}");
                assert_eq!(rt; read.len(), len);
            }
            Err(fault) => {
                assert!(rt; !fits, "{len} bytes at {limit}");
                assert_eq!(rt; fault, ReadFault::TooLong);
            }
        }
    }
    Ok(())
}

#[test]
fn a_fault_ends_the_reading(rt: HostRuntime) -> Result<(), Fail> {
    let alloc = rt.alloc();
    let mut source = MemorySource::new(b"abc".to_vec(alloc)?, vec![in alloc; 2]?);
    let read = read_whole(alloc, &mut source, 9);
    assert_eq!(rt; read.err(), Some(ReadFault::Failed));
    Ok(())
}
