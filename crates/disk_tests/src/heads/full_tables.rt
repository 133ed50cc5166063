//! Heads of as many rows as a table holds, and of one more.

use bbs_codec::CodecFault;
use head_codec::{HeadFault, read_head};
use std::alloc::Global;
use std::process::Abort;
use std::test::Fail;

/// A name of four digits, of which a greater number has the greater one.
fn put_name(out: &mut Vec<u8>, number: u32) -> Result<(), Fail> {
    out.push(4)?;
    out.push(b'0' + (number / 1000 % 10) as u8)?;
    out.push(b'0' + (number / 100 % 10) as u8)?;
    out.push(b'0' + (number / 10 % 10) as u8)?;
    out.push(b'0' + (number % 10) as u8)?;
    Ok(())
}

/// A head of so many cells, after 2,000 transitions. Each row takes 37 bytes, and stands behind 28.
fn cells(alloc: Global, count: u32) -> Result<Vec<u8>, Fail> {
    let mut out = Vec::new(alloc);
    out.extend_from_slice(b"\0\0\0\0\0\0\x07\xd0\0\0\0\0\0\0\0\0\0\0\0\0")?;
    out.extend_from_slice(&count.to_be_bytes())?;
    out.extend_from_slice(&[0; 4])?;
    for number in 0..count {
        put_name(&mut out, number)?;
        out.extend_from_slice(b"\x01z\0\0\0\0\0\0\0\0\0\0\0\0\0")?;
        out.extend_from_slice(&(number as u64).to_be_bytes())?;
        out.extend_from_slice(&[0; 9])?;
    }
    Ok(out)
}

/// A head of so many domains. Each row takes six bytes, and stands behind 28.
fn domains(alloc: Global, count: u32) -> Result<Vec<u8>, Fail> {
    let mut out = Vec::new(alloc);
    out.extend_from_slice(&[0; 24])?;
    out.extend_from_slice(&count.to_be_bytes())?;
    for number in 0..count {
        put_name(&mut out, number)?;
        out.push(0)?;
    }
    Ok(out)
}

/// How many cells and domains are read of a head, or its fault.
type Read = Result<usize, HeadFault>;

fn read_rows(alloc: Global, head: &[u8]) -> Read {
    match read_head(alloc, head, 2) {
        Ok(rows) => Ok(rows.cells.len() + rows.domains.len()),
        Err(fault) => Err(fault),
    }
}

fn is_read(rt: &impl Abort, got: Read, wanted: Read) {
    assert_eq!(rt; got, wanted);
}

#[test]
fn a_table_holds_no_row_more(rt: HostRuntime) -> Result<(), Fail> {
    let alloc = rt.alloc();
    is_read(&rt, read_rows(alloc, &cells(alloc, 1000)?), Ok(1000));
    let full = HeadFault::Codec(CodecFault::BadField { at: 37_028 });
    is_read(&rt, read_rows(alloc, &cells(alloc, 1001)?), Err(full));
    is_read(&rt, read_rows(alloc, &domains(alloc, 1000)?), Ok(1000));
    let full = HeadFault::Codec(CodecFault::BadField { at: 6_028 });
    is_read(&rt, read_rows(alloc, &domains(alloc, 1001)?), Err(full));
    Ok(())
}
