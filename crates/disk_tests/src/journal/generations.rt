//! A generation that its head doesn't allow.
use super::{EMPTY, Read, is_opened, opened};
use bbs_journal::LoadFault;
use disk_trait::Area;
use std::alloc::Global;
use std::process::Abort;
use std::test::Fail;

// An area of this version and generation, whose head has so many zero bytes, and a closed gate.
fn area(alloc: Global, version: u8, generation: u8, len: u8) -> Result<Vec<u8>, Fail> {
    let mut bytes = Vec::from_slice(alloc, &EMPTY[..10])?;
    bytes.extend_from_slice(&[version, 0, 0, 0, 0, 0, 0, 0, generation, 0, 0, 0, len])?;
    bytes.extend_from_slice(&[0; 32][..len.min(31) as usize + 1])?;
    Ok(bytes)
}

// One whose generation is too high, cut to so many bytes.
fn cut_to(alloc: Global, version: u8, len: usize) -> Result<Vec<u8>, Fail> {
    let mut bytes = area(alloc, version, version.saturating_add(1), 24)?;
    bytes.truncate(len);
    Ok(bytes)
}

const HIGH: LoadFault = LoadFault::Damaged {
    area: Area::A,
    at: 11,
};

fn is_read_as(rt: &impl Abort, alloc: Global, bytes: &[u8], want: Read) -> Result<(), Fail> {
    is_opened(rt, bytes.len() as u64, opened(alloc, bytes, &[])?, want);
    Ok(())
}

// Over a head of so many bytes, whose number is 0, the version is the highest generation.
fn is_too_high(rt: &impl Abort, alloc: Global, version: u8, len: u8) -> Result<(), Fail> {
    let next = version.saturating_add(1);
    is_read_as(rt, alloc, &area(alloc, version, next, len)?, Err(HIGH))?;
    is_read_as(
        rt,
        alloc,
        &area(alloc, version, version, len)?,
        Ok((0, None)),
    )
}

// The bytes that it is compared with have to be there, and no more.
fn is_told_by_31_bytes(rt: &impl Abort, alloc: Global, version: u8) -> Result<(), Fail> {
    let short = LoadFault::Damaged {
        area: Area::A,
        at: 30,
    };
    is_read_as(rt, alloc, &cut_to(alloc, version, 31)?, Err(HIGH))?;
    is_read_as(rt, alloc, &cut_to(alloc, version, 30)?, Err(short))
}

#[test]
fn a_generation_that_is_too_high_is_told_in_front_of_the_head(rt: HostRuntime) -> Result<(), Fail> {
    let alloc = rt.alloc();
    for version in 1..3u8 {
        for len in 8..29u8 {
            is_too_high(&rt, alloc, version, len)?;
        }
        is_told_by_31_bytes(&rt, alloc, version)?;
    }
    Ok(())
}

// An area of this version whose generation and whose head's number end with these bytes.
fn numbered(alloc: Global, version: u8, generation: u8, next: u8) -> Result<Vec<u8>, Fail> {
    let mut bytes = area(alloc, version, generation, 28)?;
    if let Some(byte) = bytes.get_mut(30) {
        *byte = next;
    }
    Ok(bytes)
}

#[test]
fn a_generation_is_at_most_the_number_of_the_head_and_the_version(
    rt: HostRuntime,
) -> Result<(), Fail> {
    let alloc = rt.alloc();
    // Version, generation and number.
    let table: [(u8, u8, u8, Read); 10] = [
        (1, 1, 0, Ok((0, None))),
        (1, 2, 0, Err(HIGH)),
        (2, 1, 0, Ok((0, None))),
        (2, 2, 0, Ok((0, None))),
        (2, 3, 0, Err(HIGH)),
        (1, 8, 7, Ok((0, None))),
        (1, 9, 7, Err(HIGH)),
        (2, 9, 7, Ok((0, None))),
        (2, 10, 7, Err(HIGH)),
        (2, 7, 255, Ok((0, None))),
    ];
    for (version, generation, next, want) in table {
        let bytes = numbered(alloc, version, generation, next)?;
        is_opened(&rt, generation as u64, opened(alloc, &bytes, &[])?, want);
    }
    Ok(())
}

// The greatest generation, over a head that begins with this byte and seven of the greatest.
fn last(alloc: Global, version: u8, first: u8) -> Result<Vec<u8>, Fail> {
    let mut bytes = Vec::from_slice(alloc, &EMPTY[..10])?;
    bytes.extend_from_slice(&[
        version, 255, 255, 255, 255, 255, 255, 255, 255, 0, 0, 0, 8, first,
    ])?;
    bytes.extend_from_slice(&[255, 255, 255, 255, 255, 255, 255, 0])?;
    Ok(bytes)
}

#[test]
fn the_greatest_generation_is_compared_without_a_wrap(rt: HostRuntime) -> Result<(), Fail> {
    let alloc = rt.alloc();
    for version in 1..3u8 {
        is_read_as(&rt, alloc, &last(alloc, version, 255)?, Ok((0, None)))?;
        is_read_as(&rt, alloc, &last(alloc, version, 254)?, Err(HIGH))?;
    }
    Ok(())
}
