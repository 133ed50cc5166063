use super::*;
use std::cmp::Ordering;
use std::collections::HashMap;
use std::test::Fail;

const LONG: [u8; 81] = [b'x'; 81];

fn name(text: &str) -> Result<Name, Fail> {
    Ok(Name::read(text.as_bytes())?)
}

#[test]
fn bytes_are_read_as_a_name_or_the_first_fault(rt: HostRuntime) -> Result<(), Fail> {
    let cases: [(&[u8], Option<NameFault>); 8] = [
        (b"", Some(NameFault::Empty)),
        (b"a", None),
        (b"cell_1.zone-2", None),
        (&LONG[..80], None),
        (&LONG, Some(NameFault::TooLong { len: 81 })),
        (b"a b", Some(NameFault::BadByte { at: 1 })),
        (b"/ab", Some(NameFault::BadByte { at: 0 })),
        (b"ab\xc3", Some(NameFault::BadByte { at: 2 })),
    ];
    for (bytes, fault) in cases {
        match Name::read(bytes) {
            Ok(name) => {
                assert_eq!(rt; fault, None, "at {bytes:?}");
                assert_eq!(rt; name.bytes(), bytes);
            }
            Err(found) => assert_eq!(rt; Some(found), fault, "at {bytes:?}"),
        }
    }
    Ok(())
}

#[test]
fn names_are_ordered_by_their_bytes(rt: HostRuntime) -> Result<(), Fail> {
    let (a, ab, b) = (name("a")?, name("ab")?, name("b")?);
    assert_eq!(rt; a.cmp(&ab), Ordering::Less);
    assert_eq!(rt; ab.cmp(&b), Ordering::Less);
    assert_eq!(rt; b.cmp(&a), Ordering::Greater);
    assert_eq!(rt; name("Z")?.partial_cmp(&a), Some(Ordering::Less));
    assert_eq!(rt; a, name("a")?);
    Ok(())
}

#[test]
fn long_names_are_ordered_by_the_first_byte_that_differs(rt: HostRuntime) -> Result<(), Fail> {
    // Each stands before the next one, and the words of eight bytes end between them.
    let rising = [
        "process0",
        "process0-00000",
        "process0-00000000-a",
        "process0-0000000z",
        "process1",
        "process1-0",
    ];
    for (place, less) in rising.iter().enumerate() {
        for (other, more) in rising.iter().enumerate() {
            let (a, b) = (name(less)?, name(more)?);
            assert_eq!(rt; a.cmp(&b), place.cmp(&other), "{less} and {more}");
            assert_eq!(rt; a == b, place == other, "{less} and {more}");
        }
    }
    let mut last = LONG;
    last[79] = b'y';
    let (x, y) = (Name::read(&LONG[..80])?, Name::read(&last[..80])?);
    assert_eq!(rt; x.cmp(&y), Ordering::Less);
    assert_eq!(rt; Name::read(&LONG[..79])?.cmp(&x), Ordering::Less);
    assert_eq!(rt; x == y, false);
    Ok(())
}

#[test]
fn keys_and_instances_are_ordered_field_by_field(rt: HostRuntime) -> Result<(), Fail> {
    let key = |process: Name, index: u32| Key { process, index };
    let (a, b) = (name("a")?, name("b")?);
    assert_eq!(rt; key(a, 9).cmp(&key(b, 0)), Ordering::Less);
    assert_eq!(rt; key(a, 9).cmp(&key(a, 10)), Ordering::Less);
    assert_eq!(rt; key(a, 9).cmp(&key(a, 9)), Ordering::Equal);
    let instance = |epoch: u64, number: u32| Instance { epoch, number };
    assert_eq!(rt; instance(1, 9).cmp(&instance(2, 0)), Ordering::Less);
    assert_eq!(rt; instance(2, 9).cmp(&instance(2, 8)), Ordering::Greater);
    Ok(())
}

#[test]
fn keys_are_found_in_a_map(rt: HostRuntime) -> Result<(), Fail> {
    let mut map = HashMap::new(rt.alloc());
    let process = name("web")?;
    map.insert(Key { process, index: 0 }, StateName::Running)?;
    map.insert(Key { process, index: 1 }, StateName::Crashed)?;
    assert_eq!(rt;
        map.get(&Key { process, index: 1 }).copied(),
        Some(StateName::Crashed)
    );
    assert_eq!(rt; map.get(&Key { process, index: 2 }).copied(), None);
    Ok(())
}

#[test]
fn a_list_keeps_what_is_pushed(rt: HostRuntime) -> Result<(), Fail> {
    let mut list = List::new(rt.alloc());
    assert!(rt; list.is_empty());
    list.push(3u32)?;
    list.push(5)?;
    assert_eq!(rt; list.items(), [3, 5].as_slice());
    assert_eq!(rt; list.len(), 2);
    let items: Vec<u32> = list.into();
    assert_eq!(rt; List::from(items).items(), [3, 5].as_slice());
    Ok(())
}

#[test]
fn names_and_faults_are_printed(rt: HostRuntime) -> Result<(), Fail> {
    let alloc = rt.alloc();
    let web = name("web-1")?;
    assert_eq!(rt; web.as_str(), "web-1");
    assert_eq!(rt;
        format!(in alloc; "{web} {web:?}")?.as_str(),
        "web-1 \"web-1\""
    );
    assert_eq!(rt;
        format!(in alloc; "{}", NameFault::TooLong { len: 81 })?.as_str(),
        "a name of 81 bytes"
    );
    assert_eq!(rt;
        format!(in alloc; "{}", OutOfMemory)?.as_str(),
        "out of memory"
    );
    Ok(())
}
