use super::*;
use diego_names::{Instance, Name};
use std::test::Fail;

const EPOCH_258_NUMBER_9: [u8; 13] = [1, 0, 0, 0, 0, 0, 0, 1, 2, 0, 0, 0, 9];

const INSTANCE: Instance = Instance {
    epoch: 258,
    number: 9,
};

#[test]
#[tactic(auto, using(crate::proofs::Rules::lengths))]
fn numbers_stand_with_their_highest_byte_first(rt: HostRuntime) {
    let mut out = [7; 16];
    assert_eq!(rt; put_u8(&mut out, 0, 0xfe), 1);
    assert_eq!(rt; put_u16(&mut out, 1, 0x0102), 3);
    assert_eq!(rt; put_u32(&mut out, 3, 0xff00_0001), 7);
    assert_eq!(rt; put_u64(&mut out, 7, 0x0102_0304_0506_0708), 15);
    assert_eq!(rt; out, [0xfe, 1, 2, 0xff, 0, 0, 1, 1, 2, 3, 4, 5, 6, 7, 8, 7]);
    assert_eq!(rt; read_u8(&out, 0), Ok((0xfe, 1)));
    assert_eq!(rt; read_u16(&out, 1), Ok((0x0102, 3)));
    assert_eq!(rt; read_u32(&out, 3), Ok((0xff00_0001, 7)));
    assert_eq!(rt; read_u64(&out, 7), Ok((0x0102_0304_0506_0708, 15)));
    assert_eq!(rt; read_u64(&[0xff; 8], 0), Ok((u64::MAX, 8)));
}

#[test]
fn a_field_that_is_cut_is_short_at_the_end(rt: HostRuntime) {
    let bytes = EPOCH_258_NUMBER_9;
    for len in 1..13 {
        let short = FieldFault::Short { at: len };
        let cut = &bytes[..len];
        assert_eq!(rt; read_optional_instance(cut, 0), Err(short), "at {len}");
        assert_eq!(rt; read_instance(cut, 1), Err(short), "at {len}");
        if len < 9 {
            assert_eq!(rt; read_u64(cut, 1), Err(short), "at {len}");
        }
    }
    assert_eq!(rt; read_u8(&bytes, 13), Err(FieldFault::Short { at: 13 }));
    assert_eq!(rt; read_u16(&bytes, 12), Err(FieldFault::Short { at: 13 }));
    assert_eq!(rt; read_u32(&bytes, 10), Err(FieldFault::Short { at: 13 }));
    assert_eq!(rt; read_truth(&bytes, 13), Err(FieldFault::Short { at: 13 }));
}

#[test]
fn names_are_read_or_the_first_fault(rt: HostRuntime) -> Result<(), Fail> {
    let (short_0, short_3) = (FieldFault::Short { at: 0 }, FieldFault::Short { at: 3 });
    let bad = FieldFault::BadField { at: 0 };
    let (empty, web): (&[u8], &[u8]) = (b"", b"web");
    let cases: [(&[u8], Result<&[u8], FieldFault>, Result<&[u8], FieldFault>); 9] = [
        (b"", Err(short_0), Err(short_0)),
        (b"\x00", Err(bad), Ok(empty)),
        (b"\x00web", Err(bad), Ok(empty)),
        (b"\x03web", Ok(web), Ok(web)),
        (b"\x03web2", Ok(web), Ok(web)),
        (b"\x03we", Err(short_3), Err(short_3)),
        (b"\x03 e", Err(short_3), Err(short_3)),
        (b"\x03w b", Err(bad), Err(bad)),
        (b"\x51", Err(bad), Err(bad)),
    ];
    for (bytes, plain, optional) in cases {
        match read_name(bytes, 0) {
            Ok((name, after)) => {
                assert_eq!(rt; plain, Ok(name.bytes()), "at {bytes:?}");
                assert_eq!(rt; after, 4);
            }
            Err(fault) => assert_eq!(rt; plain, Err(fault), "at {bytes:?}"),
        }
        match read_optional_name(bytes, 0) {
            Ok((None, after)) => {
                assert_eq!(rt; optional, Ok(empty), "at {bytes:?}");
                assert_eq!(rt; after, 1);
            }
            Ok((Some(name), _)) => assert_eq!(rt; optional, Ok(name.bytes()), "at {bytes:?}"),
            Err(fault) => assert_eq!(rt; optional, Err(fault), "at {bytes:?}"),
        }
    }
    Ok(())
}

#[test]
#[tactic(auto, using(crate::proofs::Rules::lengths))]
fn what_is_written_is_read_back(rt: HostRuntime) -> Result<(), Fail> {
    let longest = Name::read(&[b'x'; 80])?;
    let mut out = [9; 200];
    let at = put_name(&mut out, 0, longest);
    assert_eq!(rt; (at, out[0]), (81, 80));
    let at = put_optional_name(&mut out, at, None);
    let at = put_optional_name(&mut out, at, Some(longest));
    let at = put_truth(&mut out, at, true);
    let at = put_instance(&mut out, at, INSTANCE);
    let at = put_optional_instance(&mut out, at, None);
    assert_eq!(rt; at, 81 + 1 + 81 + 1 + 12 + 1);
    assert_eq!(rt; out[at], 9);
    let (name, at) = read_name(&out, 0)?;
    let (none, at) = read_optional_name(&out, at)?;
    let (some, at) = read_optional_name(&out, at)?;
    assert_eq!(rt; (name, none, some), (longest, None, Some(longest)));
    let (truth, at) = read_truth(&out, at)?;
    let (instance, at) = read_instance(&out, at)?;
    let (no_instance, at) = read_optional_instance(&out, at)?;
    assert_eq!(rt; (truth, instance, no_instance), (true, INSTANCE, None));
    assert_eq!(rt; read_u8(&out, at), Ok((9, at + 1)));
    Ok(())
}

#[test]
#[tactic(auto, using(crate::proofs::Rules::lengths))]
fn truth_is_zero_or_one(rt: HostRuntime) {
    let bytes = EPOCH_258_NUMBER_9;
    assert_eq!(rt; read_truth(&bytes, 0), Ok((true, 1)));
    assert_eq!(rt; read_truth(&bytes, 1), Ok((false, 2)));
    assert_eq!(rt; read_truth(&bytes, 8), Err(FieldFault::BadField { at: 8 }));
    assert_eq!(rt; read_optional_instance(&bytes, 0), Ok((Some(INSTANCE), 13)));
    assert_eq!(rt; read_optional_instance(&bytes, 1), Ok((None, 2)));
    assert_eq!(rt;
        read_optional_instance(&bytes, 8),
        Err(FieldFault::BadField { at: 8 })
    );
    let mut out = [9; 13];
    assert_eq!(rt; put_optional_instance(&mut out, 0, Some(INSTANCE)), 13);
    assert_eq!(rt; out, bytes);
}
