//! The first fault of bytes that are no command.
ghost use Rattle.std.specs.Prelude.{◌≡◌, ◌⊎◌};

use bbs_codec::{CodecFault, read_command};
use std::process::Abort;
use std::test::Fail;

/// A Fresh at second 9: domain `d1`, for 60 seconds.
const FRESH: [u8; 12] = *b"\x1a\0\0\0\x09\x02d1\0\0\0\x3c";

/// A Renew at second 9: cell `c1`, epoch 258, for 60 seconds.
const RENEW: [u8; 20] = *b"\x17\0\0\0\x09\x02c1\0\0\0\0\0\0\x01\x02\0\0\0\x3c";

fn is_refused_in(rt: &impl Abort, bytes: &[u8], version: u16, fault: CodecFault)
    requires { (version ≡ 1) ⊎ (version ≡ 2) }
{
    assert_eq!(rt;
        read_command(bytes, version),
        Err(fault),
        "version {version}"
    );
}

// In both versions.
fn is_refused(rt: &impl Abort, bytes: &[u8], fault: CodecFault) {
    is_refused_in(rt, bytes, 1, fault);
    is_refused_in(rt, bytes, 2, fault);
}

#[test]
fn a_renew_that_is_cut_is_short_at_its_end(rt: HostRuntime) {
    for at in 0..20 {
        is_refused(&rt, &RENEW[..at], CodecFault::Short { at });
    }
}

#[test]
fn the_first_fault_of_a_renew_is_answered(rt: HostRuntime) {
    let bad_kind = CodecFault::BadKind { at: 0 };
    let bad_name = CodecFault::BadField { at: 5 };
    let cases: [(usize, u8, CodecFault); 7] = [
        (0, 0, bad_kind),
        (0, 30, bad_kind),
        (0, 255, bad_kind),
        (5, 0, bad_name),
        (5, 81, bad_name),
        (6, b' ', bad_name),
        (5, 80, CodecFault::Short { at: 20 }),
    ];
    for (at, byte, fault) in cases {
        let mut bytes = RENEW;
        if at < 20 {
            bytes[at] = byte;
        }
        is_refused(&rt, &bytes, fault);
    }
}

#[test]
fn a_fresh_that_is_cut_is_short_at_its_end_where_it_has_a_kind(rt: HostRuntime) {
    is_refused(&rt, &[], CodecFault::Short { at: 0 });
    for at in 1..12 {
        is_refused_in(&rt, &FRESH[..at], 1, CodecFault::BadKind { at: 0 });
        is_refused_in(&rt, &FRESH[..at], 2, CodecFault::Short { at });
    }
}

// The fault of a Renew with this kind in its place, in version 2. In version 1 it has none.
fn is_told_late(rt: &impl Abort, kind: u8, fault: CodecFault) {
    let mut bytes = RENEW;
    bytes[0] = kind;
    is_refused_in(rt, &bytes, 1, CodecFault::BadKind { at: 0 });
    is_refused_in(rt, &bytes, 2, fault);
}

#[test]
fn version_1_has_25_kinds_and_version_2_has_29(rt: HostRuntime) {
    let cases = [
        (26, CodecFault::Trailing { at: 12 }),
        (27, CodecFault::Trailing { at: 8 }),
        (28, CodecFault::Short { at: 20 }),
        (29, CodecFault::Short { at: 20 }),
        (30, CodecFault::BadKind { at: 0 }),
    ];
    for (kind, fault) in cases {
        is_told_late(&rt, kind, fault);
    }
}

#[test]
fn the_kind_comes_before_what_is_missing_and_what_is_left_over_last(rt: HostRuntime) {
    is_refused(&rt, &[30], CodecFault::BadKind { at: 0 });
    let longer = b"\x17\0\0\0\x09\x02c1\0\0\0\0\0\0\x01\x02\0\0\0\x3c\0";
    is_refused(&rt, longer, CodecFault::Trailing { at: 20 });
    let bad_and_longer = b"\x17\0\0\0\x09\x02c \0\0\0\0\0\0\x01\x02\0\0\0\x3c\0";
    is_refused(&rt, bad_and_longer, CodecFault::BadField { at: 5 });
}

#[test]
fn a_truth_value_of_2_is_bad_at_its_place(rt: HostRuntime) {
    let removed = b"\x0a\0\0\0\x09\x03web\0\0\0\x01\x02\0\0\0\0\0\0\x01\x02\0\0\0\x09";
    is_refused(&rt, removed, CodecFault::BadField { at: 13 });
    let failed = b"\x10\0\0\0\x09\x03web\0\0\0\0\0\0\x01\x02\0\0\0\x09\x02";
    is_refused(&rt, failed, CodecFault::BadField { at: 21 });
}

#[test]
fn faults_are_printed_with_their_place(rt: HostRuntime) -> Result<(), Fail> {
    let text = format!(in rt.alloc(); "{}", CodecFault::BadKind { at: 0 })?;
    assert_eq!(rt; text.as_str(), "no kind of command at 0");
    Ok(())
}
