//! The place of the first fault of a head.
ghost use Rattle.std.specs.Prelude.{◌≡◌, ◌⊎◌};

use super::all_tables::{ALL, PLACES};
use super::old_heads::{OLD, OLD_PLACES};
use bbs_codec::CodecFault;
use head_codec::{HeadFault, read_head};
use std::alloc::Global;
use std::process::Abort;

/// A byte at a place of the head, and where a bad field is told then.
type Case = (usize, u8, usize);

const CASES: [Case; 26] = [
    // no row can be read there
    (28, 81, 28),
    (55, 4, 48),
    (363, 2, 330),
    // a presence, whether there is a domain, and whether one has an end
    (157, 3, 151),
    (182, 81, 151),
    (366, 2, 364),
    (369, 2, 367),
    // a key is that of the row before it, or below it
    (72, 0, 67),
    (157, 1, 151),
    (209, b's', 208),
    (368, b'd', 367),
    // an epoch isn't below the number of transitions, or two rows have one birth or epoch
    (82, 9, 67),
    (217, 5, 208),
    (354, 3, 330),
    // an EVACUATING row is CLAIMED, or has an error, and a SUSPECT one
    (125, 1, 118),
    (148, 1, 118),
    (158, 1, 151),
    (181, 1, 151),
    // there are more transitions than a board has, or other counts than rows stand there
    (2, 1, 0),
    (11, 0, 28),
    (15, 4, 151),
    (19, 5, 296),
    (23, 1, 341),
    (23, 3, 364),
    (24, 1, 378),
    (27, 3, 378),
];

/// The same of a head of version 1.
const OLD_CASES: [Case; 8] = [
    (24, 81, 24),
    (51, 4, 44),
    (66, 0, 61),
    // it has no SUSPECT rows
    (115, 2, 109),
    (116, 1, 109),
    (2, 1, 0),
    (19, 5, 253),
    (23, 3, 321),
];

/// The fault of a head of this version.
fn fault_of(alloc: Global, head: &[u8], version: u16) -> Option<HeadFault>
    requires { (version ≡ 1) ⊎ (version ≡ 2) }
{
    match read_head(alloc, head, version) {
        Ok(_rows) => None,
        Err(fault) => Some(fault),
    }
}

/// The fault of the head with this byte changed.
fn changed(alloc: Global, place: usize, byte: u8) -> Option<HeadFault> {
    let mut head = ALL;
    if place < 378 {
        head[place] = byte;
    }
    fault_of(alloc, &head, 2)
}

/// The fault of the old head with this byte changed.
fn changed_old(alloc: Global, place: usize, byte: u8) -> Option<HeadFault> {
    let mut head = OLD;
    if place < 321 {
        head[place] = byte;
    }
    fault_of(alloc, &head, 1)
}

fn is_told(rt: &impl Abort, got: Option<HeadFault>, fault: CodecFault) {
    assert_eq!(rt; got, Some(HeadFault::Codec(fault)));
}

fn is_bad(rt: &impl Abort, got: Option<HeadFault>, at: usize) {
    is_told(rt, got, CodecFault::BadField { at });
}

#[test]
fn the_first_row_that_may_not_stand_there_is_told(rt: HostRuntime) {
    for (place, byte, at) in CASES {
        is_bad(&rt, changed(rt.alloc(), place, byte), at);
    }
}

#[test]
fn the_first_row_of_an_old_head_that_may_not_stand_there_is_told(rt: HostRuntime) {
    for (place, byte, at) in OLD_CASES {
        is_bad(&rt, changed_old(rt.alloc(), place, byte), at);
    }
}

#[test]
fn bytes_that_are_left_over_are_told(rt: HostRuntime) {
    let alloc = rt.alloc();
    let trailing = CodecFault::Trailing { at: 367 };
    is_told(&rt, changed(alloc, 27, 1), trailing);
    let trailing = CodecFault::Trailing { at: 287 };
    is_told(&rt, changed_old(alloc, 23, 1), trailing);
}

#[test]
fn a_head_of_the_other_version_is_told_behind_its_counts(rt: HostRuntime) {
    is_bad(&rt, fault_of(rt.alloc(), &ALL, 1), 24);
    is_bad(&rt, fault_of(rt.alloc(), &OLD, 2), 28);
}

/// The last of the places that is not above this one, and 0 where all are.
fn row_at(places: &[usize], at: usize) -> usize {
    let mut row = 0;
    for place in places {
        if *place <= at {
            row = *place;
        }
    }
    row
}

#[test]
fn a_head_that_is_cut_is_told_at_the_row_that_is_not_whole(rt: HostRuntime) {
    for at in 0..378 {
        let got = fault_of(rt.alloc(), &ALL[..at], 2);
        is_bad(&rt, got, row_at(&PLACES, at));
    }
}

#[test]
fn an_old_head_that_is_cut_is_told_at_the_row_that_is_not_whole(rt: HostRuntime) {
    for at in 0..321 {
        let got = fault_of(rt.alloc(), &OLD[..at], 1);
        is_bad(&rt, got, row_at(&OLD_PLACES, at));
    }
}
