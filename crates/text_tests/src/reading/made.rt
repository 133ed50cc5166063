//! Scenarios that are made of numbers.
use scenario_maker::generate;
use scenario_reader::{Script, read_script};
use std::alloc::Global;
use std::process::Abort;

// Eleven actors and 51 phases.
fn has_its_size(script: &Script) -> bool {
    script.actors.items().len() == 11 && script.phases.items().len() == 51
}

fn is_read(alloc: Global, text: &[u8]) -> bool {
    if text.len() > 1_000_000 {
        return false;
    }
    match read_script(alloc, text) {
        Ok(script) => has_its_size(&script),
        Err(_fault) => false,
    }
}

fn is_scenario(alloc: Global, number: u32) -> bool {
    match generate(alloc, number) {
        Ok(text) => is_read(alloc, &text),
        Err(_) => false,
    }
}

fn are_scenarios(rt: &impl Abort, alloc: Global, numbers: &[u32]) {
    for number in numbers {
        assert!(rt; is_scenario(alloc, *number), "of {number}");
    }
}

#[test]
fn the_scenarios_of_the_least_numbers_are_read(rt: HostRuntime) {
    are_scenarios(&rt, rt.alloc(), &[0, 1, 2, 3, 4]);
}

#[test]
fn the_scenarios_of_further_numbers_are_read(rt: HostRuntime) {
    are_scenarios(&rt, rt.alloc(), &[5, 6, 7, 8, 9]);
}

#[test]
fn the_scenarios_of_numbers_up_to_the_modulus_are_read(rt: HostRuntime) {
    are_scenarios(&rt, rt.alloc(), &[12345, 65535, 65536, 1000000, 2147483647]);
}

#[test]
fn the_scenarios_of_the_largest_numbers_are_read(rt: HostRuntime) {
    let numbers = [2147483648, 2147483649, 3000000000, 4294967294, 4294967295];
    are_scenarios(&rt, rt.alloc(), &numbers);
}
