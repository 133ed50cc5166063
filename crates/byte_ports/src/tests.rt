// What no clause says: that calls succeed, and what the real outside does.
mod memory;
mod outside;

use crate::{Gate, OpenGate};

fn pass_through<G: Gate + Sync>(gate: &G) {
    gate.pass(1);
    gate.pass(7);
}

#[test]
fn an_open_gate_lets_everybody_through() {
    pass_through(&OpenGate);
}
