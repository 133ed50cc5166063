//! What an actor of a scenario does, over any port: its lines in order, each as often as it says,
//! with what is lost on the way.
#![tactic(auto)]

mod actor_state;
mod gated_lines;
mod gated_port;
mod run_wire;
mod turn;
mod turns;

pub use actor_state::ActorState;
pub use gated_port::GatedPort;
