//! Rounds: many workers answer inputs in order, as one thread would.
#![tactic(auto)]

mod bring_in;
mod current_input;
mod drain;
mod give_out;
mod held_inputs;
mod items;
mod level;
mod out;
mod pass_over;
mod ready;
mod resharding;
mod round;
mod round_state;
mod run;
mod stage;
mod take_in;

pub use out::{Out, RoundFault};
pub use round::Round;
