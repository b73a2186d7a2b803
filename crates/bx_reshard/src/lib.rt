//! Redistributes all sessions among another number of shards.
#![tactic(auto)]

mod heirs;
mod laws;
mod lending;
mod making;
mod moving;
mod redistribution;

pub use laws::{refines_redistributed, shards_are_disjoint};
pub use redistribution::redistribute;
