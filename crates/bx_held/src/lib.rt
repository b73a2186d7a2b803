//! Waiting for the answer to a held connect or a rider.
#![tactic(auto)]

mod held;

pub use held::PendingAnswer;
