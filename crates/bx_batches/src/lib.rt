//! The queued events of one session, and their batches.
#![tactic(auto)]

mod publication;
mod window;

pub use publication::Publication;
pub use window::{OutstandingBatch, Window};
