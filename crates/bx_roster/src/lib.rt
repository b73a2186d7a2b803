//! The live sessions by number, and which of them are overdue.
#![tactic(auto)]

mod due_queue;
mod edit;
mod roster;
mod session;
mod table;

pub use edit::{Edit, Edits};
pub use session::{ClientAndAck, LiveSession};
pub use table::Table;
