//! The active patterns of all sessions, and which sessions have one that matches a name.
#![tactic(auto)]

mod arrivals;
mod changes;
mod nodes;
mod own_path;
mod sessions;
mod tree;

pub use nodes::{Found, Nodes};
pub use tree::Tree;
